//! The members and the form of the answers that `serve` works with.

ghost use Rattle.std.specs.Prelude.{◌≡◌, ◌≤◌, vec_len};
ghost use Rattle.tp_board.specs.Limits.{most_members};

use tp_link::Links;

/// The links of 1 to 64 members that run packets, and whether traces are written.
#[derive(Drop)]
pub struct Farm<D> {
    pub(crate) links: Vec<Links<D>>,
    pub(crate) trace: bool,
    ghost least: { 1 ≤ vec_len links },
    ghost most: { vec_len links ≤ most_members },
}

impl<D> Farm<D> {
    /// A farm of a member for each of the links, of which there are 1 to 64. With `trace`, each result is followed by
    /// the bytes that its worker sent on link 1.
    ///
    /// [`serve`](crate::serve) keeps its promise for devices that are open, cannot fail and have room for 256
    /// bytes.
    pub fn new(links: Vec<Links<D>>, trace: bool) -> Farm<D>
        requires least { 1 ≤ vec_len links }
        requires most { vec_len links ≤ most_members }
        ensures links { result.links ≡ links }
        ensures trace { result.trace ≡ trace }
    {
        Farm { links, trace }
    }
}
