//! Items: what has words of the workspace.

ghost use Rattle.std.specs.Prelude.{◌≡◌};
ghost use Rattle.tpw_occam_symbolic.specs.Blocks.{sort_of, number_of, is_item};

/// The workspace word that Wptr points at, the local word 0. The five words below it are lost at jumps, loops' ends
/// and messages.
pub const START: u32 = 5;

/// An item: what has words of the workspace.
#[derive(Clone, Copy, Debug, PartialEq, Eq)]
pub enum Item {
    /// A variable, by its number; as the index of a loop it has the count behind it.
    Variable(usize),
    /// An operand that is kept while another is evaluated, by how many are kept already.
    Temporary(usize),
    /// A constant, which is an initial word.
    Constant(u32),
    /// An array, by its number.
    Array(usize),
    /// Words that stay 0.
    Zeros,
}

/// The sort of an item.
fn sort(item: Item) -> u32
    ensures { result ≡ sort_of item }
{
    match item {
        Item::Variable(_) => 0,
        Item::Temporary(_) => 1,
        Item::Constant(_) => 2,
        Item::Array(_) => 3,
        Item::Zeros => 4,
    }
}

/// The number of an item among those that are the same.
fn number(item: Item) -> usize
    ensures { result ≡ number_of item }
{
    match item {
        Item::Variable(x) => x,
        Item::Temporary(t) => t,
        Item::Constant(c) => c as usize,
        Item::Array(a) => a,
        Item::Zeros => 0,
    }
}

/// Whether items are the same.
pub(crate) fn is_same(one: Item, other: Item) -> bool
    ensures { result ≡ is_item one other }
{
    sort(one) == sort(other) && number(one) == number(other)
}

/// An item, how many words it has, and the local word that it begins with.
#[derive(Clone, Copy, Debug, PartialEq, Eq)]
pub struct Placed {
    pub item: Item,
    pub words: u32,
    pub local: u32,
}
