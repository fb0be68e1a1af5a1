//! Accepted images.

ghost use Rattle.std.specs.Prelude.{◌≡◌, ◌≤◌, ◌*◌, List};
ghost use Rattle.tp_decode.specs.Cutting.{Cut, IsCutting};
ghost use Rattle.tp_accept.specs.Bound.{bound};
ghost use Rattle.tp_accept.specs.Limits.{most_budget};
ghost use Rattle.tp_accept.specs.Acceptance.{IsAcceptable};
ghost use Rattle.tp_accept.specs.Ending.{NeverGoesWrong};

use tp_image::Image;
use tp_image::layout::WORD_BYTES;

/// An image that may be run, with its budget. [`accept`](crate::accept) alone makes one.
#[derive(Debug, Drop)]
pub struct Accepted {
    pub(crate) image: Image,
    /// In instruction bytes.
    pub(crate) budget: u32,
    ghost acceptable: { ∥ IsAcceptable image budget ∥₁ },
}

impl Accepted {
    /// The bound on the instruction bytes of a run: each packet's run ends within it, and never goes wrong.
    pub fn budget(&self) -> u32
        ensures value { result ≡ self.now.budget }
        ensures bound { (cuts : List Cut) → IsCutting self.now.image.code cuts →
            result ≡ bound self.now.image.loops cuts }
        ensures within { result ≤ most_budget }
        ensures ends { NeverGoesWrong self.now.image result }
    {
        self.budget
    }

    /// How many bytes a packet has.
    pub fn packet_bytes(&self) -> usize
        ensures value { result ≡ 4 * self.now.image.packet }
        ensures most { result ≤ 256 }
    {
        WORD_BYTES * self.image.packet as usize
    }

    /// How many bytes a result has.
    pub fn result_bytes(&self) -> usize
        ensures value { result ≡ 4 * self.now.image.result }
        ensures most { result ≤ 256 }
    {
        WORD_BYTES * self.image.result as usize
    }

    /// The instruction bytes.
    pub fn code(&self) -> &[u8]
        ensures { result.now ≡ self.now.image.code }
    {
        &self.image.code
    }

    /// The image.
    pub fn image(&self) -> &Image
        ensures { result.now ≡ self.now.image }
    {
        &self.image
    }
}
