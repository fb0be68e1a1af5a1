//! The parts of an image that a machine reads.

ghost use Rattle.std.specs.Prelude.{◌≡◌, ◌↔◌, ◌+◌, ◌*◌, ◌≤◌, ◌<◌, ◌&&◌, ◌==◌, IsTrue, MatchOption, pos, ◌≤ℤ◌, ◌<ℤ◌};
ghost use Rattle.tp_step.specs.State.{mem_start, in_workspace, is_word};
ghost use Rattle.tp_step.specs.Steps.{code_byte};
ghost use Rattle.tp_step.specs.Effects.{has_move};

use tp_image::Image;
use tp_step::profile::MEM_START;

/// Whether n bytes from an address on lie in the workspace.
#[inline]
pub(crate) fn in_workspace(image: &Image, a: u32, n: u32) -> bool
    ensures value { result ≡ in_workspace image.now a n }
    ensures low { IsTrue result → mem_start ≤ a }
    ensures high { IsTrue result → a + n ≤ mem_start + 2048 }
{
    let end = u64::from(a) + u64::from(n);
    MEM_START <= a && end <= u64::from(MEM_START) + 4 * u64::from(image.workspace)
}

/// Whether an address is that of a workspace word.
#[inline]
pub(crate) fn is_word(image: &Image, a: u32) -> bool
    ensures value { result ≡ is_word image.now a }
    ensures low { IsTrue result → mem_start ≤ a }
    ensures high { IsTrue result → a + 4 ≤ mem_start + 2048 }
{
    in_workspace(image, a, 4) && a % 4 == 0
}

/// The code byte at an address.
#[inline]
pub(crate) fn code_byte(image: &Image, at: i64) -> Option<u8>
    ensures value { result ≡ code_byte image.now.code at }
    ensures low { MatchOption result (Unit {0}) (λ _. pos 0 ≤ℤ at) }
    ensures high { MatchOption result (Unit {0}) (λ _. at <ℤ pos 8192) }
{
    if at < 0 {
        None
    } else {
        image.code.get(at as usize).copied()
    }
}
