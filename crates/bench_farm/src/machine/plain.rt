//! Loops over an array of words. Nothing is tested here.

ghost use Rattle.std.specs.Prelude.{◌<◌, ◌+◌};

/// The words of a memory.
pub const WORDS: usize = 16;

/// Sums the indices of the inner loop's turns in a word. The loop's index is at `block`, and its count behind it. The
/// places are arguments: each turn has to read and write the array.
#[inline(never)]
pub fn turns(words: &mut [u32; WORDS], sum: usize, block: usize, outer: u32, inner: u32)
    requires sum { sum < 16 }
    requires block { block + 1 < 16 }
{
    for _ in 0..outer {
        words[block] = 0;
        words[block + 1] = inner;
        for _ in 0..inner {
            words[sum] = words[sum].wrapping_add(words[block]);
            words[block + 1] = words[block + 1].wrapping_sub(1);
            words[block] = words[block].wrapping_add(1);
        }
    }
}
