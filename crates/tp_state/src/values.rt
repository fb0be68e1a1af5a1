//! The values that are kept of words, one beside another.

ghost use Rattle.std.specs.Prelude.{◌≡◌, ℕ, ◌+◌, ◌*◌, ◌<◌, ◌≤◌, ◌==◌, true, false, not, length, slice_index_or};
ghost use Rattle.tp_state.specs.Planes.{is_set, differ_at};

use crate::planes::{WORDS, one};
use std::simd::prelude::*;

/// A bit for each word of word w of a plane whose values differ; the bits in the mask mean nothing.
pub(crate) fn differing(values: &[u32], others: &[u32], w: usize, closed: u64) -> u64
    requires same { length others.now ≡ length values.now }
    requires some { 64 * w < length values.now }
    ensures { (j : ℕ) → j < 64 → 64 * w + j < length values.now → is_set closed j ≡ false →
        is_set result j ≡ differ_at values.now others.now (64 * w + j) }
{
    if closed == u64::MAX {
        return 0;
    }
    let values = &values[WORDS * w..];
    let others = &others[WORDS * w..];
    if values.len() < WORDS {
        differing_few(values, others)
    } else {
        differing_word(values, others)
    }
}

/// Which of the first 64 values differ.
fn differing_word(values: &[u32], others: &[u32]) -> u64
    requires values { 64 ≤ length values.now }
    requires others { 64 ≤ length others.now }
    ensures { (j : ℕ) → j < 64 → is_set result j ≡ differ_at values.now others.now j }
{
    u32x64::from_slice(values)
        .simd_ne(u32x64::from_slice(others))
        .to_bitmask()
}

/// Which values differ, of fewer than 64. It is not inlined, which keeps the loops over whole words small.
#[inline(never)]
fn differing_few(values: &[u32], others: &[u32]) -> u64
    requires same { length others.now ≡ length values.now }
    requires few { length values.now < 64 }
    ensures { (j : ℕ) → j < length values.now → is_set result j ≡ differ_at values.now others.now j }
{
    let mut bits = 0;
    for j in 0..values.len() {
        if values[j] != others[j] {
            bits |= one(j);
        }
    }
    bits
}
