//! Planes of bits: two bits of each workspace word say what its cell is, but for the value of one that has a value.

ghost use Rattle.std.specs.Prelude.{◌≡◌, ℕ, ◌+◌, ◌-◌, ◌*◌, ◌^◌, ◌<◌, ◌≤◌, ◌==◌, ◌&&◌, nat_le, nat_lt, length, List};
ghost use Rattle.std.specs.Prelude.{true, false, slice_index_or, bit_or, bit_xor};
ghost use Rattle.tp_state.specs.declared.cell.Cell.TheVariants.{Undef};
ghost use Rattle.tp_state.specs.CellRules.{blurred, is_free, is_defined};
ghost use Rattle.tp_state.specs.Planes.{is_set, live_of, cell_of, bits_cell, HasByteRow, with_mask, blurred_bits};
ghost use Rattle.tp_state.specs.Planes.{live_bits, undefined_bits, joined_bits, failing_bits, no_bits, cell_in};
ghost use Rattle.tp_state.specs.Planes.{IsWhole, ChangesPlanes, AreKnown, ArePadded, EachIs, OneIsNot, OneChanges};
ghost use Rattle.tp_state.specs.Planes.{with_bits, Agree, Moves};
ghost use Rattle.tp_state.specs.Order.{cell_below};
ghost use Rattle.tp_state.specs.PlaneJoins.{TakesJoins};

use crate::cell::Cell;
use crate::values::differing;
use arrayvec::ArrayVec;

/// How many words a word of a plane has.
pub(crate) const WORDS: usize = 64;

/// How many words a plane has at most: a workspace has no more than 512 words.
pub(crate) const PLANES: usize = 8;

/// The two planes of a workspace.
pub(crate) type Planes = ArrayVec<Bits, PLANES>;

/// The first of the values that mean a loop's count, and not its index.
const COUNTS: u32 = 256;

/// Two bits of each of 64 words: Known has 00, Any 10, Undef 11, and a live control word 01. So a join is an OR, and
/// the first bit of words that differ.
#[derive(Clone, Copy, Debug, Default, PartialEq, Eq)]
pub(crate) struct Bits {
    pub(crate) first: u64,
    pub(crate) second: u64,
}

/// A cell as it is kept: its two bits, and its value. A live control word's value is its row, and 256 more for a count.
#[derive(Clone, Copy, Debug)]
pub(crate) struct Kept {
    pub(crate) first: bool,
    pub(crate) second: bool,
    pub(crate) value: u32,
}

impl Kept {
    pub(crate) fn of(cell: Cell) -> Kept
        ensures cell { cell_of result.first result.second result.value ≡ cell }
        ensures row { HasByteRow cell }
    {
        match cell {
            Cell::Known(n) => Kept::with(false, false, n.cast_unsigned()),
            Cell::Any => Kept::with(true, false, 0),
            Cell::Undef => Kept::with(true, true, 0),
            Cell::Index(l) => Kept::with(false, true, u32::from(l)),
            Cell::Count(l) => Kept::with(false, true, COUNTS + u32::from(l)),
        }
    }

    fn with(first: bool, second: bool, value: u32) -> Kept
        ensures { result ≡ record { first = first; second = second; value = value } }
    {
        Kept {
            first,
            second,
            value,
        }
    }
}

/// A live control word, by its value.
fn live_cell(value: u32) -> Cell
    requires { HasByteRow (live_of value) }
    ensures { result ≡ live_of value }
{
    if value < COUNTS {
        Cell::Index(value as u8)
    } else {
        Cell::Count((value - COUNTS) as u8)
    }
}

/// Whether a bit is set.
fn is_set(bits: u64, j: usize) -> bool
    requires { j < 64 }
    ensures { result ≡ is_set bits j }
{
    (bits >> j) & 1 == 1
}

/// One bit.
pub(crate) fn one(j: usize) -> u64
    requires { j < 64 }
    ensures { result ≡ 2 ^ j }
{
    1 << j
}

/// The lowest bits.
fn low(k: usize) -> u64
    requires { k ≤ 64 }
    ensures { result ≡ 2 ^ k - 1 }
{
    if k == WORDS { u64::MAX } else { one(k) - 1 }
}

/// Of the words of word w of a plane, those from x to an end.
fn within(w: usize, x: usize, end: usize) -> u64
    requires order { x ≤ end }
    requires place { w < 2 ^ 32 }
    ensures { (j : ℕ) → j < 64 → is_set result j ≡ (nat_le x (64 * w + j) && nat_lt (64 * w + j) end) }
{
    let below = x.saturating_sub(WORDS * w).min(WORDS);
    let through = end.saturating_sub(WORDS * w).min(WORDS);
    low(through) ^ low(below)
}

/// Sets or clears the bits of a mask.
fn masked(bits: u64, mask: u64, bit: bool) -> u64
    ensures { result ≡ with_mask bit mask bits }
{
    if bit {
        bits | mask
    } else {
        (bits | mask) ^ mask
    }
}

impl Bits {
    /// The cell of one of the words, with its value.
    pub(crate) fn cell(self, j: usize, value: u32) -> Cell
        requires place { j < 64 }
        requires row { HasByteRow (bits_cell self j value) }
        ensures { result ≡ bits_cell self j value }
    {
        match (is_set(self.first, j), is_set(self.second, j)) {
            (false, false) => Cell::Known(value.cast_signed()),
            (true, false) => Cell::Any,
            (true, true) => Cell::Undef,
            (false, true) => live_cell(value),
        }
    }

    /// The words of a mask take a cell's bits.
    fn put(self, mask: u64, kept: Kept) -> Bits
        ensures first { result.first ≡ with_mask kept.first mask self.first }
        ensures second { result.second ≡ with_mask kept.second mask self.second }
    {
        Bits {
            first: masked(self.first, mask, kept.first),
            second: masked(self.second, mask, kept.second),
        }
    }

    /// The words of a mask may have taken something: those that are Known are Any.
    fn blurred(self, mask: u64) -> Bits
        ensures { result ≡ blurred_bits mask self }
    {
        Bits {
            first: self.first | ((self.second & mask) ^ mask),
            second: self.second,
        }
    }

    /// The join; `differ` marks unequal values.
    fn joined(self, other: Bits, differ: u64) -> Bits
        ensures { result ≡ joined_bits differ self other }
    {
        Bits {
            first: self.first | other.first | (self.second ^ other.second) | differ,
            second: self.second | other.second,
        }
    }

    /// The words that have no value here or none there: their values mean nothing.
    fn closed(self, other: Bits) -> u64
        ensures { result ≡ bit_or self.first other.first }
    {
        self.first | other.first
    }

    /// The words whose cell is not below the other's; `differ` marks unequal values.
    fn failing(self, other: Bits, differ: u64) -> u64
        ensures { result ≡ failing_bits differ self other }
    {
        let unlike = self.first | (self.second ^ other.second) | differ;
        let live_under_free = other.first & self.second;
        (unlike ^ (unlike & other.first))
            | (live_under_free ^ (live_under_free & other.second & self.first))
    }

    /// The words that have other bits than before.
    fn changes(self, old: Bits) -> u64
        ensures { result ≡ bit_or (bit_xor self.first old.first) (bit_xor self.second old.second) }
    {
        (self.first ^ old.first) | (self.second ^ old.second)
    }

    /// The live control words.
    fn live(self) -> u64
        ensures { result ≡ live_bits self }
    {
        self.second & (self.first ^ self.second)
    }

    /// The words that are undefined.
    fn undefined(self) -> u64
        ensures { result ≡ undefined_bits self }
    {
        self.first & self.second
    }
}

/// The planes of this many words whose values are known.
pub(crate) fn whole_planes(words: usize) -> Planes
    requires { words ≤ 512 }
    ensures enough { words ≤ 64 * length result.items }
    ensures no_more { 64 * length result.items < words + 64 }
    ensures known { AreKnown words result.items }
    ensures padded { ArePadded words result.items }
{
    let mut planes = clear_planes((words + WORDS - 1) / WORDS);
    close_planes(&mut planes, words);
    planes
}

/// Planes with no bit set.
fn clear_planes(many: usize) -> Planes
    requires { many ≤ 8 }
    ensures long { length result.items ≡ many }
    ensures clear { (k : ℕ) → k < many → slice_index_or result.items k no_bits ≡ no_bits }
{
    let clear = Bits {
        first: 0,
        second: 0,
    };
    let mut planes = ArrayVec::from([clear; PLANES]);
    planes.truncate(many);
    planes
}

/// The same planes.
pub(crate) fn copied_planes(planes: &Planes) -> Planes
    ensures { result.items ≡ planes.now.items }
{
    let mut copy = ArrayVec::new();
    for bits in planes.as_slice() {
        copy.push(*bits);
    }
    copy
}

/// Sets the bits of planes that have no word to those of a word of which nothing is known.
fn close_planes(planes: &mut [Bits], words: usize)
    requires enough { words ≤ 64 * length planes.old }
    requires few { length planes.old < 2 ^ 32 }
    requires clear { (k : ℕ) → k < length planes.old → slice_index_or planes.old k no_bits ≡ no_bits }
    ensures known { AreKnown words planes.new }
    ensures padded { ArePadded words planes.new }
{
    let end = WORDS * planes.len();
    put_all(planes, words, end, Kept::of(Cell::Undef));
}

/// The join, in place; `differ` marks unequal values. Returns a bit for each word that has changed.
fn join_bits(bits: &mut Bits, other: Bits, differ: u64) -> u64
    ensures value { bits.new ≡ joined_bits differ bits.old other }
    ensures stays { result ≡ 0 → bits.new ≡ bits.old }
    ensures moves { 0 < result → Moves bits.old bits.new }
{
    let joined = bits.joined(other, differ);
    let moved = joined.changes(*bits);
    *bits = joined;
    moved
}

/// The words from x to an end take a cell's bits.
pub(crate) fn put_all(planes: &mut [Bits], x: usize, end: usize, kept: Kept)
    requires order { x ≤ end }
    requires room { end ≤ 64 * length planes.old }
    requires few { length planes.old < 2 ^ 32 }
    ensures { (values : List ℕ) →
        ChangesPlanes values planes.old planes.new (with_bits kept.first kept.second values) x end }
{
    for w in x / WORDS..(end + WORDS - 1) / WORDS {
        planes[w] = planes[w].put(within(w, x, end), kept);
    }
}

/// One word takes a cell's bits.
pub(crate) fn put_one(planes: &mut [Bits], x: usize, kept: Kept)
    requires room { x < 64 * length planes.old }
    ensures { (values : List ℕ) →
        ChangesPlanes values planes.old planes.new (with_bits kept.first kept.second values) x (x + 1) }
{
    planes[x / WORDS] = planes[x / WORDS].put(one(x % WORDS), kept);
}

/// The words from x to an end may have taken something.
pub(crate) fn blur_all(planes: &mut [Bits], x: usize, end: usize)
    requires order { x ≤ end }
    requires room { end ≤ 64 * length planes.old }
    requires few { length planes.old < 2 ^ 32 }
    ensures { (values : List ℕ) → ChangesPlanes values planes.old planes.new (λ i c. blurred c) x end }
{
    for w in x / WORDS..(end + WORDS - 1) / WORDS {
        planes[w] = planes[w].blurred(within(w, x, end));
    }
}

/// Whether none of the words from x to an end is a live control word.
pub(crate) fn all_free(planes: &[Bits], x: usize, end: usize) -> bool
    requires order { x ≤ end }
    requires room { end ≤ 64 * length planes.now }
    requires few { length planes.now < 2 ^ 32 }
    ensures yes { result ≡ true → EachIs is_free planes.now x end }
    ensures no { result ≡ false → OneIsNot is_free planes.now x end }
{
    for w in x / WORDS..(end + WORDS - 1) / WORDS {
        if planes[w].live() & within(w, x, end) != 0 {
            return false;
        }
    }
    true
}

/// Whether all of the words from x to an end are defined.
pub(crate) fn all_defined(planes: &[Bits], x: usize, end: usize) -> bool
    requires order { x ≤ end }
    requires room { end ≤ 64 * length planes.now }
    requires few { length planes.now < 2 ^ 32 }
    ensures yes { result ≡ true → EachIs is_defined planes.now x end }
    ensures no { result ≡ false → OneIsNot is_defined planes.now x end }
{
    for w in x / WORDS..(end + WORDS - 1) / WORDS {
        if planes[w].undefined() & within(w, x, end) != 0 {
            return false;
        }
    }
    true
}

/// Copies all bits from `others`.
pub(crate) fn set_planes(planes: &mut [Bits], others: &[Bits])
    requires { length others.now ≡ length planes.old }
    ensures { planes.new ≡ others.now }
{
    planes.copy_from_slice(others);
}

/// The join, word by word, in place. Where words that have a value in both are known to have the same, no value is
/// looked at. Returns whether anything changed.
pub(crate) fn join_planes(
    planes: &mut [Bits],
    others: &[Bits],
    values: &[u32],
    other_values: &[u32],
    agree: bool,
) -> bool
    requires planes { length others.now ≡ length planes.old }
    requires values { length other_values.now ≡ length values.now }
    requires whole { IsWhole values.now planes.old }
    requires agree { agree ≡ true → Agree values.now other_values.now planes.old others.now }
    ensures joined { TakesJoins values.now other_values.now planes.old others.now planes.new }
    ensures stays { result ≡ false → planes.new ≡ planes.old }
    ensures moves { result ≡ true → OneChanges values.now planes.old planes.new }
{
    let mut moved = 0;
    for w in 0..planes.len() {
        let differ = if agree {
            0
        } else {
            differing(values, other_values, w, planes[w].closed(others[w]))
        };
        moved |= join_bits(&mut planes[w], others[w], differ);
    }
    moved != 0
}

/// Whether each cell is below the other's of the same word.
pub(crate) fn planes_below(
    planes: &[Bits],
    others: &[Bits],
    values: &[u32],
    other_values: &[u32],
) -> bool
    requires planes { length others.now ≡ length planes.now }
    requires values { length other_values.now ≡ length values.now }
    requires whole { IsWhole other_values.now others.now }
    ensures yes { result ≡ true → (i : ℕ) → i < 64 * length planes.now →
        cell_below (cell_in values.now planes.now i) (cell_in other_values.now others.now i) ≡ true }
    ensures no { result ≡ false → (i : ℕ) × (i < 64 * length planes.now)
        × (cell_below (cell_in values.now planes.now i) (cell_in other_values.now others.now i) ≡ false) }
{
    for w in 0..planes.len() {
        let differ = differing(values, other_values, w, planes[w].closed(others[w]));
        if planes[w].failing(others[w], differ) != 0 {
            return false;
        }
    }
    true
}
