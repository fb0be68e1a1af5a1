//! The rules on loop rows.

ghost use Rattle.std.specs.Prelude.{◌≡◌, ◌<◌, ◌++◌, length};
ghost use Rattle.tp_flow.specs.NestRanges.{ranges};
ghost use Rattle.tp_flow.specs.RowRules.{has_no_start, turns_badly, counts_too_far, has_no_block, is_bad_alone};
ghost use Rattle.tp_flow.specs.RowRules.{crosses_earlier, shares_with_earlier, lies_too_deep, is_bad_among, is_bad_row};
ghost use Rattle.tp_flow.specs.FlowFaults.{bad_row};

use crate::jumps::is_start;
use crate::limits::{MAX_DEPTH, MAX_INDEX, MAX_TURNS};
use crate::nest::Nest;
use crate::range::LoopRange;
use tp_decode::{Instr, Listing};
use tp_image::{Image, LoopRow};

/// The least number of a bad row.
pub(crate) fn bad_row(image: &Image, listing: &Listing, nest: &Nest) -> Option<usize>
    requires { nest.now ≡ ranges image.now.loops }
    ensures { result ≡ bad_row image.now listing.now }
{
    for (i, row) in image.loops.iter().enumerate() {
        if is_bad_row(image, listing, nest, i, row) {
            return Some(i);
        }
    }
    None
}

/// Whether row i is bad.
fn is_bad_row(image: &Image, listing: &Listing, nest: &Nest, i: usize, row: &LoopRow) -> bool
    requires number { i < length nest.now }
    requires nest { nest.now ≡ ranges image.now.loops }
    ensures { result ≡ is_bad_row image.now listing.now i row.now }
{
    is_bad_alone(image, listing, row) || is_bad_among(nest.loops(), i, LoopRange::of(row))
}

/// Whether a row is bad by itself.
fn is_bad_alone(image: &Image, listing: &Listing, row: &LoopRow) -> bool
    ensures { result ≡ is_bad_alone image.now listing.now row.now }
{
    has_no_start(listing, row)
        || row.head == 0
        || row.lend <= row.head
        || listing.at(row.lend as usize) != Some(Instr::Lend)
        || has_no_block(image, row)
        || turns_badly(row)
        || counts_too_far(row)
}

/// Whether the head or the lend is no instruction start.
fn has_no_start(listing: &Listing, row: &LoopRow) -> bool
    ensures { result ≡ has_no_start listing.now row.now }
{
    !is_start(listing, row.head as usize) || !is_start(listing, row.lend as usize)
}

/// Whether the control word and the word after it do not both lie in the workspace.
fn has_no_block(image: &Image, row: &LoopRow) -> bool
    ensures { result ≡ has_no_block image.now row.now }
{
    u64::from(image.workspace) <= u64::from(row.control) + 1
}

/// Whether the loop makes no turn, or too many.
fn turns_badly(row: &LoopRow) -> bool
    ensures { result ≡ turns_badly row.now }
{
    row.count < 1 || MAX_TURNS < row.count
}

/// Whether the index of the last turn is not a word.
fn counts_too_far(row: &LoopRow) -> bool
    ensures { result ≡ counts_too_far row.now }
{
    i64::from(MAX_INDEX) < i64::from(row.start) + i64::from(row.count) - 1
}

/// Whether a row's range is bad among those of all rows.
fn is_bad_among(nest: &[LoopRange], i: usize, range: LoopRange) -> bool
    requires { i < length nest.now }
    ensures { result ≡ is_bad_among nest.now i range }
{
    let earlier = &nest[..i];
    let later = &nest[i + 1..];
    crosses_earlier(earlier, range)
        || shares_with_earlier(earlier, range)
        || lies_too_deep(earlier, later, range)
}

/// Whether a range overlaps an earlier one without one lying within the other.
fn crosses_earlier(earlier: &[LoopRange], range: LoopRange) -> bool
    ensures { result ≡ crosses_earlier earlier.now range }
{
    earlier.iter().any(|other| range.crosses(*other))
}

/// Whether the head or the lend is that of an earlier row.
fn shares_with_earlier(earlier: &[LoopRange], range: LoopRange) -> bool
    ensures { result ≡ shares_with_earlier earlier.now range }
{
    earlier.iter().any(|other| range.shares_an_end(*other))
}

/// Whether a range lies within more others, before and behind it, than loops may nest.
fn lies_too_deep(earlier: &[LoopRange], later: &[LoopRange], range: LoopRange) -> bool
    ensures { result ≡ lies_too_deep (earlier.now ++ later.now) range }
{
    let others = earlier.iter().chain(later.iter());
    MAX_DEPTH <= others.filter(|other| range.lies_within(**other)).count()
}
