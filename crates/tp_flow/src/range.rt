//! Ranges of loops.

ghost use Rattle.std.specs.Prelude.{◌≡◌, ◌≤◌, ℕ};
ghost use Rattle.tp_flow.specs.NestRanges.{range_of, contains, lies_within, crosses, shares_an_end};
ghost use Rattle.tp_flow.specs.JumpRules.{leaves, enters_inside};

use tp_image::LoopRow;

/// The code addresses of a loop, in bytes. Both ends belong to it.
#[derive(Clone, Copy, Debug, Default, PartialEq, Eq)]
pub struct LoopRange {
    /// Where its first instruction starts.
    pub head: usize,
    /// Where its lend starts.
    pub lend: usize,
}

impl LoopRange {
    /// The range of a row.
    pub(crate) fn of(row: &LoopRow) -> LoopRange
        ensures { result ≡ range_of row.now }
    {
        LoopRange {
            head: row.head as usize,
            lend: row.lend as usize,
        }
    }

    /// Whether an address lies in the loop.
    pub fn contains(self, at: usize) -> bool
        ensures { result ≡ contains self at }
    {
        self.head <= at && at <= self.lend
    }

    /// An address up to which all addresses from one on lie in the loop, or none does.
    pub(crate) fn alike_up_to(self, first: usize) -> usize
        ensures { (at : ℕ) → first ≤ at → at ≤ result → contains self first ≡ contains self at }
    {
        if first < self.head {
            self.head - 1
        } else if first <= self.lend {
            self.lend
        } else {
            usize::MAX
        }
    }

    /// Whether each address of the loop lies in the other.
    pub(crate) fn lies_within(self, other: LoopRange) -> bool
        ensures { result ≡ lies_within self other }
    {
        other.head <= self.head && self.lend <= other.lend
    }

    /// Whether the loops overlap and neither lies within the other.
    pub(crate) fn crosses(self, other: LoopRange) -> bool
        ensures { result ≡ crosses self other }
    {
        let overlaps = self.head <= other.lend && other.head <= self.lend;
        overlaps && !(self.lies_within(other) || other.lies_within(self))
    }

    /// Whether the heads or the lends are one.
    pub(crate) fn shares_an_end(self, other: LoopRange) -> bool
        ensures { result ≡ shares_an_end self other }
    {
        self.head == other.head || self.lend == other.lend
    }

    /// Whether a way between two addresses leaves the loop.
    pub(crate) fn is_left(self, at: usize, to: usize) -> bool
        ensures { result ≡ leaves at to self }
    {
        self.contains(at) && !self.contains(to)
    }

    /// Whether a way between two addresses enters the loop at another place than its head.
    pub(crate) fn is_entered_inside(self, at: usize, to: usize) -> bool
        ensures { result ≡ enters_inside at to self }
    {
        !self.contains(at) && self.contains(to) && to != self.head
    }
}
