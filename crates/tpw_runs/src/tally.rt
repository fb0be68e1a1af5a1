//! The outcomes of packets, in numbers.

ghost use Rattle.std.specs.Prelude.{◌≡◌, ◌<◌, ◌^◌};
ghost use Rattle.tpw_runs.specs.Tallies.{counted, kind_of, widened, with_kind, with_steps, with_flagged, with_first, with_entry};
ghost use Rattle.tpw_runs.specs.Tallies.{nothing_counted};

use crate::form::Form;
use crate::lines::is_other;
use tp_collect::Entry;

/// The least and the most steps of some runs.
#[derive(Clone, Copy, Debug, PartialEq, Eq)]
pub struct StepRange {
    pub least: u32,
    pub most: u32,
}

/// The range that also has this number.
fn widened(range: Option<StepRange>, steps: u32) -> StepRange
    ensures { result ≡ widened range steps }
{
    match range {
        Some(StepRange { least, most }) => StepRange {
            least: least.min(steps),
            most: most.max(steps),
        },
        None => StepRange {
            least: steps,
            most: steps,
        },
    }
}

/// The count of a packet.
#[derive(Clone, Copy, Debug, PartialEq, Eq)]
pub enum Kind {
    /// It has a result: the one that is expected, where one is.
    Done,
    /// It has another result than is expected.
    Other,
    /// It was lost.
    Lost,
}

/// How many packets there were, and what became of them. Each is of one kind.
#[derive(Clone, Copy, Debug, PartialEq, Eq)]
pub struct Tally {
    /// How many have a result: the one that is expected, where one is.
    pub done: usize,
    /// How many have another result than is expected.
    pub other: usize,
    /// How many were lost.
    pub lost: usize,
    /// The steps of those that have a result.
    pub steps: Option<StepRange>,
    /// The number of the first that has not the result that is expected.
    pub first: Option<usize>,
    /// The number of the first whose error flag is set.
    pub flagged: Option<usize>,
}

/// The kind of the packet of a number, by what became of it.
fn kind_of(form: Form<'_>, number: usize, entry: &Entry) -> Kind
    ensures { result ≡ kind_of form.entry number entry.now }
{
    match entry {
        Entry::Done(_) if is_other(form, number, entry) => Kind::Other,
        Entry::Done(_) => Kind::Done,
        Entry::Lost(_) => Kind::Lost,
    }
}

impl Tally {
    /// That of no packet.
    pub fn new() -> Tally
        ensures { result ≡ nothing_counted }
    {
        Tally {
            done: 0,
            other: 0,
            lost: 0,
            steps: None,
            first: None,
            flagged: None,
        }
    }

    /// How many packets are counted.
    pub fn packets(&self) -> usize
        ensures { counted self.now < 2 ^ 64 → result ≡ counted self.now }
    {
        self.done
            .saturating_add(self.other)
            .saturating_add(self.lost)
    }

    /// Counts a packet more.
    pub fn add(&mut self, kind: Kind)
        requires { counted self.old < 2 ^ 63 }
        ensures { self.new ≡ with_kind kind self.old }
    {
        match kind {
            Kind::Done => self.done += 1,
            Kind::Other => self.other += 1,
            Kind::Lost => self.lost += 1,
        }
    }

    /// Counts the steps of a packet that has a result.
    fn add_steps(&mut self, steps: u32)
        ensures { self.new ≡ with_steps steps self.old }
    {
        self.steps = Some(widened(self.steps, steps));
    }

    /// Notes a packet of a number whose error flag is set, where it is.
    fn note_flag(&mut self, error: bool, number: usize)
        ensures { self.new ≡ with_flagged error number self.old }
    {
        if error {
            self.flagged = Some(self.flagged.unwrap_or(number));
        }
    }

    /// Notes a packet that has not the result that is expected, by its number.
    pub fn note_other(&mut self, number: usize)
        ensures { self.new ≡ with_first number self.old }
    {
        self.first = Some(self.first.unwrap_or(number));
    }

    /// Counts what became of one packet more.
    pub fn add_entry(&mut self, form: Form<'_>, entry: &Entry)
        requires { counted self.old < 2 ^ 63 }
        ensures { self.new ≡ with_entry form.entry self.old entry.now }
    {
        let number = self.packets();
        self.add(kind_of(form, number, entry));
        if let Entry::Done(done) = entry {
            self.add_steps(done.steps);
            self.note_flag(done.error, number);
        }
        if is_other(form, number, entry) {
            self.note_other(number);
        }
    }
}
