//! Which instructions of a run are printed.

ghost use Rattle.std.specs.Prelude.{◌≡◌};
ghost use Rattle.tpw_step.specs.Places.{is_at};

/// A place in a run.
#[derive(Clone, Copy, Debug, PartialEq, Eq)]
pub enum Place {
    /// An address, counted from code byte 0: the first time that an instruction begins there.
    Address(u32),
    /// A count of steps, prefixes counted: when as many have been made.
    Count(u64),
}

impl Place {
    /// Whether a run that has made `count` steps and is at `at` is there.
    pub fn is_at(self, at: i64, count: u64) -> bool
        ensures { result ≡ is_at self at count }
    {
        match self {
            Place::Address(address) => i64::from(address) == at,
            Place::Count(steps) => steps <= count,
        }
    }
}

/// The instructions that are printed: from a place on, or from the start; and as far as a place, where the run is left,
/// or to its end.
#[derive(Clone, Copy, Debug, PartialEq, Eq)]
pub struct Span {
    pub from: Option<Place>,
    pub until: Option<Place>,
}
