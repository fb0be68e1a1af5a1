//! The workers that are timed, as image bytes.

/// A worker, and how many packets it runs on where no time is taken.
#[derive(Clone, Copy)]
pub struct Worker {
    pub name: &'static str,
    pub image: &'static [u8],
    pub few: u32,
}

/// Adds one to its packet.
pub const LIGHT: Worker = Worker {
    name: "light",
    image: test_samples::INCREMENT,
    few: 1024,
};

/// Sums the indices of a loop of 10,000 turns.
pub const HEAVY: Worker = Worker {
    name: "heavy",
    image: test_samples::SUM_TO_TEN_THOUSAND,
    few: 8,
};
