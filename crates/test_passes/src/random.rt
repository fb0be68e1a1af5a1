//! Numbers that look random, from a seed: those of SplitMix64.

ghost use Rattle.std.specs.Prelude.{◌<◌};

/// Where such numbers come from.
#[derive(Drop)]
pub(crate) struct Random {
    state: u64,
}

impl Random {
    pub(crate) fn of(seed: u64) -> Random {
        Random { state: seed }
    }

    fn next(&mut self) -> u64 {
        self.state = self.state.wrapping_add(0x9E37_79B9_7F4A_7C15);
        let n = (self.state ^ (self.state >> 30)).wrapping_mul(0xBF58_476D_1CE4_E5B9);
        let n = (n ^ (n >> 27)).wrapping_mul(0x94D0_49BB_1331_11EB);
        n ^ (n >> 31)
    }

    /// A number below another.
    pub(crate) fn below(&mut self, end: u8) -> u8
        requires { 0 < end }
        ensures { result < end }
    {
        (self.next() % u64::from(end)) as u8
    }

    /// Once in this many times.
    pub(crate) fn is_once_in(&mut self, times: u8) -> bool
        requires { 0 < times }
    {
        self.below(times) == 0
    }
}
