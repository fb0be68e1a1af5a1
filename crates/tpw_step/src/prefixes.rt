//! The prefixes of an instruction.

ghost use Rattle.std.specs.Prelude.{◌≡◌, ◌≤◌, ◌<ℤ◌, MatchOption, length, pos};
ghost use Rattle.tp_decode.specs.Spelling.{is_prefix};
ghost use Rattle.tpw_step.specs.Stepping.{ArePrefixes};

use tp_prefix::{NFIX, PFIX};

/// Whether a byte is a prefix.
fn is_prefix(byte: u8) -> bool
    ensures { result ≡ is_prefix byte }
{
    let function = byte / 16;
    function == PFIX || function == NFIX
}

/// An address that is not below 0, as an index.
fn index(at: i64) -> Option<usize>
    ensures { MatchOption result (at <ℤ pos 0) (λ i. at ≡ pos i) }
{
    if at < 0 { None } else { Some(at as usize) }
}

/// How many prefixes are in a code from an index on.
fn prefixes_from(code: &[u8], first: usize) -> usize
    ensures are { ArePrefixes code.now (pos first) result }
    ensures within { result ≤ length code.now }
{
    for i in first..code.len() {
        if !is_prefix(code[i]) {
            return i - first;
        }
    }
    code.len().saturating_sub(first)
}

/// How many prefixes are in a code from an address on.
pub(crate) fn prefixes_at(code: &[u8], at: i64) -> usize
    ensures are { ArePrefixes code.now at result }
    ensures within { result ≤ length code.now }
{
    match index(at) {
        Some(first) => prefixes_from(code, first),
        None => 0,
    }
}
