ghost use Rattle.std.specs.Prelude.{◌≡◌, ◌↔◌, ◌⊎◌, ℕ, ◌+◌, ◌<◌, ◌^◌, drop, length, IfOk, IfErr};
ghost use Rattle.tp_prefix.specs.Reading.{Reads};
ghost use Rattle.tp_prefix.specs.Spelling.{IsSpelledAt, IsCutOff, IsTooLong};
ghost use Rattle.tp_prefix.specs.declared.spelled.Spelled.{Spelled};

use crate::spelled::{PrefixFault, Spelled};
use crate::{MAX_SPELLING, NFIX, PFIX};

/// The spelling in a code at an address. It may be longer than the canonical one.
pub fn read_one(code: &[u8], at: usize) -> Result<Spelled, PrefixFault>
    requires { at < length code.now }
    ensures found { IfOk result (λ s. IsSpelledAt code.now at s) }
    ensures only { (s : Spelled) → IsSpelledAt code.now at s → result ≡ Ok s }
    ensures refused { IfErr result (λ e. (e ≡ PrefixFault.D1 at) ⊎ (e ≡ PrefixFault.D2 at)) }
    ensures cut_off { (result ≡ Err (PrefixFault.D1 at)) ↔ IsCutOff (drop at code.now) }
    ensures too_long { (result ≡ Err (PrefixFault.D2 at)) ↔ IsTooLong (drop at code.now) }
{
    read_front(&code[at..], at)
}

/// The spelling at the front of the bytes from an address on.
fn read_front(bytes: &[u8], at: usize) -> Result<Spelled, PrefixFault>
    requires some { 0 < length bytes.now }
    requires fits { at + length bytes.now < 2 ^ 64 }
    ensures { Reads bytes.now at result }
{
    let mut oreg: u32 = 0;
    for (i, byte) in bytes.iter().enumerate() {
        let loaded = oreg + u32::from(*byte % 16);
        match *byte / 16 {
            PFIX => oreg = loaded.wrapping_mul(16),
            NFIX => oreg = (!loaded).wrapping_mul(16),
            function => {
                return Ok(Spelled {
                    function,
                    operand: loaded.cast_signed(),
                    next: at + i + 1,
                });
            }
        }
        if i + 1 == MAX_SPELLING {
            return Err(PrefixFault::D2(at));
        }
    }
    Err(PrefixFault::D1(at))
}
