//! The operand register.

ghost use Rattle.std.specs.Prelude.{◌≡◌, ◌%◌};
ghost use Rattle.tp_prefix.specs.Spelling.{shifted, shifted_complement};

/// Oreg after pfix: shifted up by four bits.
#[inline(always)]
pub fn shifted(oreg: u32) -> u32
    ensures value { result ≡ shifted oreg }
    ensures shifted { result % 16 ≡ 0 }
{
    oreg.wrapping_mul(16)
}

/// Oreg after nfix: complemented, then shifted up by four bits.
#[inline(always)]
pub fn shifted_complement(oreg: u32) -> u32
    ensures value { result ≡ shifted_complement oreg }
    ensures shifted { result % 16 ≡ 0 }
{
    (!oreg).wrapping_mul(16)
}
