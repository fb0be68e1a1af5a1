//! Numbers of a text.

ghost use Rattle.std.specs.Prelude.{◌≡◌, ◌≤◌, ◌⊎◌, IfOk, IfErr};
ghost use Rattle.std.specs.Result.{result_ok};
ghost use Rattle.tpw_text.specs.declared.fault.TextFault.TheVariants as fault;
ghost use Rattle.tpw_text.specs.Numbers.{digits_said, natural_said, signed_said, count_said, begins_number};
ghost use Rattle.tpw_text.specs.Faults.{fault_at};
ghost use Rattle.tpw_text.specs.Statements.{number_read, count_read};

use crate::fault::{SourceFault, TextFault};
use crate::words::Word;

/// The number that digits of a radix write, if there are digits alone and it has 32 bits.
#[tactic(auto, unfolding(crate::specs::Numbers::digits_said))]
fn digits_in(digits: &[u8], radix: u32) -> Option<u32>
    requires least { 2 ≤ radix }
    requires most { radix ≤ 16 }
    ensures { result ≡ digits_said radix digits.now }
{
    if digits.starts_with(b"+") {
        return None;
    }
    let Ok(digits) = str::from_utf8(digits) else {
        return None;
    };
    u32::from_str_radix(digits, radix).ok()
}

/// The number that a word writes, in decimal, or in hexadecimal behind `#` or `0x`.
#[tactic(auto, unfolding(crate::specs::Numbers::natural_said))]
fn natural_of(word: &[u8]) -> Option<u32>
    ensures { result ≡ natural_said word.now }
{
    if word.starts_with(b"#") {
        digits_in(&word[1..], 16)
    } else if word.starts_with(b"0x") {
        digits_in(&word[2..], 16)
    } else {
        digits_in(word, 10)
    }
}

/// The word of 32 bits that a text writes, read as a signed number.
#[tactic(auto, unfolding(crate::specs::Numbers::signed_said))]
pub fn signed_of(word: &[u8]) -> Option<i32>
    ensures { result ≡ signed_said word.now }
{
    if word.starts_with(b"-") {
        i32::try_from(-i64::from(natural_of(&word[1..])?)).ok()
    } else {
        Some(natural_of(word)?.cast_signed())
    }
}

/// The number that a word writes.
#[tactic(auto, unfolding(crate::specs::Statements::number_read))]
pub fn number_of(word: &Word<'_>) -> Result<i32, SourceFault>
    ensures value { result_ok result ≡ signed_said word.now.text.now }
    ensures fault { IfErr result (λ e. e ≡ fault_at word.now fault.NoNumber) }
    ensures read { result ≡ number_read word.now }
{
    signed_of(word.text).ok_or(word.fault(TextFault::NoNumber))
}

/// The number that a word writes, if it is not above a limit.
#[tactic(auto, unfolding(crate::specs::Numbers::count_said, crate::specs::Statements::count_read))]
pub fn count_of(word: &Word<'_>, most: u32) -> Result<u32, SourceFault>
    ensures value { result_ok result ≡ count_said most word.now.text.now }
    ensures most { IfOk result (λ n. n ≤ most) }
    ensures fault { IfErr result (λ e. e ≡ fault_at word.now fault.NoNumber ⊎ e ≡ fault_at word.now fault.OutOfRange) }
    ensures read { result ≡ count_read most word.now }
{
    let n = number_of(word)?.cast_unsigned();
    if n > most {
        Err(word.fault(TextFault::OutOfRange))
    } else {
        Ok(n)
    }
}

/// Whether a word begins as a number does.
pub fn is_number(word: &Word<'_>) -> bool
    ensures { result ≡ begins_number word.now.text.now }
{
    match word.text.first() {
        Some(byte) => byte.is_ascii_digit() || *byte == b'#' || *byte == b'-',
        None => false,
    }
}
