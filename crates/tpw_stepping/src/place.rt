//! Places of a run as words of the command line.

ghost use Rattle.std.specs.Prelude.{◌≡◌, ◌≤◌, ◌<◌, ◌^◌, ℕ, MatchOption};
ghost use Rattle.tpw_step.specs.declared.span.Place.{Place};
ghost use Rattle.tpw_step.specs.declared.span.Place.TheVariants.{Address};
ghost use Rattle.tpw_stepping.specs.Places.{Names, Writes};

use tpw_step::Place;

/// The number that digits write, if there are digits alone and it is less than 2^64.
fn number_of(digits: &str, radix: u32) -> Option<u64>
    requires least { 2 ≤ radix }
    requires most { radix ≤ 16 }
    ensures { MatchOption result ((number : ℕ) → number < 2 ^ 64 → Writes radix digits.now number → ⊥)
        (λ number. Writes radix digits.now number) }
{
    if digits.starts_with('+') {
        return None;
    }
    u64::from_str_radix(digits, radix).ok()
}

/// The address that digits write.
fn address_of(digits: &str, radix: u32) -> Option<Place>
    requires least { 2 ≤ radix }
    requires most { radix ≤ 16 }
    ensures { MatchOption result ((address : ℕ) → address < 2 ^ 32 → Writes radix digits.now address → ⊥)
        (λ place. (address : ℕ) × (place ≡ Address address) × (address < 2 ^ 32) × Writes radix digits.now address) }
{
    let number = number_of(digits, radix)?;
    let address = u32::try_from(number).ok()?;
    Some(Place::Address(address))
}

/// The place that a word names: an address, as `36` or `0x24`, or a count of steps, as `+100`.
pub fn place_of(word: &str) -> Option<Place>
    ensures { MatchOption result ((place : Place) → Names word.now place → ⊥) (Names word.now) }
{
    if let Some(steps) = word.strip_prefix('+') {
        let count = number_of(steps, 10)?;
        return Some(Place::Count(count));
    }
    match word.strip_prefix("0x") {
        Some(digits) => address_of(digits, 16),
        None => address_of(word, 10),
    }
}
