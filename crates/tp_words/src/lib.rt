//! Arithmetic on words: numbers below 2^32, read unsigned as they are and signed in two's complement.
#![tactic(auto, using(crate::proofs::Casts::casts))]

ghost use Rattle.std.specs.Prelude.{◌≡◌, ◌*◌, ◌%◌, ◌/◌, ◌^◌, ◌<◌, ◌||◌, ◌&&◌, ◌+ℤ◌, ◌-ℤ◌, ◌*ℤ◌, pos, negsuc, int_lt};
ghost use Rattle.std.specs.Prelude.{int_div, int_rem, if◌then◌else◌, Some, None};
ghost use Rattle.std.specs.Ordering.{int_eq};
ghost use Rattle.tp_words.specs.Words.{signed, low_word, complement};
ghost use Rattle.tp_words.specs.Numbers.{overflows, words_on, truth, least_integer, minus_one};

/// The low 32 bits of a sum, and whether it overflows, read signed.
#[inline(always)]
pub fn checked_sum(b: u32, a: u32) -> (u32, bool)
    ensures low { result.0 ≡ low_word (signed b +ℤ signed a) }
    ensures flag { result.1 ≡ overflows (signed b +ℤ signed a) }
{
    let (sum, over) = b.cast_signed().overflowing_add(a.cast_signed());
    (sum.cast_unsigned(), over)
}

/// The low 32 bits of a difference, and whether it overflows, read signed.
#[inline(always)]
pub fn checked_difference(b: u32, a: u32) -> (u32, bool)
    ensures low { result.0 ≡ low_word (signed b -ℤ signed a) }
    ensures flag { result.1 ≡ overflows (signed b -ℤ signed a) }
{
    let (difference, over) = b.cast_signed().overflowing_sub(a.cast_signed());
    (difference.cast_unsigned(), over)
}

/// The low 32 bits of a product, and whether it overflows, read signed.
#[inline(always)]
pub fn checked_product(b: u32, a: u32) -> (u32, bool)
    ensures low { result.0 ≡ low_word (signed b *ℤ signed a) }
    ensures flag { result.1 ≡ overflows (signed b *ℤ signed a) }
{
    let (product, over) = b.cast_signed().overflowing_mul(a.cast_signed());
    (product.cast_unsigned(), over)
}

/// The quotient, read signed and toward zero, where there is one.
#[inline(always)]
pub fn quotient(b: u32, a: u32) -> Option<u32>
    ensures { result ≡
        (if int_eq (signed a) (pos 0) || (int_eq (signed b) least_integer && int_eq (signed a) minus_one) then None
        else Some (low_word (int_div (signed b) (signed a)))) }
{
    match b.cast_signed().checked_div(a.cast_signed()) {
        Some(quotient) => Some(quotient.cast_unsigned()),
        None => None,
    }
}

/// The remainder, read signed and with the sign of the dividend, where there is one.
#[inline(always)]
pub fn remainder(b: u32, a: u32) -> Option<u32>
    ensures { result ≡
        (if int_eq (signed a) (pos 0) || (int_eq (signed b) least_integer && int_eq (signed a) minus_one) then None
        else Some (low_word (int_rem (signed b) (signed a)))) }
{
    match b.cast_signed().checked_rem(a.cast_signed()) {
        Some(remainder) => Some(remainder.cast_unsigned()),
        None => None,
    }
}

/// The low 32 bits of a sum of words.
#[inline(always)]
pub fn sum(b: u32, a: u32) -> u32
    ensures { result ≡ low_word (pos b +ℤ pos a) }
{
    b.wrapping_add(a)
}

/// The low 32 bits of a difference of words.
#[inline(always)]
pub fn difference(b: u32, a: u32) -> u32
    ensures { result ≡ low_word (pos b -ℤ pos a) }
{
    b.wrapping_sub(a)
}

/// The address that many words on, wrapped.
#[inline(always)]
pub fn words_on(a: u32, n: u32) -> u32
    ensures { result ≡ words_on a (signed n) }
{
    a.wrapping_add(n.wrapping_mul(4))
}

/// The address that many words on, wrapped, with the number of words read unsigned.
#[inline(always)]
pub fn words_beyond(a: u32, n: u32) -> u32
    ensures { result ≡ words_on a (pos n) }
{
    a.wrapping_add(n.wrapping_mul(4))
}

/// One less, wrapped.
#[inline(always)]
pub fn one_less(a: u32) -> u32
    ensures { result ≡ low_word (signed a -ℤ pos 1) }
{
    a.wrapping_sub(1)
}

/// One more, wrapped.
#[inline(always)]
pub fn one_more(a: u32) -> u32
    ensures { result ≡ low_word (signed a +ℤ pos 1) }
{
    a.wrapping_add(1)
}

/// Every bit turned.
#[inline(always)]
pub fn complement(a: u32) -> u32
    ensures { result ≡ complement a }
{
    !a
}

/// Whether a word is above 0, read signed.
#[inline(always)]
pub fn is_positive(a: u32) -> bool
    ensures { result ≡ int_lt (pos 0) (signed a) }
{
    a.cast_signed() > 0
}

/// Whether a word is below another, both read signed, as a word.
#[inline(always)]
pub fn is_less(a: u32, b: u32) -> u32
    ensures { result ≡ truth (int_lt (signed a) (signed b)) }
{
    u32::from(a.cast_signed() < b.cast_signed())
}

/// Whether two words read signed are equal, as a word.
#[inline(always)]
pub fn is_equal(a: u32, b: u32) -> u32
    ensures { result ≡ truth (int_eq (signed a) (signed b)) }
{
    u32::from(a.cast_signed() == b.cast_signed())
}
