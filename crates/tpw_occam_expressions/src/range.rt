//! Ranges of numbers: what is known of a value from the text, and what the verifier knows of a register.
//!
//! The verifier's rules say what is known of a result (`tp_state/specs/Rules.antt`). The same holds of values, so one
//! function serves both.

ghost use Rattle.std.specs.Prelude.{◌≡◌, ◌≢◌, ℕ, ◌<◌, ◌≤◌, ◌^◌, ◌↔◌, IsTrue, IfSome, FitsSigned};
ghost use Rattle.std.specs.Prelude.{pos, negsuc, ◌≤ℤ◌, ◌+ℤ◌, ◌-ℤ◌, ◌*ℤ◌};
ghost use Rattle.std.specs.Int.{w32, int_min, int_max};
ghost use Rattle.tp_words.specs.Words.{signed, complement};
ghost use Rattle.tpw_occam_expressions.specs.Ranges.{from_to, full, between, hull, Contains, ContainsAllOf, ContainsResults};
ghost use Rattle.tpw_occam_expressions.specs.Ranges.{AreWords, AlwaysFits, TwinsAgree};

use tpw_occam_core::Operator;

/// The numbers from `low` to `high`, both among them.
#[derive(Clone, Copy, PartialEq, Eq)]
pub struct Range {
    pub low: i32,
    pub high: i32,
}

/// Any number.
pub const FULL: Range = Range {
    low: i32::MIN,
    high: i32::MAX,
};

/// The numbers of a byte.
pub(crate) const BYTE: Range = Range { low: 0, high: 255 };

/// FALSE and TRUE.
const TRUTH: Range = Range { low: 0, high: 1 };

impl Range {
    /// One word, read signed.
    pub(crate) fn exactly(word: u32) -> Range
        ensures ends { result ≡ from_to (signed word) (signed word) }
        ensures contains { Contains result word }
    {
        let number = word.cast_signed();
        Range {
            low: number,
            high: number,
        }
    }

    /// From one number to another, or any number where one of these is no word.
    #[tactic(auto, unfolding(crate::specs::Ranges::between))]
    pub fn between(low: i64, high: i64) -> Range
        ensures value { result ≡ between low high }
        ensures ends { FitsSigned w32 low → FitsSigned w32 high → result ≡ from_to low high }
        ensures contains { (word : ℕ) → word < 2 ^ 32
            → low ≤ℤ signed word → signed word ≤ℤ high → Contains result word }
    {
        match (i32::try_from(low), i32::try_from(high)) {
            (Ok(low), Ok(high)) => Range { low, high },
            _ => FULL,
        }
    }

    /// The subscripts of this many elements.
    pub(crate) fn below(size: u32) -> Range
        ensures within { 0 < size → size ≤ 2 ^ 31 → (word : ℕ) → word < 2 ^ 32 → Contains result word → word < size }
        ensures contains { 0 < size → size ≤ 2 ^ 31 → (word : ℕ) → word < size → Contains result word }
    {
        Range::between(0, i64::from(size) - 1)
    }

    pub(crate) fn is_within(self, other: Range) -> bool
        ensures ends { IsTrue result ↔ ((other.low ≤ℤ self.low) × (self.high ≤ℤ other.high)) }
        ensures contains { IsTrue result → ContainsAllOf other self }
    {
        other.low <= self.low && self.high <= other.high
    }

    /// The range that has all of either.
    pub(crate) fn or(self, other: Range) -> Range
        ensures ends { result ≡ from_to (int_min self.low other.low) (int_max self.high other.high) }
        ensures first { ContainsAllOf result self }
        ensures second { ContainsAllOf result other }
    {
        Range {
            low: self.low.min(other.low),
            high: self.high.max(other.high),
        }
    }

    /// Every bit turned.
    pub(crate) fn complement(self) -> Range
        ensures ends { result ≡ from_to (negsuc 0 -ℤ self.high) (negsuc 0 -ℤ self.low) }
        ensures contains { (word : ℕ) → word < 2 ^ 32 → Contains self word → Contains result (complement word) }
    {
        Range {
            low: !self.high,
            high: !self.low,
        }
    }
}

fn sums(b: Range, a: Range) -> Range
    ensures checked { ContainsResults Operator.Add b a result }
    ensures wrapped { ContainsResults Operator.Plus b a result }
    ensures fits { result ≢ full → AreWords ◌+ℤ◌ b a }
{
    Range::between(
        i64::from(b.low) + i64::from(a.low),
        i64::from(b.high) + i64::from(a.high),
    )
}

fn differences(b: Range, a: Range) -> Range
    ensures checked { ContainsResults Operator.Subtract b a result }
    ensures wrapped { ContainsResults Operator.Minus b a result }
    ensures fits { result ≢ full → AreWords ◌-ℤ◌ b a }
{
    Range::between(
        i64::from(b.low) - i64::from(a.high),
        i64::from(b.high) - i64::from(a.low),
    )
}

/// The least range that has four numbers, or any number where one of them is no word.
fn hull(a: i64, b: i64, c: i64, d: i64) -> Range
    ensures { result ≡ hull a b c d }
{
    Range::between(a.min(b).min(c.min(d)), a.max(b).max(c.max(d)))
}

fn product(b: i32, a: i32) -> i64
    ensures { result ≡ b *ℤ a }
{
    i64::from(b) * i64::from(a)
}

fn products(b: Range, a: Range) -> Range
    ensures checked { ContainsResults Operator.Multiply b a result }
    ensures wrapped { ContainsResults Operator.Times b a result }
    ensures fits { result ≢ full → AreWords ◌*ℤ◌ b a }
{
    hull(
        product(b.low, a.low),
        product(b.low, a.high),
        product(b.high, a.low),
        product(b.high, a.high),
    )
}

/// Whether it is one number above 0.
fn is_positive(a: Range) -> bool
    ensures { IsTrue result ↔ ((a.low ≡ a.high) × (pos 1 ≤ℤ a.low)) }
{
    a.low == a.high && a.low > 0
}

/// By one divisor above 0.
fn quotients(b: Range, a: Range) -> Range
    ensures { ContainsResults Operator.Divide b a result }
{
    if is_positive(a) {
        Range {
            low: b.low / a.low,
            high: b.high / a.low,
        }
    } else {
        FULL
    }
}

/// By one divisor above 0: with the dividend's sign.
fn remainders(b: Range, a: Range) -> Range
    ensures { ContainsResults Operator.Remainder b a result }
{
    if !is_positive(a) {
        FULL
    } else if b.low >= 0 {
        Range {
            low: 0,
            high: a.low - 1,
        }
    } else {
        Range {
            low: 1 - a.low,
            high: a.low - 1,
        }
    }
}

/// No more than an operand that is never below 0.
fn conjunctions(b: Range, a: Range) -> Range
    ensures { ContainsResults Operator.BitAnd b a result }
{
    match (b.low >= 0, a.low >= 0) {
        (true, true) => Range {
            low: 0,
            high: b.high.min(a.high),
        },
        (true, false) => Range {
            low: 0,
            high: b.high,
        },
        (false, true) => Range {
            low: 0,
            high: a.high,
        },
        (false, false) => FULL,
    }
}

/// A count of a shift, from 0 to 31.
fn count_of(n: i32) -> Option<u32>
    ensures { IfSome result (λ count. (n ≡ pos count) × (count < 32)) }
{
    u32::try_from(n).ok().filter(|count| *count < 32)
}

/// 2 to the count of a shift.
fn power(count: u32) -> i64
    ensures value { count < 32 → result ≡ pos (2 ^ count) }
    ensures low { pos 0 ≤ℤ result }
    ensures high { result ≤ℤ pos (2 ^ 32) }
{
    i64::from(1u32.wrapping_shl(count))
}

/// A number shifted up.
fn raised(n: i32, count: u32) -> i64
    ensures { count < 32 → result ≡ n *ℤ pos (2 ^ count) }
{
    i64::from(n) * power(count)
}

/// A number that is never below 0, shifted up by one count.
fn shifted_left(b: Range, a: Range) -> Range
    ensures { ContainsResults Operator.ShiftLeft b a result }
{
    match count_of(a.low) {
        Some(count) if a.low == a.high && b.low >= 0 => {
            Range::between(raised(b.low, count), raised(b.high, count))
        }
        _ => FULL,
    }
}

/// Shifted down; a number below 0 is a large one without its sign.
fn shifted_right(b: Range, a: Range) -> Range
    ensures { ContainsResults Operator.ShiftRight b a result }
{
    let (Some(low), Some(high)) = (count_of(a.low), count_of(a.high)) else {
        return FULL;
    };
    if b.low >= 0 {
        Range {
            low: b.low >> high,
            high: b.high >> low,
        }
    } else if low > 0 {
        Range::between(0, i64::from(u32::MAX >> low))
    } else {
        FULL
    }
}

/// The range of an operator's results on two operands.
pub(crate) fn result_range(operator: Operator, b: Range, a: Range) -> Range
    ensures contains { ContainsResults operator b a result }
    ensures fits { result ≢ full → AlwaysFits operator b a }
{
    match operator {
        Operator::Add | Operator::Plus => sums(b, a),
        Operator::Subtract | Operator::Minus => differences(b, a),
        Operator::Multiply | Operator::Times => products(b, a),
        Operator::Divide => quotients(b, a),
        Operator::Remainder => remainders(b, a),
        Operator::BitAnd => conjunctions(b, a),
        Operator::BitOr | Operator::BitXor => FULL,
        Operator::ShiftLeft => shifted_left(b, a),
        Operator::ShiftRight => shifted_right(b, a),
        Operator::Equal | Operator::Greater => TRUTH,
    }
}

/// Whether the whole number of a sum, a difference or a product is always a word. Where it need not be, the range is
/// full; a sum that has every word as its value is taken for one that need not be.
pub(crate) fn always_fits(operator: Operator, b: Range, a: Range) -> bool
    ensures fits { IsTrue result → AlwaysFits operator b a }
    ensures twins { IsTrue result → TwinsAgree operator b a }
{
    result_range(operator, b, a) != FULL
}
