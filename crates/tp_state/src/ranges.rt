//! Ranges of numbers, and what operations make of them.

ghost use Rattle.std.specs.Prelude.{◌≡◌, ◌+ℤ◌, ◌≤ℤ◌, pos, ◌^◌, ◌*ℤ◌, ◌-ℤ◌, int_div, IsTrue};
ghost use Rattle.tp_state.specs.Kinds.{range, hull, at_ends};
ghost use Rattle.tp_state.specs.Rules.{sum_of, difference, product, quotients, remainders, conjunctions, is_positive};
ghost use Rattle.tp_state.specs.Rules.{is_shift_count, are_shift_counts, power, shifted_up, shifted_down};

use crate::kind::Kind;

/// Any number.
pub(crate) const FULL: Kind = Kind::Int(i32::MIN, i32::MAX);

/// A range of whole numbers, and any number where an end is none of a word's.
#[tactic(auto, unfolding(crate::specs::Kinds::range))]
pub(crate) fn range(low: i64, high: i64) -> Kind
    ensures { result ≡ range low high }
{
    match (i32::try_from(low), i32::try_from(high)) {
        (Ok(low), Ok(high)) => Kind::Int(low, high),
        _ => FULL,
    }
}

/// The least range that has four numbers.
#[tactic(auto, using(tp_words::proofs::Casts::casts), unfolding(crate::specs::Kinds::hull))]
fn hull(a: i64, b: i64, c: i64, d: i64) -> Kind
    ensures { result ≡ hull a b c d }
{
    range(a.min(b).min(c.min(d)), a.max(b).max(c.max(d)))
}

/// Sums of two numbers, as those at the ends of their ranges.
#[tactic(auto, using(tp_words::proofs::Casts::casts))]
pub(crate) fn sums(b: (i32, i32), a: (i32, i32)) -> Kind
    ensures { result ≡ at_ends sum_of b a }
{
    let (b0, b1) = (i64::from(b.0), i64::from(b.1));
    let (a0, a1) = (i64::from(a.0), i64::from(a.1));
    hull(b0 + a0, b0 + a1, b1 + a0, b1 + a1)
}

/// A sum.
fn plus(a: i32, n: i32) -> i64
    ensures { result ≡ a +ℤ n }
{
    i64::from(a) + i64::from(n)
}

/// Sums of a number and one number.
pub(crate) fn raised(a: (i32, i32), n: i32) -> Kind
    ensures { result ≡ range (a.0 +ℤ n) (a.1 +ℤ n) }
{
    range(plus(a.0, n), plus(a.1, n))
}

/// Differences of two numbers, likewise.
#[tactic(auto, using(tp_words::proofs::Casts::casts))]
pub(crate) fn differences(b: (i32, i32), a: (i32, i32)) -> Kind
    ensures { result ≡ at_ends difference b a }
{
    let (b0, b1) = (i64::from(b.0), i64::from(b.1));
    let (a0, a1) = (i64::from(a.0), i64::from(a.1));
    hull(b0 - a0, b0 - a1, b1 - a0, b1 - a1)
}

/// A product.
fn product(b: i32, a: i32) -> i64
    ensures { result ≡ product b a }
{
    i64::from(b) * i64::from(a)
}

/// Products of two numbers, likewise.
pub(crate) fn products(b: (i32, i32), a: (i32, i32)) -> Kind
    ensures { result ≡ at_ends product b a }
{
    hull(
        product(b.0, a.0),
        product(b.0, a.1),
        product(b.1, a.0),
        product(b.1, a.1),
    )
}

/// Whether it is one number above 0.
fn is_positive(a: (i32, i32)) -> bool
    ensures { result ≡ is_positive a }
{
    a.0 == a.1 && 0 < a.0
}

/// Quotients by one divisor above 0; any number by another.
#[tactic(auto, using(tp_words::proofs::Casts::casts))]
pub(crate) fn quotients(b: (i32, i32), a: (i32, i32)) -> Kind
    ensures { result ≡ quotients b a }
{
    if is_positive(a) {
        Kind::Int(b.0 / a.0, b.1 / a.0)
    } else {
        FULL
    }
}

/// Remainders by one divisor above 0; any number by another.
pub(crate) fn remainders(b: (i32, i32), a: (i32, i32)) -> Kind
    ensures { result ≡ remainders b a }
{
    if !is_positive(a) {
        FULL
    } else if 0 <= b.0 {
        Kind::Int(0, a.0 - 1)
    } else {
        Kind::Int(1 - a.0, a.0 - 1)
    }
}

/// The bits that two numbers have in common.
pub(crate) fn conjunctions(b: (i32, i32), a: (i32, i32)) -> Kind
    ensures { result ≡ conjunctions b a }
{
    match (0 <= b.0, 0 <= a.0) {
        (true, true) => Kind::Int(0, if b.1 < a.1 { b.1 } else { a.1 }),
        (false, true) => Kind::Int(0, a.1),
        (true, false) => Kind::Int(0, b.1),
        (false, false) => FULL,
    }
}

/// Whether it is 0 to 31.
fn is_shift_count(n: i32) -> bool
    ensures { result ≡ is_shift_count n }
{
    0 <= n && n <= 31
}

/// Whether all of them are 0 to 31.
pub(crate) fn are_shift_counts(a: (i32, i32)) -> bool
    ensures { result ≡ are_shift_counts a }
{
    is_shift_count(a.0) && is_shift_count(a.1)
}

/// 2 to a number.
fn power(n: i32) -> i64
    requires low { pos 0 ≤ℤ n }
    requires high { n ≤ℤ pos 32 }
    ensures value { result ≡ power n }
    ensures low { pos 1 ≤ℤ result }
    ensures high { result ≤ℤ pos (2 ^ 32) }
{
    2i64.pow(n as u32)
}

/// A number shifted up.
fn up(n: i32, count: i32) -> i64
    requires { IsTrue (is_shift_count count) }
    ensures { result ≡ n *ℤ power count }
{
    i64::from(n) * power(count)
}

/// A number that is not below 0 shifted down; of another its quotient, toward zero.
fn down(n: i32, count: i32) -> i32
    requires { IsTrue (is_shift_count count) }
    ensures { result ≡ int_div n (power count) }
{
    (i64::from(n) / power(count)) as i32
}

/// The greatest number that is left of any by shifting it down.
fn most_left(count: i32) -> i32
    requires some { pos 1 ≤ℤ count }
    requires few { IsTrue (is_shift_count count) }
    ensures { result ≡ power (pos 32 -ℤ count) -ℤ pos 1 }
{
    (power(32 - count) - 1) as i32
}

/// Numbers that are never below 0, shifted up by one count; any number otherwise.
pub(crate) fn shifted_up(b: (i32, i32), a: (i32, i32)) -> Kind
    requires { IsTrue (are_shift_counts a) }
    ensures { result ≡ shifted_up b a }
{
    if a.0 == a.1 && 0 <= b.0 {
        range(up(b.0, a.0), up(b.1, a.0))
    } else {
        FULL
    }
}

/// Numbers shifted down.
pub(crate) fn shifted_down(b: (i32, i32), a: (i32, i32)) -> Kind
    requires { IsTrue (are_shift_counts a) }
    ensures { result ≡ shifted_down b a }
{
    if 0 <= b.0 {
        Kind::Int(down(b.0, a.1), down(b.1, a.0))
    } else if 1 <= a.0 {
        Kind::Int(0, most_left(a.0))
    } else {
        FULL
    }
}
