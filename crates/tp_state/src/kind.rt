//! Abstract values of registers.

ghost use Rattle.std.specs.Prelude.{◌≡◌, ◌<◌, ◌^◌, IfOk};
ghost use Rattle.tp_state.specs.Order.{kind_below, join_kinds};
ghost use Rattle.tp_state.specs.Kinds.{known, number, pointer, one_word, byte_pointer, is_exactly, points_at};
ghost use Rattle.tp_state.specs.Kinds.{HasWordEnds};

use crate::cell::Cell;
use crate::fault::StateCode;

/// The abstract value of a register.
#[derive(Clone, Copy, Debug, PartialEq, Eq)]
pub enum Kind {
    /// Nothing: it may be undefined.
    Undef,
    /// A number in a range, both ends counted, read signed.
    Int(i32, i32),
    /// The address of a workspace word, by the word's number, in a range, both ends counted.
    Ptr(u32, u32),
    /// The address of a workspace byte, by the byte's number, in a range, both ends counted.
    BytePtr(u32, u32),
}

impl Kind {
    ghost use Rattle.tp_state.specs.CellRules.{written};

    /// The abstract value of a word that takes the register's.
    pub fn written(self) -> Cell
        ensures { result ≡ written self }
    {
        match self {
            Kind::Undef => Cell::Undef,
            Kind::Int(low, high) if low == high => Cell::Known(low),
            _ => Cell::Any,
        }
    }

    /// The range of a byte's address. A word's address is that of its first byte.
    #[tactic(auto, unfolding(crate::specs::Kinds::byte_pointer))]
    pub(crate) fn byte_pointer(self) -> Result<(u64, u64), StateCode>
        ensures value { result ≡ byte_pointer self }
        ensures first { IfOk result (λ p. p.0 < 2 ^ 34) }
        ensures last { IfOk result (λ p. p.1 < 2 ^ 34) }
    {
        match self {
            Kind::Ptr(first, last) => Ok((4 * u64::from(first), 4 * u64::from(last))),
            Kind::BytePtr(first, last) => Ok((u64::from(first), u64::from(last))),
            _ => Err(StateCode::S2),
        }
    }

    /// Something that an instruction may read.
    #[tactic(auto, unfolding(crate::specs::Kinds::known))]
    pub(crate) fn known(self) -> Result<Kind, StateCode>
        ensures { result ≡ known self }
    {
        match self {
            Kind::Undef => Err(StateCode::S1),
            kind => Ok(kind),
        }
    }

    /// The range of a number.
    #[tactic(auto, unfolding(crate::specs::Kinds::number))]
    pub(crate) fn number(self) -> Result<(i32, i32), StateCode>
        ensures { result ≡ number self }
    {
        match self {
            Kind::Int(low, high) => Ok((low, high)),
            _ => Err(StateCode::S2),
        }
    }

    /// The range of a word's address.
    #[tactic(auto, unfolding(crate::specs::Kinds::pointer))]
    pub(crate) fn pointer(self) -> Result<(u32, u32), StateCode>
        ensures { result ≡ pointer self }
    {
        match self {
            Kind::Ptr(first, last) => Ok((first, last)),
            _ => Err(StateCode::S2),
        }
    }

    /// The address of one word.
    #[tactic(auto, unfolding(crate::specs::Kinds::one_word))]
    pub(crate) fn one_word(self) -> Result<u32, StateCode>
        ensures { result ≡ one_word self }
    {
        match self {
            Kind::Ptr(first, last) if first == last => Ok(first),
            _ => Err(StateCode::S2),
        }
    }

    /// Whether it is one number, this one.
    pub(crate) fn is_exactly(self, n: i32) -> bool
        ensures { result ≡ is_exactly n self }
    {
        match self {
            Kind::Int(low, high) => low == n && high == n,
            _ => false,
        }
    }

    /// Whether it is the address of one word, this one.
    pub(crate) fn points_at(self, x: u32) -> bool
        ensures { result ≡ points_at x self }
    {
        match self {
            Kind::Ptr(first, last) => first == x && last == x,
            _ => false,
        }
    }

    /// A law: the ends of its range are words.
    pub(crate) fn law_has_word_ends(self)
        ensures { HasWordEnds self }
    {
        match self {
            Kind::Undef => {}
            Kind::Int(_low, _high) => {}
            Kind::Ptr(_first, _last) => {}
            Kind::BytePtr(_first, _last) => {}
        }
    }

    /// The join: the least range that has two of one form.
    pub fn join(self, other: Kind) -> Kind
        ensures { result ≡ join_kinds self other }
    {
        match (self, other) {
            (Kind::Int(a, b), Kind::Int(c, d)) => Kind::Int(a.min(c), b.max(d)),
            (Kind::Ptr(p, q), Kind::Ptr(r, s)) => Kind::Ptr(p.min(r), q.max(s)),
            (Kind::BytePtr(p, q), Kind::BytePtr(r, s)) => Kind::BytePtr(p.min(r), q.max(s)),
            _ => Kind::Undef,
        }
    }

    /// Whether it is below the other: its range lies within the other's, or the other says nothing.
    pub fn is_below(self, other: Kind) -> bool
        ensures { result ≡ kind_below self other }
    {
        match (self, other) {
            (_, Kind::Undef) => true,
            (Kind::Int(a, b), Kind::Int(c, d)) => c <= a && b <= d,
            (Kind::Ptr(p, q), Kind::Ptr(r, s)) => r <= p && q <= s,
            (Kind::BytePtr(p, q), Kind::BytePtr(r, s)) => r <= p && q <= s,
            _ => false,
        }
    }
}
