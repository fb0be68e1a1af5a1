//! Operators, as they are spelled.

use tpw_occam_terms::Primitive;

/// An operator of one operand.
#[derive(Clone, Copy, PartialEq, Eq)]
pub enum Monadic {
    /// `-`
    Negate,
    /// `MINUS`
    Minus,
    /// `~`
    Complement,
    /// `BITNOT`
    BitNot,
    /// `NOT`
    Not,
    /// `SIZE`
    Size,
    /// `INT`, `BOOL` or `BYTE`, in front of a value of another type.
    Convert(Primitive),
}

/// An operator of two operands.
#[derive(Clone, Copy, PartialEq, Eq)]
pub enum Dyadic {
    /// `+`
    Add,
    /// `-`
    Subtract,
    /// `*`
    Multiply,
    /// `/`
    Divide,
    /// `\`
    Remainder,
    /// `REM`
    Rem,
    /// `PLUS`
    Plus,
    /// `MINUS`
    Minus,
    /// `TIMES`
    Times,
    /// `/\`
    Conjunction,
    /// `BITAND`
    BitAnd,
    /// `\/`
    Disjunction,
    /// `BITOR`
    BitOr,
    /// `><`
    ExclusiveOr,
    /// `<<`
    ShiftLeft,
    /// `>>`
    ShiftRight,
    /// `=`
    Equal,
    /// `<>`
    NotEqual,
    /// `<`
    Less,
    /// `>`
    Greater,
    /// `<=`
    AtMost,
    /// `>=`
    AtLeast,
    /// `AFTER`
    After,
    /// `AND`
    And,
    /// `OR`
    Or,
}
