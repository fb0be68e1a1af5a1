//! How many registers an expression needs, where nothing is kept in the workspace (Sethi and Ullman).

ghost use Rattle.std.specs.Prelude.{◌≡◌, ◌≤◌, ◌⊎◌, ◌&&◌, false, IsTrue, is_some};
ghost use Rattle.std.specs.Option.{option_map};
ghost use Rattle.tp_words.specs.Words.{signed};
ghost use Rattle.tpw_occam_expressions.specs.Agreement.{constant_in};
ghost use Rattle.tpw_occam_core.specs.declared.expression.Operator.TheVariants.{ShiftLeft, ShiftRight};
ghost use Rattle.tpw_occam_expressions.specs.Computing.{IsNoShift, immediate_of, is_immediate, is_simple, is_swapped};
ghost use Rattle.tpw_occam_expressions.specs.Computing.{IsConstantBelow};
ghost use Rattle.tpw_occam_expressions.specs.Computing.{commutes as commute};

use crate::emitter::Emitter;
use tpw_occam_core::{Expression, Operator};
use tpw_occam_symbolic::is_short;

/// Of two operands one is evaluated first, and then stays in a register.
fn both(left: u32, right: u32) -> u32
    ensures { 2 ≤ result }
{
    if left == right {
        left.saturating_add(1).max(2)
    } else {
        left.max(right).max(2)
    }
}

/// Whether an operand may change places with the other.
pub(crate) fn commutes(operator: Operator) -> bool
    ensures { result ≡ commute operator }
{
    match operator {
        Operator::Add
        | Operator::Multiply
        | Operator::Plus
        | Operator::Times
        | Operator::BitAnd
        | Operator::BitOr
        | Operator::BitXor
        | Operator::Equal => true,
        _ => false,
    }
}

pub(crate) fn is_shift(operator: Operator) -> bool
    ensures yes { IsTrue result → (operator ≡ ShiftLeft) ⊎ (operator ≡ ShiftRight) }
    ensures not { result ≡ false → IsNoShift operator }
{
    operator == Operator::ShiftLeft || operator == Operator::ShiftRight
}

/// The operand of `adc` or `eqc` that works out an operator with this right operand.
pub(crate) fn immediate(operator: Operator, c: u32) -> Option<i32>
    ensures { result ≡ option_map signed (immediate_of operator c) }
{
    let operand = match operator {
        Operator::Add | Operator::Plus | Operator::Equal => c,
        Operator::Subtract | Operator::Minus => c.wrapping_neg(),
        _ => return None,
    };
    // there is no number that is taken away by adding the least one
    if !is_short(operand) || operand == 0x8000_0000 {
        return None;
    }
    Some(operand.cast_signed())
}

impl Emitter<'_> {
    /// How many registers an expression needs.
    #[cycle(need)]
    pub fn need(&self, e: &Expression) -> u32
        ensures least { 1 ≤ result }
        ensures simple { result ≤ 1 → IsTrue (is_simple self.now e.now) }
    {
        match e {
            Expression::Constant(_) | Expression::Variable(_) => 1,
            Expression::Element {
                array: _,
                kind: _,
                subscript,
            } => self.need(subscript).max(2),
            Expression::Checked {
                below: _,
                subscript,
            } => self.need(subscript).max(2),
            Expression::LowByte(e) => self.need(e).max(2),
            Expression::Complement(e) | Expression::Not(e) => self.need(e),
            Expression::And(left, right) | Expression::Or(left, right) => {
                self.need(left).max(self.need(right))
            }
            Expression::Let {
                name: _,
                value,
                within,
            } => self.need(value).max(self.need(within)).max(2),
            Expression::Binary {
                operator,
                left,
                right,
            } => {
                if self.is_swapped(*operator, left, right) {
                    self.need_of_operands(*operator, right, left)
                } else {
                    self.need_of_operands(*operator, left, right)
                }
            }
        }
    }

    /// How many registers an operator needs.
    #[cycle(need)]
    fn need_of_operands(&self, operator: Operator, left: &Expression, right: &Expression) -> u32
        ensures least { 1 ≤ result }
        ensures simple { result ≤ 1 → IsTrue (is_immediate self.now operator right.now && is_simple self.now left.now) }
    {
        if self.is_immediate(operator, right) {
            self.need(left)
        } else if is_shift(operator) {
            both(self.need(left), self.need_of_count(right))
        } else {
            both(self.need(left), self.need(right))
        }
    }

    /// How many registers a shift's count needs, which may have to be checked.
    #[cycle(need)]
    pub(crate) fn need_of_count(&self, count: &Expression) -> u32
        ensures least { 1 ≤ result }
        ensures constant { result ≤ 1 → IsConstantBelow self.now count.now 32 }
    {
        match self.constant_of(count) {
            Some(c) if c < 32 => 1,
            _ => self.need(count).max(2),
        }
    }

    /// Whether an operator with this right operand is an instruction with an operand, whatever the left one is.
    pub(crate) fn is_immediate(&self, operator: Operator, right: &Expression) -> bool
        ensures { result ≡ is_immediate self.now operator right.now }
    {
        match operator {
            Operator::Plus | Operator::Minus => false,
            _ => match self.constant_of(right) {
                Some(c) => immediate(operator, c).is_some(),
                None => false,
            },
        }
    }

    /// Whether the operands of an operator change places: where they commute a constant is last, that which is the
    /// operand of an instruction if only one is.
    pub(crate) fn is_swapped(
        &self,
        operator: Operator,
        left: &Expression,
        right: &Expression,
    ) -> bool
        ensures { result ≡ is_swapped self.now operator left.now right.now }
    {
        commutes(operator)
            && self.constant_of(left).is_some()
            && !self.is_immediate(operator, right)
            && (self.constant_of(right).is_none() || self.is_immediate(operator, left))
    }
}
