//! Code of operators: their operands, in the order that needs the fewest registers.

ghost use Rattle.std.specs.Prelude.{◌≡◌, ◌≤◌, ℕ, false, IfOk, OnOk, IsTrue};
ghost use Rattle.tpw_occam_core.specs.Meaning.{value_of};
ghost use Rattle.tpw_occam_expressions.specs.Ranges.{full};
ghost use Rattle.tpw_occam_expressions.specs.Computing.{ComputesBoth, ComputesTo, ComputesTwo, IsKnownOfBoth, IsKnownOf};
ghost use Rattle.tpw_occam_expressions.specs.Computing.{IsNoShift};
ghost use Rattle.tpw_occam_expressions.specs.Computing.{HasImmediate, IsSimplePair, has_immediate, subscript_value};
ghost use Rattle.tpw_occam_expressions.specs.Computing.{applied_value};
ghost use Rattle.tpw_occam_expressions.specs.Computing.{applied_last, applied_first};

use crate::emitter::{Allocation, Emitter};
use crate::expressions::Value;
use crate::need::{commutes, is_shift};
use crate::operators::{apply, apply_constant, number};
use crate::range::FULL;
use tp_decode::Instr;
use tpw_occam_core::{Expression, Operator};
use tpw_occam_symbolic::{Code, CodeFault, Step};

/// The ranges of a value that was kept in a word: the verifier knows nothing of it.
fn recalled(value: Value) -> Value
    ensures { result ≡ record { source = value.source; known = full } }
{
    Value {
        source: value.source,
        known: FULL,
    }
}

impl Emitter<'_> {
    /// Pushes what an operator makes of two operands.
    #[cycle(expression)]
    pub(crate) fn binary(
        &mut self,
        code: &mut Code,
        operator: Operator,
        left: &Expression,
        right: &Expression,
        room: Allocation,
    ) -> Result<Value, CodeFault>
        ensures knowledge { OnOk result (self.new ≡ self.old) }
        ensures computes { OnOk result ((room.registers ≤ 1 → IsSimplePair self.old operator left.now right.now)
            → ComputesBoth self.old code.old code.new left.now right.now (applied_value operator left.now right.now)
            room.registers room.next_temporary) }
        ensures known { IfOk result (λ value. IsKnownOfBoth self.old left.now right.now (applied_value operator
            left.now right.now) value) }
    {
        if is_shift(operator) {
            let (b, a) = self.shifted(code, left, right, room)?;
            return apply(code, room.line, operator, b, a);
        }
        if self.is_swapped(operator, left, right) {
            self.in_order(code, operator, right, left, room)
        } else {
            self.in_order(code, operator, left, right, room)
        }
    }

    /// Pushes what an operator that is no shift makes of two operands, of which the constant, if there is one, is
    /// last where they commute.
    #[cycle(expression)]
    fn in_order(
        &mut self,
        code: &mut Code,
        operator: Operator,
        left: &Expression,
        right: &Expression,
        room: Allocation,
    ) -> Result<Value, CodeFault>
        ensures knowledge { OnOk result (self.new ≡ self.old) }
        ensures computes { OnOk result (IsNoShift operator → (room.registers ≤ 1
            → HasImmediate self.old operator left.now right.now)
            → ComputesBoth self.old code.old code.new left.now right.now (applied_value operator left.now right.now)
            room.registers room.next_temporary) }
        ensures known { IfOk result (λ value. IsKnownOfBoth self.old left.now right.now (applied_value operator
            left.now right.now) value) }
    {
        if let Some(c) = self.constant_of(right) {
            return self.with_constant(code, operator, left, c, room);
        }
        if let Some(c) = self.constant_of(left) {
            return self.constant_first(code, operator, c, right, room);
        }
        let (b, a) = self.operands(code, left, right, room, commutes(operator))?;
        apply(code, room.line, operator, b, a)
    }

    /// Pushes what an operator makes of an operand and a constant.
    #[cycle(expression)]
    pub(crate) fn with_constant(
        &mut self,
        code: &mut Code,
        operator: Operator,
        left: &Expression,
        c: u32,
        room: Allocation,
    ) -> Result<Value, CodeFault>
        ensures knowledge { OnOk result (self.new ≡ self.old) }
        ensures computes { OnOk result (IsNoShift operator → (room.registers ≤ 1 → IsTrue (has_immediate operator c))
            → ComputesTo self.old code.old code.new left.now (applied_last operator left.now c) room.registers
            room.next_temporary) }
        ensures known { IfOk result (λ value. IsKnownOf self.old left.now (applied_last operator left.now c) value) }
    {
        let b = self.expression(code, left, room)?;
        apply_constant(code, room.line, operator, b, c)
    }

    /// Pushes what an operator makes of a constant and an operand.
    #[cycle(expression)]
    pub(crate) fn constant_first(
        &mut self,
        code: &mut Code,
        operator: Operator,
        c: u32,
        right: &Expression,
        room: Allocation,
    ) -> Result<Value, CodeFault>
        ensures knowledge { OnOk result (self.new ≡ self.old) }
        ensures computes { OnOk result (IsNoShift operator → 2 ≤ room.registers
            → ComputesTo self.old code.old code.new right.now (applied_first operator c right.now) room.registers
            room.next_temporary) }
        ensures known { IfOk result (λ value. IsKnownOf self.old right.now (applied_first operator c right.now) value) }
    {
        if self.need(right) < room.registers {
            let b = number(code, room.line, c)?;
            let a = self.expression(code, right, room.above())?;
            return apply(code, room.line, operator, b, a);
        }
        let a = self.expression(code, right, room)?;
        let b = number(code, room.line, c)?;
        code.instr(room.line, Instr::Rev)?;
        apply(code, room.line, operator, b, a)
    }

    /// Pushes two operands, the right one above the left. Where they commute they may change places.
    #[cycle(expression)]
    pub(crate) fn operands(
        &mut self,
        code: &mut Code,
        left: &Expression,
        right: &Expression,
        room: Allocation,
        commute: bool,
    ) -> Result<(Value, Value), CodeFault>
        ensures knowledge { OnOk result (self.new ≡ self.old) }
        ensures computes { OnOk result (ComputesTwo self.old code.old code.new left.now right.now (value_of left.now)
            (value_of right.now)
            commute room.registers room.next_temporary) }
        ensures left { IfOk result (λ both. IsKnownOf self.old left.now (value_of left.now) both.0) }
        ensures right { IfOk result (λ both. IsKnownOf self.old right.now (value_of right.now) both.1) }
    {
        if self.need(right) < room.registers {
            let b = self.expression(code, left, room)?;
            let a = self.expression(code, right, room.above())?;
            return Ok((b, a));
        }
        if self.need(left) < room.registers {
            let a = self.expression(code, right, room)?;
            let b = self.expression(code, left, room.above())?;
            if !commute {
                code.instr(room.line, Instr::Rev)?;
            }
            return Ok((b, a));
        }
        let a = self.expression(code, right, room)?;
        code.emit(room.line, Step::Store(room.word(), 0))?;
        let b = self.expression(code, left, room.beside()?)?;
        code.emit(room.line, Step::Load(room.word(), 0))?;
        Ok((b, recalled(a)))
    }

    /// Pushes a number and a count that is a subscript of 32, the count above the number. A count goes through no
    /// word, since the verifier would know nothing of it then.
    #[cycle(expression)]
    fn shifted(
        &mut self,
        code: &mut Code,
        left: &Expression,
        count: &Expression,
        room: Allocation,
    ) -> Result<(Value, Value), CodeFault>
        ensures knowledge { OnOk result (self.new ≡ self.old) }
        ensures computes { OnOk result (ComputesTwo self.old code.old code.new left.now count.now (value_of left.now)
            (subscript_value count.now 32) false room.registers room.next_temporary) }
        ensures left { IfOk result (λ both. IsKnownOf self.old left.now (value_of left.now) both.0) }
        ensures count { IfOk result (λ both. IsKnownOf self.old count.now (subscript_value count.now 32) both.1) }
    {
        if self.need_of_count(count) < room.registers {
            let b = self.expression(code, left, room)?;
            let a = self.subscript(code, count, 32, room.above())?;
            return Ok((b, a));
        }
        if self.need(left) < room.registers {
            let a = self.subscript(code, count, 32, room)?;
            let b = self.expression(code, left, room.above())?;
            code.instr(room.line, Instr::Rev)?;
            return Ok((b, a));
        }
        let b = self.expression(code, left, room)?;
        code.emit(room.line, Step::Store(room.word(), 0))?;
        let a = self.subscript(code, count, 32, room.beside()?)?;
        code.emit(room.line, Step::Load(room.word(), 0))?;
        code.instr(room.line, Instr::Rev)?;
        Ok((recalled(b), a))
    }
}
