//! Code of expressions.
//!
//! The code of an expression pushes its value. It uses this many registers at most, that of the value among them: what
//! the others hold stays. One register is enough only where the expression needs no more.

ghost use Rattle.std.specs.Prelude.{◌≡◌, ◌≤◌, ℕ, ◌+◌, IfOk, OnOk, IfSome};
ghost use Rattle.tpw_occam_core.specs.declared.expression.Expression.TheVariants as expression;
ghost use Rattle.tpw_occam_expressions.specs.declared.emitter.Fact.{Fact};
ghost use Rattle.tp_words.specs.Words.{complement};
ghost use Rattle.tpw_occam_expressions.specs.Agreement.{with_fact};
ghost use Rattle.tpw_occam_expressions.specs.Values.{Holds};
ghost use Rattle.tpw_occam_expressions.specs.Computing.{Binds, ComputesBinding, Computes, ComputesTo, IsKnown, IsKnownOf};
ghost use Rattle.tpw_occam_expressions.specs.Computing.{IsSuccessor, IsPredecessor, inverse_of, Decides, DecidesUnequal};

use crate::emitter::{Allocation, Emitter, constant, valued};
use crate::operators::{number, truth};
use crate::range::Range;
use crate::subscripts::{checked, fixed_element, indexed_element, offset_element};
use tp_decode::Instr;
use tpw_occam_core::{Expression, Operator};
use tpw_occam_symbolic::{Code, CodeFault, Item, Step};

/// The greatest and the least number.
const MOST_POSITIVE: u32 = 0x7FFF_FFFF;

const MOST_NEGATIVE: u32 = 0x8000_0000;

/// The ranges of a value that was pushed: the numbers that it may be, and those that the verifier knows of.
#[derive(Clone, Copy)]
pub struct Value {
    pub source: Range,
    pub known: Range,
}

impl Value {
    /// The ranges that have all of either.
    fn or(self, other: Value) -> Value
        ensures first { (word : ℕ) → Holds self word → Holds result word }
        ensures second { (word : ℕ) → Holds other word → Holds result word }
    {
        Value {
            source: self.source.or(other.source),
            known: self.known.or(other.known),
        }
    }

    /// Every bit turned.
    fn complement(self) -> Value
        ensures { (word : ℕ) → Holds self word → Holds result (complement word) }
    {
        Value {
            source: self.source.complement(),
            known: self.known.complement(),
        }
    }
}

impl Emitter<'_> {
    /// Pushes the value of an expression.
    #[cycle(expression)]
    pub fn expression(
        &mut self,
        code: &mut Code,
        e: &Expression,
        room: Allocation,
    ) -> Result<Value, CodeFault>
        ensures knowledge { OnOk result (self.new ≡ self.old) }
        ensures computes { OnOk result (Computes self.old code.old code.new e.now room.registers room.next_temporary) }
        ensures known { IfOk result (λ value. IsKnown self.old e.now value) }
    {
        let line = room.line;
        match e {
            Expression::Constant(c) => number(code, line, *c),
            Expression::Variable(x) => self.name(code, line, *x),
            Expression::Element {
                array,
                kind,
                subscript,
            } => {
                if let Some(c) = self.fixed_subscript(*array, *kind, subscript) {
                    return fixed_element(code, line, *array, *kind, c);
                }
                if let Some(offset) = self.offset_subscript(*array, *kind, subscript) {
                    return offset_element(code, line, *array, offset);
                }
                self.subscript(code, subscript, self.elements(*array, *kind), room)?;
                indexed_element(code, line, *array, *kind)
            }
            Expression::Checked { below, subscript } => {
                let value = self.expression(code, subscript, room)?;
                checked(code, line, value, *below)
            }
            Expression::Binary {
                operator,
                left,
                right,
            } => self.binary(code, *operator, left, right, room),
            Expression::Complement(e) => {
                let value = self.expression(code, e, room)?;
                code.instr(line, Instr::BitNot)?;
                Ok(value.complement())
            }
            Expression::Not(e) => self.inverted(code, e, room),
            Expression::LowByte(e) => {
                let value = self.expression(code, e, room)?;
                checked(code, line, value, 256)
            }
            Expression::And(left, right) => {
                self.expression(code, left, room)?;
                let mut more = code.behind_one(self.alloc, line)?;
                let value = self.expression(&mut more, right, room)?;
                code.branch(self.alloc, line, &more)?;
                Ok(value.or(truth()))
            }
            Expression::Or(left, right) => {
                self.inverted(code, left, room)?;
                let mut more = code.behind_one(self.alloc, line)?;
                self.inverted(&mut more, right, room)?;
                code.branch(self.alloc, line, &more)?;
                // where the left operand is TRUE, `cj` has left the 0 of its inverse
                code.instr(line, Instr::Eqc(0))?;
                Ok(truth())
            }
            Expression::Let {
                name,
                value,
                within,
            } => {
                let before = self.fact(*name);
                self.bind(code, *name, value, room)?;
                let value = self.expression(code, within, room)?;
                self.set_fact(*name, before);
                Ok(value)
            }
        }
    }

    /// Pushes the value of a name.
    fn name(&self, code: &mut Code, line: u32, x: usize) -> Result<Value, CodeFault>
        ensures computes { OnOk result ((registers kept : ℕ)
            → Computes self.now code.old code.new (expression.Variable x) registers kept) }
        ensures known { IfOk result (λ value. IsKnown self.now (expression.Variable x) value) }
    {
        let fact = self.fact(x);
        match fact.constant {
            Some(c) => number(code, line, c),
            None => {
                code.emit(line, Step::Load(Item::Variable(x), 0))?;
                Ok(Value {
                    source: fact.source,
                    known: fact.known,
                })
            }
        }
    }

    /// Gives a name the value of an expression. A name of a constant has no word.
    #[cycle(expression)]
    pub fn bind(
        &mut self,
        code: &mut Code,
        x: usize,
        e: &Expression,
        room: Allocation,
    ) -> Result<(), CodeFault>
        ensures kinds { OnOk result (self.new.kinds ≡ self.old.kinds) }
        ensures arrays { OnOk result (self.new.arrays ≡ self.old.arrays) }
        ensures facts { OnOk result ((fact : Fact) × (self.new ≡ with_fact x fact self.old)) }
        ensures knows { OnOk result (Binds self.old self.new x e.now) }
        ensures computes { OnOk result (ComputesBinding self.old self.new code.old code.new x e.now room.registers
            room.next_temporary) }
    {
        if let Some(c) = self.constant_of(e) {
            self.set_fact(x, constant(c));
            return Ok(());
        }
        let value = self.expression(code, e, room)?;
        code.emit(room.line, Step::Store(Item::Variable(x), 0))?;
        self.set_fact(x, valued(value.source));
        Ok(())
    }

    /// One more than the value of an expression that is one constant, if there is such a number.
    fn successor(&self, e: &Expression) -> Option<u32>
        ensures { IfSome result (λ next. IsSuccessor self.now e.now next) }
    {
        match self.constant_of(e) {
            Some(c) if c != MOST_POSITIVE => Some(c.wrapping_add(1)),
            _ => None,
        }
    }

    /// One less than the value of an expression that is one constant, if there is such a number.
    fn predecessor(&self, e: &Expression) -> Option<u32>
        ensures { IfSome result (λ before. IsPredecessor self.now e.now before) }
    {
        match self.constant_of(e) {
            Some(c) if c != MOST_NEGATIVE => Some(c.wrapping_sub(1)),
            _ => None,
        }
    }

    /// Pushes whether an expression is FALSE. Of `x > c` that is `c + 1 > x`, and of `c > x` it is `x > c - 1`.
    #[cycle(expression)]
    fn inverted(
        &mut self,
        code: &mut Code,
        e: &Expression,
        room: Allocation,
    ) -> Result<Value, CodeFault>
        ensures knowledge { OnOk result (self.new ≡ self.old) }
        ensures computes { OnOk result (ComputesTo self.old code.old code.new e.now (inverse_of e.now) room.registers
            room.next_temporary) }
        ensures known { IfOk result (λ value. IsKnownOf self.old e.now (inverse_of e.now) value) }
    {
        if let Expression::Binary {
            operator,
            left,
            right,
        } = e
        {
            if let Operator::Greater = *operator {
                if let Some(next) = self.successor(right) {
                    return self.constant_first(code, Operator::Greater, next, left, room);
                }
                if let Some(before) = self.predecessor(left) {
                    return self.with_constant(code, Operator::Greater, right, before, room);
                }
            }
        }
        if let Expression::Not(e) = e {
            let value = self.expression(code, e, room)?;
            if value.source.is_within(Range::below(2)) {
                return Ok(value);
            }
            code.instr(room.line, Instr::Eqc(0))?;
            code.instr(room.line, Instr::Eqc(0))?;
            return Ok(truth());
        }
        self.expression(code, e, room)?;
        code.instr(room.line, Instr::Eqc(0))?;
        Ok(truth())
    }

    /// Pushes what is 0 exactly where an expression is FALSE.
    pub fn condition(
        &mut self,
        code: &mut Code,
        e: &Expression,
        room: Allocation,
    ) -> Result<(), CodeFault>
        ensures knowledge { OnOk result (self.new ≡ self.old) }
        ensures decides { OnOk result (Decides self.old code.old code.new e.now room.registers room.next_temporary) }
    {
        if let Expression::Not(equal) = e {
            if let Expression::Binary {
                operator,
                left,
                right,
            } = &**equal
            {
                if let Operator::Equal = *operator {
                    return self.difference(code, left, right, room);
                }
            }
        }
        self.expression(code, e, room)?;
        Ok(())
    }

    /// Pushes what is 0 exactly where two operands are equal.
    fn difference(
        &mut self,
        code: &mut Code,
        left: &Expression,
        right: &Expression,
        room: Allocation,
    ) -> Result<(), CodeFault>
        ensures knowledge { OnOk result (self.new ≡ self.old) }
        ensures decides { OnOk result (DecidesUnequal self.old code.old code.new left.now right.now room.registers
            room.next_temporary) }
    {
        if let Some(0) = self.constant_of(right) {
            self.expression(code, left, room)?;
            return Ok(());
        }
        if let Some(0) = self.constant_of(left) {
            self.expression(code, right, room)?;
            return Ok(());
        }
        self.operands(code, left, right, room, true)?;
        code.instr(room.line, Instr::Diff)
    }
}
