//! Operators on registers.

ghost use Rattle.std.specs.Prelude.{◌≡◌, ℕ, ◌<◌, ◌^◌, Some, false, true, IfOk, IfSome, IfNone, OnOk, IsTrue};
ghost use Rattle.tpw_occam_core.specs.Arithmetic.{applied};
ghost use Rattle.tpw_occam_symbolic.specs.Symbolic.{push, number, pair_answer};
ghost use Rattle.tpw_occam_expressions.specs.Ranges.{TwinsAgree};
ghost use Rattle.tpw_occam_symbolic.specs.Leading.{Makes, HasConstants};
ghost use Rattle.tpw_occam_expressions.specs.Computing.{IsNoShift, has_immediate, commutes};
ghost use Rattle.tpw_occam_expressions.specs.Values.{Answers, WorksOn, Holds, HasOperands, HasCount, answered, working};
ghost use Rattle.tpw_occam_expressions.specs.Values.{AreTwins};
ghost use Rattle.tpw_occam_symbolic.specs.Flowing.{is_straight_instr};

use crate::expressions::Value;
use crate::need::immediate;
use crate::range::{Range, always_fits, result_range};
use tp_decode::Instr;
use tpw_occam_core::Operator;
use tpw_occam_symbolic::{Code, CodeFault};

/// The ranges of one number.
fn exactly(c: u32) -> Value
    ensures { Holds result c }
{
    let range = Range::exactly(c);
    Value {
        source: range,
        known: range,
    }
}

/// The ranges of FALSE or TRUE.
pub(crate) fn truth() -> Value
    ensures { (word : ℕ) → word < 2 → Holds result word }
{
    let range = Range::below(2);
    Value {
        source: range,
        known: range,
    }
}

/// Pushes a constant.
pub(crate) fn number(code: &mut Code, line: u32, c: u32) -> Result<Value, CodeFault>
    ensures makes { OnOk result (Makes code.old code.new HasConstants (push (number c))) }
    ensures holds { IfOk result (λ value. Holds value c) }
{
    code.constant(line, c)?;
    Ok(exactly(c))
}

/// The instruction that works out an operator on Breg and Areg.
fn instr_of(operator: Operator, fits: bool) -> Instr
    ensures works { (b a : ℕ) → (IsTrue fits → AreTwins operator b a) → HasCount operator a
        → pair_answer result b a ≡ Some (applied (working operator) b a) }
    ensures straight { IsTrue (is_straight_instr result) }
{
    match operator {
        Operator::Add => Instr::Add,
        Operator::Plus if fits => Instr::Add,
        Operator::Plus => Instr::Sum,
        Operator::Subtract => Instr::Sub,
        Operator::Minus | Operator::Equal => Instr::Diff,
        Operator::Multiply if fits => Instr::Prod,
        Operator::Multiply => Instr::Mul,
        Operator::Times => Instr::Prod,
        Operator::Divide => Instr::Div,
        Operator::Remainder => Instr::Rem,
        Operator::BitAnd => Instr::BitAnd,
        Operator::BitOr => Instr::BitOr,
        Operator::BitXor => Instr::BitXor,
        Operator::ShiftLeft => Instr::Shl,
        Operator::ShiftRight => Instr::Shr,
        Operator::Greater => Instr::Gt,
    }
}

/// The ranges of an operator's result on two values.
fn result_value(operator: Operator, b: Value, a: Value) -> Value
    ensures { (vb va : ℕ) → Holds b vb → Holds a va → Holds result (applied operator vb va).word }
{
    Value {
        source: result_range(operator, b.source, a.source),
        known: result_range(operator, b.known, a.known),
    }
}

/// Works out an operator on Breg and Areg, whose result always fits or need not.
fn work_out(code: &mut Code, line: u32, operator: Operator, fits: bool) -> Result<(), CodeFault>
    ensures { OnOk result ((b a : ℕ) → b < 2 ^ 32 → a < 2 ^ 32 → (IsTrue fits → AreTwins operator b a)
        → HasCount operator a
        → Makes code.old code.new (HasOperands b a) (answered (applied operator b a))) }
{
    match operator {
        // the difference, which is 0 where they are equal
        Operator::Equal => {
            code.instr(line, Instr::Diff)?;
            code.instr(line, Instr::Eqc(0))
        }
        _ => code.instr(line, instr_of(operator, fits)),
    }
}

/// Works out an operator on Breg and Areg, of which this is known.
pub(crate) fn apply(
    code: &mut Code,
    line: u32,
    operator: Operator,
    b: Value,
    a: Value,
) -> Result<Value, CodeFault>
    ensures makes { OnOk result ((vb va : ℕ) → Holds b vb → Holds a va → HasCount operator va
        → Makes code.old code.new (HasOperands vb va) (answered (applied operator vb va))) }
    ensures swapped { OnOk result ((vb va : ℕ) → Holds b vb → Holds a va → commutes operator ≡ true
        → HasCount operator vb
        → Makes code.old code.new (HasOperands va vb) (answered (applied operator vb va))) }
    ensures holds { IfOk result (λ made. (vb va : ℕ) → Holds b vb → Holds a va
        → Holds made (applied operator vb va).word) }
{
    let fits = always_fits(operator, b.source, a.source);
    work_out(code, line, operator, fits)?;
    Ok(result_value(operator, b, a))
}

/// The instruction that works out an operator on Areg and a constant, if there is one.
fn immediate_instr(operator: Operator, b: Value, c: u32) -> Option<Instr>
    ensures some { IfSome result (λ instr. (vb : ℕ) → Holds b vb → WorksOn instr vb (applied operator vb c)) }
    ensures straight { IfSome result (λ instr. IsTrue (is_straight_instr instr)) }
    ensures none { IfNone result (has_immediate operator c ≡ false) }
{
    let n = immediate(operator, c)?;
    match operator {
        Operator::Equal => Some(Instr::Eqc(n)),
        Operator::Add | Operator::Subtract => Some(Instr::Adc(n)),
        _ if always_fits(operator, b.source, Range::exactly(c)) => Some(Instr::Adc(n)),
        _ => None,
    }
}

/// Works out an operator on Areg, of which this is known, and a constant.
pub(crate) fn apply_constant(
    code: &mut Code,
    line: u32,
    operator: Operator,
    b: Value,
    c: u32,
) -> Result<Value, CodeFault>
    ensures makes { OnOk result ((vb : ℕ) → Holds b vb → IsNoShift operator
        → Answers code.old code.new 2 vb (applied operator vb c)) }
    ensures immediate { OnOk result ((vb : ℕ) → Holds b vb → IsTrue (has_immediate operator c)
        → Answers code.old code.new 1 vb (applied operator vb c)) }
    ensures holds { IfOk result (λ made. (vb : ℕ) → Holds b vb → Holds made (applied operator vb c).word) }
{
    match immediate_instr(operator, b, c) {
        Some(instr) => {
            code.instr(line, instr)?;
            Ok(result_value(operator, b, exactly(c)))
        }
        None => {
            let a = number(code, line, c)?;
            apply(code, line, operator, b, a)
        }
    }
}
