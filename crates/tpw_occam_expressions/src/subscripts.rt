//! Subscripts: their checks, and the masks by which the verifier sees that they are below a size.
//!
//! A check is left out where the text shows that it holds. A mask is left out where the verifier knows the range of
//! the register.

ghost use Rattle.std.specs.Prelude.{◌≡◌, ◌⊎◌, ◌<◌, ◌≤◌, ◌+◌, ◌*◌, ◌^◌, ◌%◌, ℕ, List, length, slice_index, pos, Some};
ghost use Rattle.std.specs.Prelude.{None, IsTrue, OnOk, IfOk, IfSome, IfNone, bit_and, nat_le};
ghost use Rattle.tpw_occam_core.specs.Arithmetic.{answer, pure, subscript};
ghost use Rattle.tpw_occam_expressions.specs.Ranges.{from_to, Contains, ContainsAllOf};
ghost use Rattle.tpw_occam_core.specs.Arrays.{size, element};
ghost use Rattle.tpw_occam_core.specs.declared.kind.Kind.TheVariants.{Word, Byte};
ghost use Rattle.tpw_occam_core.specs.declared.expression.Operator.TheVariants.{Add, Plus};
ghost use Rattle.tpw_occam_symbolic.specs.Leading.{Does, HasArray, HasWord};
ghost use Rattle.tpw_occam_symbolic.specs.declared.items.Item.TheVariants.{Variable};
ghost use Rattle.tpw_occam_expressions.specs.Agreement.{fact_at, constant_in};
ghost use Rattle.tpw_occam_expressions.specs.Computing.{ComputesTo, IsKnownOf, IsConstantBelow, IsByteVariable, IsFixed};
ghost use Rattle.tpw_occam_expressions.specs.Computing.{IsOffset, IsOffsetOf, subscript_value};
ghost use Rattle.tpw_occam_expressions.specs.Values.{Answers, Holds, HasNumber, HasAddress, Replaces, PushesAlone};
ghost use Rattle.tpw_occam_expressions.specs.Values.{IsAtElement, PushesAddress, PushesOver, scaled};

use crate::emitter::{Allocation, Emitter};
use crate::expressions::Value;
use crate::operators::number;
use crate::range::{BYTE, FULL, Range};
use tp_decode::Instr;
use tpw_occam_core::{Expression, Kind, Operator};
use tpw_occam_symbolic::{Code, CodeFault, Item, Step};

/// The greatest number, whose bits are all but the sign.
const MOST_POSITIVE: u32 = 0x7FFF_FFFF;

/// Sets the flag where Areg is not below a size.
fn check(code: &mut Code, line: u32, size: u32) -> Result<(), CodeFault>
    ensures { OnOk result ((i : ℕ) → Answers code.old code.new 2 i (answer i (nat_le size i))) }
{
    code.constant(line, size)?;
    code.instr(line, Instr::Csub0)
}

/// Takes the low bits of Areg.
fn mask(code: &mut Code, line: u32, bits: u32) -> Result<(), CodeFault>
    ensures { OnOk result ((i : ℕ) → Answers code.old code.new 2 i (pure (bit_and i bits))) }
{
    code.constant(line, bits)?;
    code.instr(line, Instr::BitAnd)
}

/// The exponent of a power of two.
fn exponent_of(size: u32) -> Option<u32>
    ensures power { IfSome result (λ exponent. size ≡ 2 ^ exponent) }
    ensures small { IfSome result (λ exponent. exponent < 32) }
{
    let exponent = size.trailing_zeros() % u32::BITS;
    if 1u32.wrapping_shl(exponent) == size {
        Some(exponent)
    } else {
        None
    }
}

/// Takes all bits but the sign of Areg, of which the verifier knows this. There is nothing to do where it is never
/// below 0.
fn without_sign(code: &mut Code, line: u32, known: Range) -> Result<(), CodeFault>
    ensures { OnOk result ((i : ℕ) → i < 2 ^ 32 → Contains known i
        → Answers code.old code.new 2 i (pure (i % 2 ^ 31))) }
{
    if known.is_within(Range::below(MOST_POSITIVE + 1)) {
        return Ok(());
    }
    mask(code, line, MOST_POSITIVE)
}

/// Takes the remainder of Areg by a size; neither is below 0.
fn remainder(code: &mut Code, line: u32, size: u32) -> Result<(), CodeFault>
    ensures { OnOk result ((i : ℕ) → i < 2 ^ 31 → 0 < size → size ≤ 2 ^ 31
        → Answers code.old code.new 2 i (pure (i % size))) }
{
    code.constant(line, size)?;
    code.instr(line, Instr::Rem)
}

/// Makes Areg, of which the verifier knows this, a number below a size, and leaves one that is below it as it is.
pub fn reduce(code: &mut Code, line: u32, known: Range, size: u32) -> Result<Range, CodeFault>
    ensures makes { OnOk result ((i : ℕ) → i < 2 ^ 32 → Contains known i → 0 < size → size ≤ 2 ^ 31
        → Answers code.old code.new 2 i (pure (i % 2 ^ 31 % size))) }
    ensures known { IfOk result (λ known. (word : ℕ) → word < size → size ≤ 2 ^ 31 → Contains known word) }
{
    if let Some(_) = exponent_of(size) {
        mask(code, line, size.saturating_sub(1))?;
        return Ok(Range::below(size));
    }
    without_sign(code, line, known)?;
    remainder(code, line, size)?;
    Ok(Range::below(size))
}

/// Checks Areg against a size, where that is needed.
pub fn checked(code: &mut Code, line: u32, value: Value, size: u32) -> Result<Value, CodeFault>
    ensures makes { OnOk result ((i : ℕ) → Holds value i → 0 < size → size ≤ 2 ^ 31
        → Answers code.old code.new 2 i (subscript size i)) }
    ensures holds { IfOk result (λ made. (i : ℕ) → Holds value i → 0 < size → size ≤ 2 ^ 31
        → Holds made (subscript size i).word) }
{
    let range = Range::below(size);
    if value.source.is_within(range) {
        return Ok(value);
    }
    check(code, line, size)?;
    let known = reduce(code, line, value.known, size)?;
    Ok(Value {
        source: range,
        known,
    })
}

/// Takes the low byte of Areg where the value may be more.
pub fn kept_byte(code: &mut Code, line: u32, value: Value) -> Result<(), CodeFault>
    ensures { OnOk result ((i : ℕ) → Holds value i → Answers code.old code.new 2 i (pure (i % 256))) }
{
    if value.source.is_within(BYTE) {
        return Ok(());
    }
    mask(code, line, 255)
}

/// Makes Areg, a subscript, the address of an array's element.
pub fn indexed(code: &mut Code, line: u32, array: usize, kind: Kind) -> Result<(), CodeFault>
    ensures { OnOk result ((arrays : List ℕ) (i : ℕ) → Does arrays code.old code.new (HasNumber i)
        (HasAddress arrays array (scaled kind i))) }
{
    code.emit(line, Step::Pointer(Item::Array(array), 0))?;
    match kind {
        Kind::Word => code.instr(line, Instr::Wsub),
        Kind::Byte => code.instr(line, Instr::Bsub),
    }
}

/// Pushes the byte of a variable, of which the verifier then knows the range.
fn push_byte(code: &mut Code, line: u32, x: usize) -> Result<Value, CodeFault>
    ensures makes { OnOk result ((arrays : List ℕ) (word : ℕ) → word < 256 → Does arrays code.old code.new
        (HasWord (Variable x) word) (PushesAlone (pure word))) }
    ensures holds { IfOk result (λ value. (word : ℕ) → word < 256 → Holds value word) }
{
    code.emit(line, Step::Pointer(Item::Variable(x), 0))?;
    code.instr(line, Instr::Lb)?;
    Ok(Value {
        source: BYTE,
        known: BYTE,
    })
}

/// Checks Areg against a size, and shows the verifier that it is below it.
pub fn settled(code: &mut Code, line: u32, value: Value, size: u32) -> Result<Value, CodeFault>
    ensures makes { OnOk result ((i : ℕ) → Holds value i → 0 < size → size ≤ 2 ^ 31
        → Answers code.old code.new 2 i (subscript size i)) }
    ensures holds { IfOk result (λ made. (i : ℕ) → Holds value i → 0 < size → size ≤ 2 ^ 31
        → Holds made (subscript size i).word) }
{
    let value = checked(code, line, value, size)?;
    if value.known.is_within(Range::below(size)) {
        return Ok(value);
    }
    let known = reduce(code, line, value.known, size)?;
    Ok(Value {
        source: value.source,
        known,
    })
}

/// A subscript that is a variable and a constant, which goes into the instruction that reads or writes the word.
#[derive(Clone, Copy)]
pub struct Offset {
    pub variable: usize,
    pub constant: u32,
}

/// Whether an operator is a sum.
fn is_sum(operator: Operator) -> bool
    ensures { IsTrue result → (operator ≡ Add) ⊎ (operator ≡ Plus) }
{
    operator == Operator::Add || operator == Operator::Plus
}

/// Pushes the address of the word of an array that an offset is counted from.
pub fn base(code: &mut Code, line: u32, array: usize, offset: Offset) -> Result<(), CodeFault>
    ensures { OnOk result ((arrays : List ℕ) (v : ℕ) → v < 2 ^ 32 → Does arrays code.old code.new
        (HasWord (Variable offset.variable) v) (PushesAddress arrays array (4 * v))) }
{
    code.emit(line, Step::Load(Item::Variable(offset.variable), 0))?;
    indexed(code, line, array, Kind::Word)
}

/// Pushes the word of an array at an offset.
pub(crate) fn offset_element(
    code: &mut Code,
    line: u32,
    array: usize,
    offset: Offset,
) -> Result<Value, CodeFault>
    ensures makes { OnOk result ((arrays bytes : List ℕ) (v : ℕ) → v < 2 ^ 32 → length bytes ≡ slice_index arrays array
        → v + offset.constant < size Word bytes → length bytes ≤ 2048 → Does arrays code.old code.new
        (λ m. HasWord (Variable offset.variable) v m × HasArray array bytes m)
        (PushesOver 2 (pure (element Word bytes (v + offset.constant))))) }
    ensures holds { IfOk result (λ value. (bytes : List ℕ) (i : ℕ) → ((at : ℕ) → slice_index bytes at < 256)
        → Holds value (element Word bytes i)) }
{
    base(code, line, array, offset)?;
    code.instr(line, Instr::Ldnl(offset.constant.cast_signed()))?;
    Ok(element_value(Kind::Word))
}

/// The ranges of an element.
fn element_value(kind: Kind) -> Value
    ensures { (bytes : List ℕ) (i : ℕ) → ((at : ℕ) → slice_index bytes at < 256) → Holds result (element kind bytes i) }
{
    let range = match kind {
        Kind::Word => FULL,
        Kind::Byte => BYTE,
    };
    Value {
        source: range,
        known: range,
    }
}

/// Pushes an element with a constant subscript.
fn push_fixed(code: &mut Code, line: u32, array: usize, kind: Kind, c: u32) -> Result<(), CodeFault>
    ensures { OnOk result ((arrays : List ℕ) (bytes : List ℕ) → length bytes ≡ slice_index arrays array
        → c < size kind bytes → (kind ≡ Byte → c % 4 ≡ 0) → Does arrays code.old code.new (HasArray array bytes)
        (PushesAlone (pure (element kind bytes c)))) }
{
    match kind {
        Kind::Word => code.emit(line, Step::Load(Item::Array(array), c)),
        Kind::Byte => {
            code.emit(line, Step::Pointer(Item::Array(array), c / 4))?;
            code.instr(line, Instr::Lb)
        }
    }
}

/// Makes Areg, the address of an element, the element.
fn load(code: &mut Code, line: u32, kind: Kind) -> Result<(), CodeFault>
    ensures { OnOk result ((arrays : List ℕ) (a : ℕ) (bytes : List ℕ) (i : ℕ) → i < size kind bytes
        → Does arrays code.old code.new (IsAtElement kind a bytes i) (Replaces 1 (pure (element kind bytes i)))) }
{
    match kind {
        Kind::Word => code.instr(line, Instr::Ldnl(0)),
        Kind::Byte => code.instr(line, Instr::Lb),
    }
}

/// Pushes an element with a constant subscript, if that takes no subscript at run time.
pub(crate) fn fixed_element(
    code: &mut Code,
    line: u32,
    array: usize,
    kind: Kind,
    c: u32,
) -> Result<Value, CodeFault>
    ensures makes { OnOk result ((arrays : List ℕ) (bytes : List ℕ) → length bytes ≡ slice_index arrays array
        → c < size kind bytes → (kind ≡ Byte → c % 4 ≡ 0) → Does arrays code.old code.new (HasArray array bytes)
        (PushesAlone (pure (element kind bytes c)))) }
    ensures holds { IfOk result (λ value. (bytes : List ℕ) (i : ℕ) → ((at : ℕ) → slice_index bytes at < 256)
        → Holds value (element kind bytes i)) }
{
    push_fixed(code, line, array, kind, c)?;
    Ok(element_value(kind))
}

/// Makes Areg, a subscript, the array's element.
pub(crate) fn indexed_element(
    code: &mut Code,
    line: u32,
    array: usize,
    kind: Kind,
) -> Result<Value, CodeFault>
    ensures makes { OnOk result ((arrays : List ℕ) (bytes : List ℕ) (i : ℕ) → length bytes ≡ slice_index arrays array
        → i < size kind bytes → Does arrays code.old code.new (λ m. HasNumber i m × HasArray array bytes m)
        (Replaces 2 (pure (element kind bytes i)))) }
    ensures holds { IfOk result (λ value. (bytes : List ℕ) (i : ℕ) → ((at : ℕ) → slice_index bytes at < 256)
        → Holds value (element kind bytes i)) }
{
    indexed(code, line, array, kind)?;
    load(code, line, kind)?;
    Ok(element_value(kind))
}

impl Emitter<'_> {
    /// The value of an expression that is one constant, below a size.
    fn constant_below(&self, e: &Expression, size: u32) -> Option<u32>
        ensures some { IfSome result (λ c. (constant_in self.now e.now ≡ Some c) × (c < size)) }
        ensures none { IfNone result (IsConstantBelow self.now e.now size → ⊥) }
    {
        match self.constant_of(e) {
            Some(c) if c < size => Some(c),
            _ => None,
        }
    }

    /// The variable that a subscript of this many elements is, where it is better read as a byte.
    fn byte_variable(&self, e: &Expression, size: u32) -> Option<usize>
        ensures { IfSome result (λ x. IsByteVariable self.now e.now x) }
    {
        match e {
            Expression::Variable(x) if size >= 256 && self.is_byte(*x) => Some(*x),
            _ => None,
        }
    }

    /// Whether a name is a BYTE that has a word.
    fn is_byte(&self, x: usize) -> bool
        ensures { IsTrue result → ((fact_at self.now x).constant ≡ None)
            × ContainsAllOf (from_to (pos 0) (pos 255)) (fact_at self.now x).source }
    {
        let fact = self.fact(x);
        self.kind(x) == Kind::Byte && fact.constant.is_none() && fact.source.is_within(BYTE)
    }

    /// Pushes a number that is checked against a size, and that the verifier knows to be below it.
    #[cycle(expression)]
    pub fn subscript(
        &mut self,
        code: &mut Code,
        e: &Expression,
        size: u32,
        room: Allocation,
    ) -> Result<Value, CodeFault>
        ensures knowledge { OnOk result (self.new ≡ self.old) }
        ensures computes { OnOk result (0 < size → size ≤ 2 ^ 31
            → (room.registers ≤ 1 → IsConstantBelow self.old e.now size)
            → ComputesTo self.old code.old code.new e.now (subscript_value e.now size) room.registers room.next_temporary) }
        ensures known { IfOk result (λ value. 0 < size → size ≤ 2 ^ 31
            → IsKnownOf self.old e.now (subscript_value e.now size) value) }
    {
        match self.constant_below(e, size) {
            Some(c) => number(code, room.line, c),
            None => self.reduced(code, e, size, room),
        }
    }

    /// Pushes a number that is no constant below a size, checked against it.
    #[cycle(expression)]
    fn reduced(
        &mut self,
        code: &mut Code,
        e: &Expression,
        size: u32,
        room: Allocation,
    ) -> Result<Value, CodeFault>
        ensures knowledge { OnOk result (self.new ≡ self.old) }
        ensures computes { OnOk result (0 < size → size ≤ 2 ^ 31 → 2 ≤ room.registers
            → ComputesTo self.old code.old code.new e.now (subscript_value e.now size) room.registers room.next_temporary) }
        ensures known { IfOk result (λ value. 0 < size → size ≤ 2 ^ 31
            → IsKnownOf self.old e.now (subscript_value e.now size) value) }
    {
        if let Some(x) = self.byte_variable(e, size) {
            let value = push_byte(code, room.line, x)?;
            return settled(code, room.line, value, size);
        }
        let value = self.expression(code, e, room)?;
        settled(code, room.line, value, size)
    }

    /// The constant subscript of a word, or of the first byte of a word, that there is.
    pub fn fixed_subscript(&self, array: usize, kind: Kind, e: &Expression) -> Option<u32>
        ensures { IfSome result (λ c. IsFixed self.now array kind e.now c) }
    {
        let c = self.constant_of(e)?;
        if c >= self.elements(array, kind) || (kind == Kind::Byte && c % 4 != 0) {
            return None;
        }
        Some(c)
    }

    /// A word's subscript as a variable and a constant, where the verifier knows that the variable and the constant
    /// together are below the array's size.
    pub fn offset_subscript(&self, array: usize, kind: Kind, e: &Expression) -> Option<Offset>
        ensures { IfSome result (λ offset. IsOffset self.now array kind e.now offset.variable offset.constant) }
    {
        match e {
            Expression::Binary {
                operator,
                left,
                right,
            } if is_sum(*operator) => self.offset_of(array, kind, left, right),
            _ => None,
        }
    }

    /// The sum of two operands as such a subscript.
    fn offset_of(
        &self,
        array: usize,
        kind: Kind,
        left: &Expression,
        right: &Expression,
    ) -> Option<Offset>
        ensures { IfSome result (λ offset. IsOffsetOf self.now array kind left.now right.now offset.variable
            offset.constant) }
    {
        let Expression::Variable(x) = left else {
            return None;
        };
        let constant = self.constant_of(right)?;
        let size = self.elements(array, kind);
        if kind != Kind::Word || constant >= size {
            return None;
        }
        let fact = self.fact(*x);
        if fact.constant.is_some() || !fact.known.is_within(Range::below(size - constant)) {
            return None;
        }
        Some(Offset {
            variable: *x,
            constant,
        })
    }
}
