//! Code of assignments.

ghost use Rattle.std.specs.Prelude.{◌≡◌, ◌<◌, ◌≤◌, ◌+◌, ◌*◌, ◌^◌, ℕ, List, length, slice_index, true, false, OnOk};
ghost use Rattle.std.specs.Prelude.{IfSome, IsTrue};
ghost use Rattle.std.specs.Int.{w32, to_le_bytes};
ghost use Rattle.tpw_occam_core.specs.declared.kind.Kind.TheVariants.{Word};
ghost use Rattle.tpw_occam_core.specs.declared.process.Target.TheVariants as target;
ghost use Rattle.tpw_occam_core.specs.Arrays.{size};
ghost use Rattle.tpw_occam_symbolic.specs.declared.items.Item.TheVariants as item;
ghost use Rattle.tpw_occam_symbolic.specs.Leading.{Does, HasWord};
ghost use Rattle.tpw_occam_expressions.specs.Values.{HasNumber, scaled};
ghost use Rattle.tpw_occam_expressions.specs.Computing.{ComputesTo, IsFixed, subscript_value};
ghost use Rattle.tpw_occam_code.specs.Executing.{Assigns};
ghost use Rattle.tpw_occam_code.specs.Assigning.{element_bytes, IsToStore, Writes, WritesPopped, ComputesOver};
ghost use Rattle.tpw_occam_code.specs.Assigning.{ComputesAbove, StoresIn, MakesOne, taken_value, HasSmallValue};
ghost use Rattle.tpw_occam_code.specs.Assigning.{AssignsAbove, KeepsParts, KeepsSubscript, StoresParts, StoresKept};
ghost use Rattle.tpw_occam_code.specs.Registers.{IsWordTarget, FitAll, StoresWord, AssignsBelow};
ghost use Rattle.tpw_occam_code.specs.Ordering.{SettleAll, IsNumbered, AreNumbered};
ghost use Rattle.tpw_occam_code.specs.Ordering.{MakesMoves, MakesMove, KeepsValue, assignment_at};

use crate::order::{Move, keep_any, moves};
use tp_decode::Instr;
use tpw_occam_core::{Assignment, Expression, Kind, Target};
use tpw_occam_expressions::{
    Allocation, Emitter, FULL, Offset, base, checked, indexed, kept_byte, reduce, settled,
};
use tpw_occam_symbolic::{Code, CodeFault, Item, Step};

/// Stores Areg in a variable.
fn store_variable(code: &mut Code, line: u32, x: usize) -> Result<(), CodeFault>
    ensures { OnOk result ((arrays : List ℕ) (word : ℕ) → Does arrays code.old code.new (HasNumber word)
        (WritesPopped (item.Variable x) 0 (to_le_bytes w32 word))) }
{
    code.emit(line, Step::Store(Item::Variable(x), 0))
}

/// Stores Areg in a word of an array.
fn store_word(code: &mut Code, line: u32, array: usize, word: u32) -> Result<(), CodeFault>
    ensures { OnOk result ((arrays : List ℕ) (value : ℕ) → Does arrays code.old code.new (HasNumber value)
        (WritesPopped (item.Array array) (4 * word) (to_le_bytes w32 value))) }
{
    code.emit(line, Step::Store(Item::Array(array), word))
}

/// Stores Breg at the address in Areg.
fn store_at(code: &mut Code, line: u32, kind: Kind) -> Result<(), CodeFault>
    ensures { OnOk result ((arrays bytes : List ℕ) (a i word : ℕ) → i < size kind bytes → Does arrays code.old code.new
        (IsToStore kind a i word (length bytes)) (Writes (item.Array a) (scaled kind i) (element_bytes kind word))) }
{
    match kind {
        Kind::Word => code.instr(line, Instr::Stnl(0)),
        Kind::Byte => code.instr(line, Instr::Sb),
    }
}

/// Stores Areg in the word of an array at an offset.
fn store_offset(code: &mut Code, line: u32, array: usize, offset: Offset) -> Result<(), CodeFault>
    ensures { OnOk result ((arrays bytes : List ℕ) (v word : ℕ) → v < 2 ^ 32 → length bytes ≡ slice_index arrays array
        → v + offset.constant < size Word bytes → length bytes ≤ 2048 → Does arrays code.old code.new
        (λ m. HasWord (item.Variable offset.variable) v m × HasNumber word m)
        (Writes (item.Array array) (4 * (v + offset.constant)) (to_le_bytes w32 word))) }
{
    base(code, line, array, offset)?;
    code.instr(line, Instr::Stnl(offset.constant.cast_signed()))
}

/// Makes assignments that are made together: one alone, or one by one where an order allows that; else with all
/// values in registers; else one by one with some values in words; else with all values and subscripts in words.
pub(crate) fn assignments(
    emitter: &mut Emitter<'_>,
    code: &mut Code,
    all: &[Assignment],
    line: u32,
) -> Result<(), CodeFault>
    ensures knowledge { OnOk result (emitter.new ≡ emitter.old) }
    ensures assigns { OnOk result (Assigns emitter.old code.old code.new all.now) }
{
    if let [one] = all {
        return make(emitter, code, one, 0, false, Allocation::from_word(0, line));
    }
    several(emitter, code, all, line)
}

/// Makes several assignments.
fn several(
    emitter: &mut Emitter<'_>,
    code: &mut Code,
    all: &[Assignment],
    line: u32,
) -> Result<(), CodeFault>
    ensures knowledge { OnOk result (emitter.new ≡ emitter.old) }
    ensures assigns { OnOk result (Assigns emitter.old code.old code.new all.now) }
{
    if let Some(moves) = moves(emitter.alloc, all)? {
        return by_moves(emitter, code, all, &moves, line);
    }
    assign_by_words(emitter, code, all, Allocation::from_word(0, line))
}

/// Makes several assignments for which there is an order.
fn by_moves(
    emitter: &mut Emitter<'_>,
    code: &mut Code,
    all: &[Assignment],
    moves: &[Move],
    line: u32,
) -> Result<(), CodeFault>
    requires { SettleAll all.now moves.now }
    ensures knowledge { OnOk result (emitter.new ≡ emitter.old) }
    ensures assigns { OnOk result (Assigns emitter.old code.old code.new all.now) }
{
    if !keep_any(moves) {
        return make_moves(emitter, code, all, moves, Allocation::from_word(0, line));
    }
    if fit_in_registers(emitter, all, 3) {
        return assign_by_registers(emitter, code, all, Allocation::from_word(0, line));
    }
    make_moves(
        emitter,
        code,
        all,
        moves,
        Allocation::from_word(all.len(), line),
    )
}

/// Makes assignments one by one.
fn make_moves(
    emitter: &mut Emitter<'_>,
    code: &mut Code,
    all: &[Assignment],
    moves: &[Move],
    room: Allocation,
) -> Result<(), CodeFault>
    requires { AreNumbered (length all.now) moves.now }
    ensures knowledge { OnOk result (emitter.new ≡ emitter.old) }
    ensures makes { OnOk result (room.registers ≡ 3
        → MakesMoves emitter.old code.old code.new all.now moves.now room.next_temporary) }
{
    let [next, rest @ ..] = moves else {
        return Ok(());
    };
    make_move(emitter, code, all, *next, room)?;
    make_moves(emitter, code, all, rest, room)
}

/// Makes one move.
fn make_move(
    emitter: &mut Emitter<'_>,
    code: &mut Code,
    all: &[Assignment],
    next: Move,
    room: Allocation,
) -> Result<(), CodeFault>
    requires { IsNumbered (length all.now) next }
    ensures knowledge { OnOk result (emitter.new ≡ emitter.old) }
    ensures makes { OnOk result (room.registers ≡ 3 → MakesMove emitter.old code.old code.new all.now next room.next_temporary) }
{
    match next {
        Move::Keep(i) => keep(emitter, code, all, i, room),
        Move::Make(i, is_kept) => make(emitter, code, &all[i], i, is_kept, room),
    }
}

/// Keeps a value as its target takes it in the word with its number.
fn keep(
    emitter: &mut Emitter<'_>,
    code: &mut Code,
    all: &[Assignment],
    i: usize,
    room: Allocation,
) -> Result<(), CodeFault>
    requires { i < length all.now }
    ensures knowledge { OnOk result (emitter.new ≡ emitter.old) }
    ensures small { OnOk result (HasSmallValue emitter.old (assignment_at all.now i).value) }
    ensures there { OnOk result (i < room.next_temporary) }
    ensures keeps { OnOk result (room.registers ≡ 3
        → KeepsValue emitter.old code.old code.new (assignment_at all.now i) i room.next_temporary) }
{
    // for each assignment there is a word
    if i >= room.next_temporary {
        return Err(CodeFault::Workspace {
            line: room.line,
            words: None,
        });
    }
    value(emitter, code, &all[i], room)?;
    code.emit(room.line, Step::Store(Item::Temporary(i), 0))
}

/// Pushes the value of an assignment, as its target takes it.
fn value(
    emitter: &mut Emitter<'_>,
    code: &mut Code,
    assignment: &Assignment,
    room: Allocation,
) -> Result<(), CodeFault>
    ensures knowledge { OnOk result (emitter.new ≡ emitter.old) }
    ensures computes { OnOk result (2 ≤ room.registers → ComputesTo emitter.old code.old code.new assignment.now.value
        (taken_value emitter.old.kinds assignment.now) room.registers room.next_temporary) }
    ensures small { OnOk result (HasSmallValue emitter.old assignment.now.value) }
{
    let value = emitter.expression(code, &assignment.value, room)?;
    if let Target::Variable(x) = &assignment.target {
        if let Kind::Byte = emitter.kind(*x) {
            return kept_byte(code, room.line, value);
        }
    }
    Ok(())
}

/// Makes one assignment, whose value may be kept in a word.
fn make(
    emitter: &mut Emitter<'_>,
    code: &mut Code,
    assignment: &Assignment,
    number: usize,
    is_kept: bool,
    room: Allocation,
) -> Result<(), CodeFault>
    ensures knowledge { OnOk result (emitter.new ≡ emitter.old) }
    ensures makes { OnOk result (room.registers ≡ 3
        → MakesOne emitter.old code.old code.new assignment.now number is_kept room.next_temporary) }
    ensures small { OnOk result (is_kept ≡ false → HasSmallValue emitter.old assignment.now.value) }
{
    if is_kept {
        code.emit(room.line, Step::Load(Item::Temporary(number), 0))?;
        return store(emitter, code, &assignment.target, room);
    }
    value(emitter, code, assignment, room)?;
    store(emitter, code, &assignment.target, room)
}

/// Stores Areg in a target.
fn store(
    emitter: &mut Emitter<'_>,
    code: &mut Code,
    target: &Target,
    room: Allocation,
) -> Result<(), CodeFault>
    ensures knowledge { OnOk result (emitter.new ≡ emitter.old) }
    ensures stores { OnOk result (room.registers ≡ 3 → StoresIn emitter.old code.old code.new target.now room.next_temporary) }
{
    if let Target::Element {
        array,
        kind,
        subscript,
    } = target
    {
        if fixed_word(emitter, *array, *kind, subscript).is_none() {
            return store_element(emitter, code, *array, *kind, subscript, room);
        }
    }
    store_in_word(emitter, code, target, room)
}

/// Stores Areg in an element whose place is computed.
fn store_element(
    emitter: &mut Emitter<'_>,
    code: &mut Code,
    array: usize,
    kind: Kind,
    subscript: &Expression,
    room: Allocation,
) -> Result<(), CodeFault>
    ensures knowledge { OnOk result (emitter.new ≡ emitter.old) }
    ensures stores { OnOk result (room.registers ≡ 3
        → StoresIn emitter.old code.old code.new (target.Element array kind subscript.now) room.next_temporary) }
{
    if let Some(offset) = emitter.offset_subscript(array, kind, subscript) {
        return store_offset(code, room.line, array, offset);
    }
    let size = emitter.elements(array, kind);
    subscript_over(emitter, code, subscript, size, room)?;
    indexed(code, room.line, array, kind)?;
    store_at(code, room.line, kind)
}

/// Pushes a subscript above what Areg holds.
fn subscript_over(
    emitter: &mut Emitter<'_>,
    code: &mut Code,
    subscript: &Expression,
    size: u32,
    room: Allocation,
) -> Result<(), CodeFault>
    ensures knowledge { OnOk result (emitter.new ≡ emitter.old) }
    ensures computes { OnOk result (0 < size → size ≤ 2 ^ 31 → room.registers ≡ 3
        → ComputesOver emitter.old code.old code.new subscript.now (subscript_value subscript.now size) room.next_temporary) }
{
    if emitter.need(subscript) <= 2 {
        emitter.subscript(code, subscript, size, room.above())?;
        return Ok(());
    }
    code.emit(room.line, Step::Store(room.word(), 0))?;
    subscript_above(emitter, code, subscript, size, room)
}

/// Pushes what was kept last, and above it a subscript that needs all registers.
fn subscript_above(
    emitter: &mut Emitter<'_>,
    code: &mut Code,
    subscript: &Expression,
    size: u32,
    room: Allocation,
) -> Result<(), CodeFault>
    ensures knowledge { OnOk result (emitter.new ≡ emitter.old) }
    ensures computes { OnOk result (0 < size → size ≤ 2 ^ 31 → room.registers ≡ 3
        → ComputesAbove emitter.old code.old code.new subscript.now (subscript_value subscript.now size) room.next_temporary) }
{
    let line = room.line;
    let i = emitter.expression(code, subscript, room.beside()?)?;
    let i = checked(code, line, i, size)?;
    code.emit(line, Step::Load(room.word(), 0))?;
    code.instr(line, Instr::Rev)?;
    settled(code, line, i, size)?;
    Ok(())
}

/// The word of an element of words with a constant subscript.
fn fixed_word(
    emitter: &Emitter<'_>,
    array: usize,
    kind: Kind,
    subscript: &Expression,
) -> Option<u32>
    ensures fixed { IfSome result (λ c. IsFixed emitter.now array kind subscript.now c) }
    ensures words { IfSome result (λ c. kind ≡ Word) }
{
    match kind {
        Kind::Word => emitter.fixed_subscript(array, kind, subscript),
        Kind::Byte => None,
    }
}

/// Whether a target is a word that takes any value as it is.
fn is_word(emitter: &Emitter<'_>, target: &Target) -> bool
    ensures { IsTrue result → IsWordTarget emitter.now target.now }
{
    match target {
        Target::Variable(x) => match emitter.kind(*x) {
            Kind::Word => true,
            Kind::Byte => false,
        },
        Target::Element {
            array,
            kind,
            subscript,
        } => match fixed_word(emitter, *array, *kind, subscript) {
            Some(_) => true,
            None => false,
        },
    }
}

/// Whether all values can be in this many registers at once.
fn fit_in_registers(emitter: &Emitter<'_>, all: &[Assignment], registers: u32) -> bool
    ensures { IsTrue result → FitAll emitter.now all.now registers }
{
    let [one, rest @ ..] = all else {
        return true;
    };
    if emitter.need(&one.value) > registers || !is_word(emitter, &one.target) {
        return false;
    }
    fit_in_registers(emitter, rest, registers.saturating_sub(1))
}

/// Pushes all values, and stores them from the last to the first.
fn assign_by_registers(
    emitter: &mut Emitter<'_>,
    code: &mut Code,
    all: &[Assignment],
    room: Allocation,
) -> Result<(), CodeFault>
    ensures knowledge { OnOk result (emitter.new ≡ emitter.old) }
    ensures assigns { OnOk result (room.registers ≤ 3 → FitAll emitter.old all.now room.registers
        → AssignsBelow emitter.old code.old code.new all.now room.registers) }
{
    let [one, rest @ ..] = all else {
        return Ok(());
    };
    emitter.expression(code, &one.value, room)?;
    assign_by_registers(emitter, code, rest, room.above())?;
    store_in_word(emitter, code, &one.target, room)
}

/// Stores Areg in a target whose place is fixed: a variable, or a word of an array.
fn store_in_word(
    emitter: &mut Emitter<'_>,
    code: &mut Code,
    target: &Target,
    room: Allocation,
) -> Result<(), CodeFault>
    ensures knowledge { OnOk result (emitter.new ≡ emitter.old) }
    ensures stores { OnOk result (IsWordTarget emitter.old target.now
        → StoresWord emitter.old code.old code.new target.now) }
    ensures alone { OnOk result (room.registers ≡ 3
        → StoresIn emitter.old code.old code.new target.now room.next_temporary) }
{
    let line = room.line;
    match target {
        Target::Variable(x) => store_variable(code, line, *x),
        Target::Element {
            array,
            kind,
            subscript,
        } => {
            if let Some(word) = fixed_word(emitter, *array, *kind, subscript) {
                return store_word(code, line, *array, word);
            }
            // the place is not fixed
            Err(CodeFault::Code { line })
        }
    }
}

/// Keeps all values and subscripts in words, two for each assignment, and stores the values from the last to the
/// first.
fn assign_by_words(
    emitter: &mut Emitter<'_>,
    code: &mut Code,
    all: &[Assignment],
    room: Allocation,
) -> Result<(), CodeFault>
    ensures knowledge { OnOk result (emitter.new ≡ emitter.old) }
    ensures assigns { OnOk result (room.registers ≡ 3 → AssignsAbove emitter.old code.old code.new all.now room.next_temporary) }
{
    let [one, rest @ ..] = all else {
        return Ok(());
    };
    keep_parts(emitter, code, one, room)?;
    assign_by_words(emitter, code, rest, room.beside()?.beside()?)?;
    store_parts(emitter, code, &one.target, room)
}

/// Keeps a value as its target takes it, and the target's subscript, checked, if it has one.
fn keep_parts(
    emitter: &mut Emitter<'_>,
    code: &mut Code,
    assignment: &Assignment,
    room: Allocation,
) -> Result<(), CodeFault>
    ensures knowledge { OnOk result (emitter.new ≡ emitter.old) }
    ensures keeps { OnOk result (room.registers ≡ 3
        → KeepsParts emitter.old code.old code.new assignment.now room.next_temporary) }
    ensures small { OnOk result (HasSmallValue emitter.old assignment.now.value) }
{
    value(emitter, code, assignment, room)?;
    code.emit(room.line, Step::Store(room.word(), 0))?;
    if let Target::Element {
        array,
        kind,
        subscript,
    } = &assignment.target
    {
        return keep_subscript(emitter, code, *array, *kind, subscript, room.beside()?);
    }
    Ok(())
}

/// Keeps a subscript, checked.
fn keep_subscript(
    emitter: &mut Emitter<'_>,
    code: &mut Code,
    array: usize,
    kind: Kind,
    subscript: &Expression,
    room: Allocation,
) -> Result<(), CodeFault>
    ensures knowledge { OnOk result (emitter.new ≡ emitter.old) }
    ensures keeps { OnOk result (room.registers ≡ 3
        → KeepsSubscript emitter.old code.old code.new array kind subscript.now room.next_temporary) }
{
    let i = emitter.expression(code, subscript, room)?;
    checked(code, room.line, i, emitter.elements(array, kind))?;
    code.emit(room.line, Step::Store(room.word(), 0))
}

/// Stores a value that was kept in its target.
fn store_parts(
    emitter: &Emitter<'_>,
    code: &mut Code,
    target: &Target,
    room: Allocation,
) -> Result<(), CodeFault>
    ensures { OnOk result (StoresParts emitter.now code.old code.new target.now room.next_temporary) }
{
    code.emit(room.line, Step::Load(room.word(), 0))?;
    match target {
        Target::Variable(x) => store_variable(code, room.line, *x),
        Target::Element {
            array,
            kind,
            subscript: _,
        } => store_kept(emitter, code, *array, *kind, room.beside()?),
    }
}

/// Stores Areg in an element whose subscript was kept.
fn store_kept(
    emitter: &Emitter<'_>,
    code: &mut Code,
    array: usize,
    kind: Kind,
    room: Allocation,
) -> Result<(), CodeFault>
    ensures { OnOk result (StoresKept emitter.now code.old code.new array kind room.next_temporary) }
{
    code.emit(room.line, Step::Load(room.word(), 0))?;
    reduce(code, room.line, FULL, emitter.elements(array, kind))?;
    indexed(code, room.line, array, kind)?;
    store_at(code, room.line, kind)
}
