//! Code: steps that are appended one by one. Nothing that stands is changed.

ghost use Rattle.std.specs.Prelude.{◌≡◌, ◌+◌, ◌≤◌, [], ◌∷◌, ◌++◌, if◌then◌else◌, is_ok, IfOk, OnOk, IsTrue};
ghost use Rattle.tp_decode.specs.declared.instr.Instr.{Instr};
ghost use Rattle.tpw_occam_symbolic.specs.declared.code.Step.TheVariants.{Plain, CjTo};
ghost use Rattle.tpw_occam_symbolic.specs.Code.{none_at, place_behind, followed_by, joined, with_loop, line_of};
ghost use Rattle.tpw_occam_symbolic.specs.Code.{chosen_lines, turned_lines};
ghost use Rattle.tpw_occam_symbolic.specs.Flowing.{is_straight, is_straight_instr, FlowsOn};

use crate::fault::CodeFault;
use crate::items::Item;
use std::alloc::{AllocError, Global};
use std::marker::Model;
use tp_decode::Instr;

/// The most lines that a code may have: no line has less than a byte.
const MAX_LINES: usize = 8192;

/// A step of code: a line of a program whose words are not placed yet. Places are those of lines, counted from the
/// first of the whole code.
#[derive(Clone, Copy)]
pub enum Step {
    Plain(Instr),
    /// `ldl` of an item's word.
    Load(Item, u32),
    /// `stl` of an item's word.
    Store(Item, u32),
    /// `ldlp` of an item's word.
    Pointer(Item, u32),
    JumpTo(usize),
    CjTo(usize),
    Distance { from: usize, to: usize },
}

/// A step, and the line of the text that it comes from.
#[derive(Clone, Copy)]
pub struct CodeLine {
    pub step: Step,
    pub source: u32,
}

/// A loop of several turns, and the line of the text that it comes from.
#[derive(Clone, Copy)]
pub struct Turns {
    pub head: usize,
    pub lend: usize,
    pub index: usize,
    pub start: u32,
    pub count: u32,
    pub source: u32,
}

/// Lines that stand from a place on, and the loops in them, each behind those that lie within it. Jumps go forward, and
/// loops are a nest to which they keep.
#[derive(Drop)]
pub struct Code {
    base: usize,
    lines: Vec<CodeLine>,
    loops: Vec<Turns>,
}

impl Model for Code {
    ghost use Rattle.std.specs.Prelude.{◌+◌, ◌≤◌, length};
    ghost use Rattle.tpw_occam_symbolic.specs.Code.{Lines};
    ghost use Rattle.tpw_occam_symbolic.specs.Flowing.{FlowsOn};

    ghost Value = { Lines };

    ghost view = { λ c. record { base = c.base; lines = c.lines.items; loops = c.loops.items } };

    ghost invariant = { λ c. (c.base + length c.lines.items ≤ 8192)
        × FlowsOn (record { base = c.base; lines = c.lines.items; loops = c.loops.items }) };
}

/// Appends lines and loops, or leaves both as they are.
fn extend(
    lines: &mut Vec<CodeLine>,
    loops: &mut Vec<Turns>,
    more: &[CodeLine],
    within: &[Turns],
) -> Result<(), AllocError>
    ensures lines { lines.new.items ≡ (if is_ok result then lines.old.items ++ more.now else lines.old.items) }
    ensures loops { loops.new.items ≡ (if is_ok result then loops.old.items ++ within.now else loops.old.items) }
{
    let count = lines.len();
    lines.extend_from_slice(more)?;
    let extended = loops.extend_from_slice(within);
    if extended.is_err() {
        lines.truncate(count);
    }
    extended
}

impl Code {
    /// No lines, at the first place.
    pub fn new(alloc: Global) -> Code
        ensures { result ≡ none_at 0 }
    {
        Code {
            base: 0,
            lines: Vec::new(alloc),
            loops: Vec::new(alloc),
        }
    }

    /// No lines, at the place behind the last line.
    pub fn behind(&self, alloc: Global) -> Code
        ensures { result ≡ none_at (place_behind self.now) }
    {
        Code {
            base: self.here(),
            lines: Vec::new(alloc),
            loops: Vec::new(alloc),
        }
    }

    /// No lines, at the place behind the last line and one more. A code that has no such place is refused, with this
    /// line of the text.
    pub fn behind_one(&self, alloc: Global, source: u32) -> Result<Code, CodeFault>
        ensures { IfOk result (λ code. code ≡ none_at (place_behind self.now + 1)) }
    {
        let here = self.here();
        if here >= MAX_LINES {
            return Err(CodeFault::Code { line: source });
        }
        Ok(Code {
            base: here + 1,
            lines: Vec::new(alloc),
            loops: Vec::new(alloc),
        })
    }

    /// The place behind the last line.
    pub fn here(&self) -> usize
        ensures place { result ≡ place_behind self.now }
        ensures small { result ≤ 8192 }
    {
        self.base + self.lines.len()
    }

    pub(crate) fn lines(&self) -> &[CodeLine]
        ensures { result.now ≡ self.now.lines }
    {
        &self.lines
    }

    pub(crate) fn loops(&self) -> &[Turns]
        ensures { result.now ≡ self.now.loops }
    {
        &self.loops
    }

    /// Control flows in code. It does nothing: its contract says what the type says.
    pub fn law_flows(&self)
        ensures { FlowsOn self.now }
    {
        // Naming a field gives the type's invariant.
        let _ = &self.lines;
    }

    /// Appends a step that comes from a line of the text and is neither a jump nor the end of a turn.
    pub fn emit(&mut self, source: u32, step: Step) -> Result<(), CodeFault>
        requires { IsTrue (is_straight step) }
        ensures { OnOk result (self.new ≡ followed_by self.old (line_of source step ∷ [])) }
    {
        if self.here() >= MAX_LINES {
            return Err(CodeFault::Code { line: source });
        }
        self.lines.push(CodeLine { step, source })?;
        Ok(())
    }

    /// Appends an instruction that is neither a jump nor the end of a turn.
    pub fn instr(&mut self, source: u32, instr: Instr) -> Result<(), CodeFault>
        requires { IsTrue (is_straight_instr instr) }
        ensures { OnOk result (self.new ≡ followed_by self.old (line_of source (Plain instr) ∷ [])) }
    {
        self.emit(source, Step::Plain(instr))
    }

    /// Appends code that is passed over, by a `cj` before it, where Areg is 0. It must have been made for its place.
    pub fn branch(&mut self, alloc: Global, source: u32, more: &Code) -> Result<(), CodeFault>
        ensures { OnOk result (self.new
            ≡ joined (followed_by self.old (line_of source (CjTo (place_behind more.now)) ∷ [])) more.now) }
    {
        if more.base != self.here() + 1 {
            return Err(CodeFault::Misplaced);
        }
        let mut lines = Vec::new(alloc);
        let step = Step::CjTo(more.here());
        lines.push(CodeLine { step, source })?;
        lines.extend_from_slice(&more.lines)?;
        extend(&mut self.lines, &mut self.loops, &lines, &more.loops)?;
        Ok(())
    }

    /// Appends code for where Areg is not 0, and for where it is. Both must have been made for their places.
    pub fn choose(
        &mut self,
        alloc: Global,
        source: u32,
        some: &Code,
        none: &Code,
    ) -> Result<(), CodeFault>
        ensures { OnOk result (self.new ≡ chosen_lines self.old source some.now none.now) }
    {
        if some.base != self.here() + 1 || none.base != some.here() + 1 {
            return Err(CodeFault::Misplaced);
        }
        let mut lines = Vec::new(alloc);
        let step = Step::CjTo(some.here() + 1);
        lines.push(CodeLine { step, source })?;
        lines.extend_from_slice(&some.lines)?;
        let step = Step::JumpTo(none.here());
        lines.push(CodeLine { step, source })?;
        lines.extend_from_slice(&none.lines)?;
        let mut loops = Vec::new(alloc);
        loops.extend_from_slice(&some.loops)?;
        loops.extend_from_slice(&none.loops)?;
        extend(&mut self.lines, &mut self.loops, &lines, &loops)?;
        Ok(())
    }

    /// Appends the code of a turn and the end of its loop, and adds the loop. The turn must have been made for its
    /// place, behind some code.
    pub fn end_loop(&mut self, alloc: Global, turn: &Code, turns: Turns) -> Result<(), CodeFault>
        ensures { OnOk result (self.new ≡ turned_lines self.old turn.now turns) }
    {
        let source = turns.source;
        let behind = turn.here();
        if self.lines.is_empty() || turn.base != self.here() || turns.head != turn.base {
            return Err(CodeFault::Misplaced);
        }
        if behind + 3 > MAX_LINES {
            return Err(CodeFault::Code { line: source });
        }
        let mut lines = Vec::new(alloc);
        lines.extend_from_slice(&turn.lines)?;
        let step = Step::Pointer(Item::Variable(turns.index), 0);
        lines.push(CodeLine { step, source })?;
        let step = Step::Distance {
            from: turns.head,
            to: behind + 3,
        };
        lines.push(CodeLine { step, source })?;
        let step = Step::Plain(Instr::Lend);
        lines.push(CodeLine { step, source })?;
        let mut loops = Vec::new(alloc);
        loops.extend_from_slice(&turn.loops)?;
        loops.push(Turns {
            lend: behind + 2,
            ..turns
        })?;
        extend(&mut self.lines, &mut self.loops, &lines, &loops)?;
        Ok(())
    }
}
