//! The state of code generation.

ghost use Rattle.std.specs.Prelude.{◌≡◌, ◌<◌, ◌^◌, ◌+◌, ◌-◌, ◌*◌, Some, IfOk, IfSome, map};
ghost use Rattle.std.specs.Prelude.{slice_index};
ghost use Rattle.tpw_occam_core.specs.Meaning.{kind_of};
ghost use Rattle.tpw_occam_expressions.specs.Agreement.{fact_of_kind, valued_fact, constant_fact, counted_fact, fact_at};
ghost use Rattle.tpw_occam_expressions.specs.Agreement.{with_fact};
ghost use Rattle.tpw_occam_expressions.specs.Agreement.{constant_in, elements_of};
ghost use Rattle.tpw_occam_symbolic.specs.declared.items.Item.TheVariants.{Temporary};
ghost use Rattle.tpw_occam_symbolic.specs.Leading.{word_bytes};
ghost use Rattle.tpw_occam_expressions.specs.Agreement.{knowledge_of};

use crate::range::{BYTE, FULL, Range};
use std::alloc::{AllocError, Global};
use std::marker::Model;
use tp_image::limits::MAX_WORKSPACE_WORDS_2;
use tpw_occam_core::{Expression, Kind, Storage, Worker};
use tpw_occam_symbolic::{CodeFault, Item};

/// The ranges of a name: the numbers that its value may be, those that the verifier knows of, and its value where
/// that is one constant, which then has no word.
#[derive(Clone, Copy)]
pub struct Fact {
    pub source: Range,
    pub known: Range,
    pub constant: Option<u32>,
}

/// The ranges of a variable of a kind.
pub fn fact_of(kind: Kind) -> Fact
    ensures { result ≡ fact_of_kind kind }
{
    Fact {
        source: match kind {
            Kind::Word => FULL,
            Kind::Byte => BYTE,
        },
        known: FULL,
        constant: None,
    }
}

/// The ranges of a name with a value in this range.
pub(crate) fn valued(source: Range) -> Fact
    ensures { result ≡ valued_fact source }
{
    Fact {
        source,
        known: FULL,
        constant: None,
    }
}

/// The ranges of a name of a constant.
pub fn constant(c: u32) -> Fact
    ensures { result ≡ constant_fact c }
{
    let range = Range::exactly(c);
    Fact {
        source: range,
        known: range,
        constant: Some(c),
    }
}

/// The ranges of the index of a loop.
pub fn counted(range: Range) -> Fact
    ensures { result ≡ counted_fact range }
{
    Fact {
        source: range,
        known: range,
        constant: None,
    }
}

/// The registers and words that the code of an expression may use, and the line of the text that it comes from.
#[derive(Clone, Copy)]
pub struct Allocation {
    /// At least 2 where the expression needs more than one.
    pub registers: u32,
    /// The first word that no temporary has.
    pub next_temporary: usize,
    pub line: u32,
}

impl Allocation {
    /// All registers, and all words from one on.
    pub fn from_word(next_temporary: usize, line: u32) -> Allocation
        ensures { result ≡ record { registers = 3; next_temporary = next_temporary; line = line } }
    {
        Allocation {
            registers: 3,
            next_temporary,
            line,
        }
    }

    /// The same words, with another number of registers.
    pub(crate) fn with_registers(self, registers: u32) -> Allocation
        ensures { result ≡ record self { registers = registers } }
    {
        Allocation { registers, ..self }
    }

    /// One register less.
    pub fn above(self) -> Allocation
        ensures { result ≡ record self { registers = self.registers - 1 } }
    {
        self.with_registers(self.registers.saturating_sub(1))
    }

    /// One word more is kept. No workspace has room for more words than it has.
    pub fn beside(self) -> Result<Allocation, CodeFault>
        ensures { IfOk result (λ room. room ≡ record self { next_temporary = self.next_temporary + 1 }) }
    {
        if self.next_temporary >= MAX_WORKSPACE_WORDS_2 as usize {
            return Err(CodeFault::Workspace {
                line: self.line,
                words: None,
            });
        }
        Ok(Allocation {
            next_temporary: self.next_temporary + 1,
            ..self
        })
    }

    /// The word that is kept next.
    pub fn word(self) -> Item
        ensures { result ≡ Temporary self.next_temporary }
    {
        Item::Temporary(self.next_temporary)
    }
}

/// The state of code generation: the worker, and the ranges of the names in scope.
#[derive(Drop)]
pub struct Emitter<'a> {
    pub alloc: Global,
    pub(crate) worker: &'a Worker,
    facts: Vec<Fact>,
}

impl<'a> Model for Emitter<'a> {
    ghost use Rattle.tpw_occam_expressions.specs.Agreement.{Knowledge};

    ghost Value = { Knowledge };

    ghost use Rattle.std.specs.Prelude.{map};
    ghost use Rattle.tpw_occam_core.specs.Sound.{bytes_of};

    ghost view = { λ e. record {
      kinds = e.worker.now.variables.items;
      arrays = map bytes_of e.worker.now.arrays.items;
      facts = e.facts.items;
    } };
}

/// The ranges of variables.
fn facts_of(alloc: Global, kinds: &[Kind]) -> Result<Vec<Fact>, AllocError>
    ensures { IfOk result (λ facts. facts.items ≡ map fact_of_kind kinds.now) }
{
    let mut facts = Vec::with_capacity(alloc, kinds.len())?;
    for kind in kinds {
        facts.push(fact_of(*kind))?;
    }
    Ok(facts)
}

impl<'a> Emitter<'a> {
    pub fn new(alloc: Global, worker: &'a Worker) -> Result<Emitter<'a>, CodeFault>
        ensures { IfOk result (λ emitter. emitter ≡ knowledge_of worker.now) }
    {
        Ok(Emitter {
            alloc,
            worker,
            facts: facts_of(alloc, &worker.variables)?,
        })
    }

    /// The kind of a variable.
    pub fn kind(&self, x: usize) -> Kind
        ensures { result ≡ kind_of self.now.kinds x }
    {
        self.worker.variables.get(x).copied().unwrap_or(Kind::Word)
    }

    /// The ranges of a name.
    pub fn fact(&self, x: usize) -> Fact
        ensures { result ≡ fact_at self.now x }
    {
        self.facts.get(x).copied().unwrap_or(fact_of(Kind::Word))
    }

    pub fn set_fact(&mut self, x: usize, fact: Fact)
        ensures { self.new ≡ with_fact x fact self.old }
    {
        if x < self.facts.len() {
            self.facts[x] = fact;
        }
    }

    /// The value of an expression that is one constant.
    pub fn constant_of(&self, e: &Expression) -> Option<u32>
        ensures value { result ≡ constant_in self.now e.now }
        ensures small { IfSome result (λ c. c < 2 ^ 32) }
    {
        match e {
            Expression::Constant(c) => Some(*c),
            Expression::Variable(x) => self.fact(*x).constant,
            _ => None,
        }
    }

    /// The bytes of an array.
    pub fn bytes(&self, array: usize) -> u32
        ensures { slice_index self.now.arrays array < 2 ^ 32 → result ≡ slice_index self.now.arrays array }
    {
        match self.worker.arrays.get(array) {
            Some(Storage::Zeros(count)) => *count,
            Some(Storage::Table(bytes)) => u32::try_from(bytes.len()).unwrap_or(u32::MAX),
            None => 0,
        }
    }

    /// The words of an array.
    pub fn words(&self, array: usize) -> u32
        ensures { slice_index self.now.arrays array < 2 ^ 32 → 4 * result
            ≡ word_bytes (slice_index self.now.arrays array) }
    {
        self.bytes(array).div_ceil(4)
    }

    /// The elements of an array that is seen as words or bytes.
    pub fn elements(&self, array: usize, kind: Kind) -> u32
        ensures { slice_index self.now.arrays array < 2 ^ 32 → result
            ≡ elements_of kind (slice_index self.now.arrays array) }
    {
        match kind {
            Kind::Word => self.bytes(array) / 4,
            Kind::Byte => self.bytes(array),
        }
    }
}
