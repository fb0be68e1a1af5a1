//! From code to a program: items are placed, and steps become lines.

ghost use Rattle.std.specs.Prelude.{◌≡◌, ◌*◌, IfOk, IsTrue};
ghost use Rattle.tpw_occam_core.specs.Sound.{is_sound};
ghost use Rattle.tpw_asm.specs.Assembly.{AreItsAddresses, IsAssembly};
ghost use Rattle.tpw_occam_symbolic.specs.Program.{GivesRuled, place_bytes, message_bytes};
ghost use Rattle.tpw_occam_symbolic.specs.Flowing.{Ends};
ghost use Rattle.tpw_occam_symbolic.specs.Placing.{AreBetween, IsBuilt};

use crate::code::Code;
use crate::fault::CodeFault;
use crate::initial::initial_words;
use crate::items::{Placed, START};
use crate::layout::{Arranged, layout};
use crate::length::first_beyond;
use crate::lines::{lines_of, loop_lines, rows_of, sources_of};
use crate::loops::check_loops;
use crate::uses::{Used, array_bytes, uses_of};
use std::alloc::Global;
use tp_image::Version;
use tp_image::limits::{MAX_WORKSPACE_WORDS_2, MIN_WORKSPACE};
use tpw_asm::{Assembled, AssemblyFault, Program, assemble};
use tpw_occam_core::{Message, Place, Worker};

/// A worker's program with its image, and what its parts come from.
#[derive(Drop)]
pub struct Compiled {
    pub program: Program,
    /// The image, accepted or not, and the address of each place of the program.
    pub assembled: Assembled,
    /// The line of the text that each line of code comes from.
    pub sources: Vec<u32>,
    /// The line of the text of each loop.
    pub loop_lines: Vec<u32>,
    /// Where variables, temporaries, constants and arrays lie.
    pub placed: Vec<Placed>,
}

/// The words of a packet.
fn packet_words(worker: &Worker) -> u32
    ensures { IsTrue (is_sound worker.now) → 4 * result ≡ place_bytes worker.now.arrays.items worker.now.receive }
{
    match worker.receive {
        Place::Variable(_) => 1,
        Place::Array(a) => array_bytes(worker, a) / 4,
    }
}

/// The words of a result.
fn result_words(worker: &Worker) -> u32
    ensures { IsTrue (is_sound worker.now) → 4 * result ≡ message_bytes worker.now.arrays.items worker.now.send }
{
    match &worker.send {
        Message::Value(_) => 1,
        Message::Array(a) => array_bytes(worker, *a) / 4,
    }
}

/// Refuses items that have more words together than a workspace, at the first use of one that goes beyond it.
fn check_workspace(uses: &[Used]) -> Result<(), CodeFault> {
    let mut words = START;
    let mut beyond = None;
    for used in uses {
        words = words.saturating_add(used.words);
        if words > MAX_WORKSPACE_WORDS_2 {
            beyond = Some(beyond.unwrap_or(used.line));
        }
    }
    match beyond {
        Some(line) => Err(CodeFault::Workspace {
            line,
            words: Some(words),
        }),
        None => Ok(()),
    }
}

/// Assembles a program. One that is too long is refused at the first line of the text that goes beyond an image's code.
fn assembled(alloc: Global, program: &Program, sources: &[u32]) -> Result<Assembled, CodeFault>
    ensures image { IfOk result (λ made. IsAssembly program.now made.image) }
    ensures addresses { IfOk result (λ made. AreItsAddresses program.now made.addresses.items) }
{
    match assemble(alloc, program) {
        Ok(made) => Ok(made),
        Err(AssemblyFault::TooLong) => {
            let place = first_beyond(alloc, &program.lines)?;
            Err(CodeFault::Code {
                line: sources.get(place).copied().unwrap_or(0),
            })
        }
        Err(AssemblyFault::Memory) => Err(CodeFault::Memory),
        Err(fault) => Err(CodeFault::Assembly(fault)),
    }
}

/// The program of code whose items are placed.
fn placed_program(
    alloc: Global,
    worker: &Worker,
    code: &Code,
    arranged: &Arranged,
) -> Result<Program, CodeFault>
    requires { AreBetween 0 arranged.now.words arranged.now.placed.items }
    ensures { IfOk result (IsBuilt worker.now code.now arranged.now.placed.items) }
{
    Ok(Program {
        version: Version::Two,
        workspace: START.saturating_add(arranged.words).max(MIN_WORKSPACE),
        start: START,
        packet: packet_words(worker),
        result: result_words(worker),
        loops: rows_of(alloc, &arranged.placed, code.loops())?,
        initial: initial_words(alloc, worker, arranged)?,
        lines: lines_of(alloc, worker, &arranged.placed, code.lines())?,
    })
}

/// The program of a worker's code with its image, or why there is none. The program is made of the code. Where control
/// flows in the code from the first place to its end, the image breaks no rule on instructions, loops and jumps.
pub fn program_of(alloc: Global, worker: &Worker, code: &Code) -> Result<Compiled, CodeFault>
    ensures image { IfOk result (λ compiled. IsAssembly compiled.program compiled.assembled.image) }
    ensures addresses { IfOk result (λ compiled. AreItsAddresses compiled.program compiled.assembled.addresses.items) }
    ensures built { IfOk result (λ compiled. IsBuilt worker.now code.now compiled.placed.items compiled.program) }
    ensures rules { IfOk result (λ compiled. code.now.base ≡ 0 → Ends code.now → GivesRuled compiled.program) }
{
    check_loops(code.loops())?;
    let uses = uses_of(alloc, worker, code)?;
    check_workspace(&uses)?;
    let arranged = layout(alloc, &uses)?;
    let sources = sources_of(alloc, code.lines())?;
    let program = placed_program(alloc, worker, code, &arranged)?;
    let assembled = assembled(alloc, &program, &sources)?;
    Ok(Compiled {
        program,
        assembled,
        sources,
        loop_lines: loop_lines(alloc, code.loops())?,
        placed: arranged.placed,
    })
}
