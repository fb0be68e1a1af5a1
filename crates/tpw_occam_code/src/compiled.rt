//! From a worker to its program.

ghost use Rattle.std.specs.Prelude.{◌≡◌, IfOk, IsTrue};
ghost use Rattle.tpw_occam_core.specs.Sound.{is_sound};
ghost use Rattle.tpw_asm.specs.Assembly.{AreItsAddresses, IsAssembly};
ghost use Rattle.tpw_occam_symbolic.specs.Program.{Means, GivesRuled};
ghost use Rattle.tpw_occam_symbolic.specs.Flowing.{Ends};
ghost use Rattle.tpw_occam_code.specs.Starting.{Works};

use crate::messages::{receive, send};
use crate::processes::process;
use std::alloc::Global;
use tpw_occam_core::Worker;
use tpw_occam_expressions::Emitter;
use tpw_occam_symbolic::{Code, CodeFault, Compiled, program_of};

/// The code of a worker.
fn code_of(alloc: Global, worker: &Worker) -> Result<Code, CodeFault>
    ensures works { IfOk result (λ code. IsTrue (is_sound worker.now) → Works worker.now code) }
    ensures ends { IfOk result (λ code. Ends code) }
{
    let mut emitter = Emitter::new(alloc, worker)?;
    let mut code = Code::new(alloc);
    receive(&emitter, &mut code, worker.receive, worker.receive_line)?;
    process(&mut emitter, &mut code, &worker.body, worker.receive_line)?;
    send(&mut emitter, &mut code, &worker.send, worker.send_line)?;
    Ok(code)
}

/// The program of a worker with its image, or why there is none. The program means what the worker does, and its image
/// breaks no rule on instructions, loops and jumps.
pub fn compile(alloc: Global, worker: &Worker) -> Result<Compiled, CodeFault>
    ensures image { IfOk result (λ compiled. IsAssembly compiled.program compiled.assembled.image) }
    ensures addresses { IfOk result (λ compiled. AreItsAddresses compiled.program compiled.assembled.addresses.items) }
    ensures means { IfOk result (λ compiled. IsTrue (is_sound worker.now) → Means worker.now compiled.program) }
    ensures rules { IfOk result (λ compiled. IsTrue (is_sound worker.now) → GivesRuled compiled.program) }
{
    let code = code_of(alloc, worker)?;
    program_of(alloc, worker, &code)
}
