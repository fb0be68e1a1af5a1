//! The words of a command line.

ghost use Rattle.std.specs.Prelude.{◌≡◌, IfOk, IfErr};
ghost use Rattle.std.specs.Vec.Iter.{into_iter_items};
ghost use Rattle.std.specs.IoError.{error_kind};
ghost use Rattle.tp_program.specs.declared.ending.Ending.TheVariants.{Fault};
ghost use Rattle.tp_program.specs.Endings.{ending_without};

use crate::ending::Ending;
use std::alloc::{AllocError, Global};
use std::env::Args;
use std::io;
use std::io::ErrorKind;
use tp_session::ServeFault;

/// The words as a list.
fn listed(words: Args, alloc: Global) -> Result<Vec<String>, AllocError>
    ensures { IfOk result (λ all. all.items ≡ into_iter_items words) }
{
    let mut all = Vec::new(alloc);
    for word in words {
        all.push(word)?;
    }
    Ok(all)
}

/// The words of the command line, the first of which names the program.
pub fn words_of(words: io::Result<Args>, alloc: Global) -> Result<Vec<String>, Ending>
    ensures words { IfOk words (λ given. IfOk result (λ all. all.items ≡ into_iter_items given)) }
    ensures want { IfOk words (λ given. IfErr result (λ ending. ending ≡ Fault ServeFault.Memory)) }
    ensures none { IfErr words (λ error. result ≡ Err (ending_without (error_kind error))) }
{
    match words {
        Ok(words) => Ok(listed(words, alloc)?),
        Err(error) => Err(match error.kind() {
            ErrorKind::OutOfMemory => Ending::Fault(ServeFault::Memory),
            _ => Ending::NotText,
        }),
    }
}
