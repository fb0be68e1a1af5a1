ghost use Rattle.std.specs.Prelude.{◌≡◌};
ghost use Rattle.tp_session.specs.declared.fault.ServeFault.{ServeFault};
ghost use Rattle.tp_session.specs.declared.fault.ServeFault.TheVariants.{Memory};

use std::alloc::{AllocError, AllocFailed};
use std::error::Error;
use std::fmt;

/// Why serving ended before the end of its input. The sessions are gone, and the links are dropped.
#[derive(Clone, Copy, Debug, PartialEq, Eq)]
pub enum ServeFault {
    /// The reader failed. The answers of all whole lines before are written.
    Read,
    /// The writer failed, took no byte, or could not be flushed. A beginning of the answers is written.
    Write,
    /// Out of memory. The answers of the lines before the one that needed it are written.
    Memory,
    /// A member's thread could not be started. The answers of the lines before the one that needed it are written.
    Thread,
}

impl fmt::Display for ServeFault {
    ghost use Rattle.std.specs.Prelude.{Some};
    ghost use Rattle.tp_session.specs.Faults.{fault_text};

    ghost output = { λ fault. Some (fault_text fault) };

    fn fmt<W: fmt::Write>(&self, f: &mut fmt::Formatter<W>) -> fmt::Result {
        f.write_str(match self {
            ServeFault::Read => "read",
            ServeFault::Write => "write",
            ServeFault::Memory => "memory",
            ServeFault::Thread => "thread",
        })
    }
}

impl Error for ServeFault {}

impl From<AllocError> for ServeFault {
    ghost from_gives = { λ _ e. e ≡ Memory };

    fn from(_: AllocError) -> Self {
        ServeFault::Memory
    }
}

impl<T: Drop> From<AllocFailed<T>> for ServeFault {
    ghost from_gives = { λ _ e. e ≡ Memory };

    fn from(_: AllocFailed<T>) -> Self {
        ServeFault::Memory
    }
}
