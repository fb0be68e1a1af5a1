//! Why a command fails.

ghost use Rattle.std.specs.Prelude.{◌≡◌, IfOk};
ghost use Rattle.tpw_files.specs.declared.failure.Failure.TheVariants as failure;
ghost use Rattle.tpw_files.specs.Failures.{of_assembler, of_image, of_source};
ghost use Rattle.tpw_files.specs.Names.{IsInFile};

use crate::fault::InputFault;
use crate::input::is_standard;
use std::alloc::{AllocError, AllocFailed, Global};
use std::io;
use thiserror::Error;
use tp_image::ImageFault;
use tpw_asm::AssemblyFault;
use tpw_debug::{Diagnostic, ShowFault};
use tpw_text::{SourceFault, TextFault as SourceKind};

/// Why a command fails, with its text.
#[derive(Debug, Drop, Error)]
pub enum Failure {
    /// The file of this name is none that the command takes.
    #[error("{0}{1}\n")]
    File(String, InputFault),
    /// Standard input, where a file is asked for, is none that the command takes.
    #[error("tpw: standard input{0}\n")]
    InStandard(InputFault),
    /// The text of the command's input is none that it takes: what is wrong with it, which the program reports.
    #[error("")]
    Text(Vec<Diagnostic>),
    /// A thread could not be started.
    #[error("tpw: thread\n")]
    Thread,
    /// An input is none that the command takes. The program names the input.
    #[error("tpw{0}\n")]
    Input(InputFault),
    /// Standard output could not be written.
    #[error("tpw: write\n")]
    Write,
    /// Standard output could not be written, and this is why.
    #[error("tpw: write: {0}\n")]
    Unwritten(io::Error),
    /// A growth was refused.
    #[error("tpw: memory\n")]
    Memory,
}

impl Failure {
    /// The same, where a fault of an input is one of the file of a name.
    pub fn in_file(self, alloc: Global, name: &str) -> Result<Failure, AllocError>
        ensures { IfOk result (IsInFile name.now self) }
    {
        match self {
            Failure::Input(fault) if is_standard(name) => Ok(Failure::InStandard(fault)),
            Failure::Input(fault) => Ok(Failure::File(String::from_str(alloc, name)?, fault)),
            failure => Ok(failure),
        }
    }
}

impl From<ImageFault> for Failure {
    ghost from_gives = { λ fault e. e ≡ of_image fault };

    fn from(fault: ImageFault) -> Self {
        match fault {
            ImageFault::Memory => Failure::Memory,
            ImageFault::Refused { .. } => Failure::Input(InputFault::Image(fault)),
        }
    }
}

impl From<SourceFault> for Failure {
    ghost from_gives = { λ fault e. e ≡ of_source fault };

    fn from(fault: SourceFault) -> Self {
        match fault.fault {
            SourceKind::Memory => Failure::Memory,
            _ => Failure::Input(InputFault::Source(fault)),
        }
    }
}

impl From<AssemblyFault> for Failure {
    ghost from_gives = { λ fault e. e ≡ of_assembler fault };

    fn from(fault: AssemblyFault) -> Self {
        match fault {
            AssemblyFault::Memory => Failure::Memory,
            _ => Failure::Input(InputFault::Assembly(fault)),
        }
    }
}

impl From<ShowFault> for Failure {
    fn from(fault: ShowFault) -> Self {
        match fault {
            ShowFault::Memory => Failure::Memory,
            ShowFault::Write => Failure::Write,
        }
    }
}

impl From<AllocError> for Failure {
    ghost from_gives = { λ _ e. e ≡ failure.Memory };

    fn from(_: AllocError) -> Self {
        Failure::Memory
    }
}

impl<T: Drop> From<AllocFailed<T>> for Failure {
    ghost from_gives = { λ _ e. e ≡ failure.Memory };

    fn from(_: AllocFailed<T>) -> Self {
        Failure::Memory
    }
}
