//! Why the program ends before the end of its input.

ghost use Rattle.std.specs.Prelude.{◌≡◌, IfErr};
ghost use Rattle.std.specs.Process.{exit_status};
ghost use Rattle.clap.specs.Words.{kind_of};
ghost use Rattle.tp_session.specs.declared.fault.ServeFault.TheVariants.{Memory};
ghost use Rattle.tp_program.specs.declared.ending.Ending.TheVariants.{Fault};
ghost use Rattle.tp_program.specs.Program.{fault_line};
ghost use Rattle.tp_program.specs.Endings.{Reports, IsConcluded, ending_by};

use clap::error::ErrorKind;
use std::alloc::{AllocError, AllocFailed};
use std::io::Write;
use std::process::ExitCode;
use tp_session::{ServeFault, write_whole};

/// Why the program ends before the end of its input.
#[derive(Debug, Drop)]
pub enum Ending {
    /// The command line asks for a text alone: for help, or for the version.
    Shown(clap::Error),
    /// The command line is refused.
    Refused(clap::Error),
    /// A word of the command line is not UTF-8.
    NotText,
    /// Serving ended with a fault, or was refused memory or a thread.
    Fault(ServeFault),
}

/// The line that reports a fault.
fn fault_line(fault: ServeFault) -> &'static [u8]
    ensures { result.now ≡ fault_line fault }
{
    match fault {
        ServeFault::Read => b"farmd: read\n".as_slice(),
        ServeFault::Write => b"farmd: write\n".as_slice(),
        ServeFault::Memory => b"farmd: memory\n".as_slice(),
        ServeFault::Thread => b"farmd: thread\n".as_slice(),
    }
}

/// Writes the line that reports a fault, as far as the stream takes it.
fn write_fault<E: Write>(errors: &mut E, fault: ServeFault)
    ensures { Reports (E.contents errors.old) (E.contents errors.new) fault }
{
    match write_whole(errors, fault_line(fault)) {
        Ok(()) => (),
        // There is nowhere left to report it.
        Err(_) => (),
    }
}

/// Reports a fault, as far as the stream takes it, and returns the status that it ends with.
pub(crate) fn report<E: Write>(errors: &mut E, fault: ServeFault) -> ExitCode
    ensures status { exit_status result ≡ 1 }
    ensures text { Reports (E.contents errors.old) (E.contents errors.new) fault }
{
    write_fault(errors, fault);
    ExitCode::FAILURE
}

/// Writes the text that a command line asks for, and flushes it.
fn show<W: Write>(writer: &mut W, text: &clap::Error) -> Result<(), ServeFault>
    ensures { IfErr result (λ fault. fault ≡ ServeFault.Write) }
{
    match write!(writer, "{text}").and_then(|()| writer.flush()) {
        Ok(()) => Ok(()),
        Err(_) => Err(ServeFault::Write),
    }
}

impl Ending {
    /// Writes the text that the command line asks for to `writer`, or why the program ends to `errors`, as far as the
    /// streams take it, and returns the status: 0 where a text was asked for, 1 after a fault, 2 where the command line
    /// is refused.
    pub fn conclude<W: Write, E: Write>(&self, writer: &mut W, errors: &mut E) -> ExitCode
        ensures { IsConcluded self.now (W.contents writer.old) (W.contents writer.new) (E.contents errors.old)
            (E.contents errors.new)
            (exit_status result) }
    {
        match self {
            Ending::Shown(text) => match show(writer, text) {
                Ok(()) => ExitCode::SUCCESS,
                Err(fault) => report(errors, fault),
            },
            Ending::Fault(fault) => report(errors, *fault),
            Ending::Refused(error) => {
                let _ = write!(errors, "{error}");
                ExitCode::from(2)
            }
            Ending::NotText => {
                let _ = errors.write_all(
                    b"error: a word of the command line is not UTF-8\n".as_slice(),
                );
                ExitCode::from(2)
            }
        }
    }
}

impl From<clap::Error> for Ending {
    ghost from_gives = { λ error ending. ending ≡ ending_by (kind_of error) error };

    fn from(error: clap::Error) -> Self {
        match error.kind() {
            ErrorKind::OutOfMemory => Ending::Fault(ServeFault::Memory),
            ErrorKind::DisplayHelp | ErrorKind::DisplayVersion => Ending::Shown(error),
            _ => Ending::Refused(error),
        }
    }
}

impl From<AllocError> for Ending {
    ghost from_gives = { λ _ ending. ending ≡ Fault Memory };

    fn from(_: AllocError) -> Self {
        Ending::Fault(ServeFault::Memory)
    }
}

impl<T: Drop> From<AllocFailed<T>> for Ending {
    ghost from_gives = { λ _ ending. ending ≡ Fault Memory };

    fn from(_: AllocFailed<T>) -> Self {
        Ending::Fault(ServeFault::Memory)
    }
}
