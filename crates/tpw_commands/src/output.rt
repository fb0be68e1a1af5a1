//! Standard output, and why it could not be written.

ghost use Rattle.std.specs.Prelude.{◌≡◌, ◌≤◌, None};
ghost use Rattle.tpw_commands.specs.Endings.{settled, status_by};

use std::io;
use std::io::{ErrorKind, Write};
use tpw_command_line::Ending;
use tpw_files::{Failure, Outcome};

/// A writer, and why it has failed, if it has.
#[derive(Drop)]
pub struct Output<W> {
    pub writer: W,
    pub fault: Option<io::Error>,
}

impl<W> Output<W> {
    /// A writer that has not failed.
    pub fn new(writer: W) -> Output<W>
        ensures writer { result.writer ≡ writer }
        ensures fault { result.fault ≡ None }
    {
        Output {
            writer,
            fault: None,
        }
    }
}

impl<W: Write> Write for Output<W> {
    ghost contents = { λ o. W.contents o.writer };

    fn write(&mut self, buf: &[u8]) -> io::Result<usize> {
        match self.writer.write(buf) {
            Ok(count) => Ok(count),
            Err(error) => {
                self.fault = Some(error);
                Err(error)
            }
        }
    }

    fn flush(&mut self) -> io::Result<()> {
        match self.writer.flush() {
            Ok(()) => Ok(()),
            Err(error) => {
                self.fault = Some(error);
                Err(error)
            }
        }
    }
}

/// The outcome of a command that has failed, beside why its output could not be written: that the reader of that has
/// gone is no fault.
pub fn settle(failure: Failure, fault: Option<io::Error>) -> Result<Outcome, Ending>
    ensures said { result ≡ settled fault failure }
    ensures status { status_by result ≤ 1 }
{
    let Some(error) = fault else {
        return Err(Ending::Failed(failure));
    };
    match failure {
        Failure::Write => match error.kind() {
            ErrorKind::BrokenPipe => Ok(Outcome::Good),
            _ => Err(Ending::Failed(Failure::Unwritten(error))),
        },
        failure => Err(Ending::Failed(failure)),
    }
}
