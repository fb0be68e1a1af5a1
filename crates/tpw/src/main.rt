//! `tpw`: tools for those who write workers. Text in, text out; a command reads a file where it is given one.
//!
//! `tpw step` runs an image an instruction at a time, and prints each; `tpw why` judges an image, and explains a
//! refusal; `tpw asm` makes an image of assembly text, and `tpw dis` a text of an image; `tpw run` runs packets on a
//! worker, and shows their results. Status 0: the command did what it was asked for, the image is accepted, or help or
//! the version was asked for. Status 1: the run has no end, the image is refused, a packet is lost or has another
//! result than is expected, what is read is no image or no program, or a read or a write failed; standard error names
//! what failed. That who reads the output has gone is no fault. Status 2: the command line is refused.
#![tactic(auto)]

use std::io;
use std::io::{BufWriter, IsTerminal, Write};
use std::process::ExitCode;
use tpw_commands::{Output, Terminal, run};

fn main(rt: HostRuntime) -> ExitCode {
    let mut reader = rt.reader();
    let mut errors = rt.stderr();
    let Ok(writer) = BufWriter::new(rt.alloc(), io::writer(&rt)) else {
        let _ = errors.write_all(b"tpw: memory\n");
        return ExitCode::from(1);
    };
    let mut output = Output::new(writer);
    let is_terminal = errors.is_terminal();
    let mut terminal = Terminal {
        errors: &mut errors,
        is_terminal,
    };
    run(
        &rt,
        &rt,
        rt.alloc(),
        &mut reader,
        &mut output,
        &mut terminal,
    )
}
