//! `farmd`: lines on standard input, answers on standard output.
//!
//! It ends with status 0 at the end of its input, and where help or the version was asked for. Where serving ends with
//! a fault, it writes `farmd: ` and the fault to standard error, and ends with status 1. A command line that is refused
//! gives its reason there, and status 2.
#![tactic(auto)]

use std::process::ExitCode;
use std::{env, io};
use tp_program::run;

fn main(rt: HostRuntime) -> ExitCode {
    let mut reader = rt.reader();
    let mut writer = io::writer(&rt);
    let mut errors = rt.stderr();
    run(
        &rt,
        env::args(&rt),
        rt.alloc(),
        &mut reader,
        &mut writer,
        &mut errors,
    )
}
