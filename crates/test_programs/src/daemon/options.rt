//! Command lines, with the members and the trace flag that they ask for, and the kinds of error of others.

use crate::asserts::assert_same;
use clap::error::ErrorKind as Kind;
use std::alloc::Global;
use tp_program::options;

/// The members and the trace flag that words ask for, or the kind of their error. Nothing is said of it here: the
/// tests compare it when they run.
fn asked(alloc: Global, words: &[&str]) -> Result<(usize, bool), Kind> {
    match options(alloc, words) {
        Ok(options) => Ok((options.members, options.trace)),
        Err(error) => Err(error.kind()),
    }
}

#[test]
fn reads_options(rt: HostRuntime) {
    let cases = [
        (["farmd"].as_slice(), 4, false),
        (["./farmd"].as_slice(), 4, false),
        (["farmd", "--members", "1"].as_slice(), 1, false),
        (["farmd", "--members", "64"].as_slice(), 64, false),
        (["farmd", "--members=7"].as_slice(), 7, false),
        (["farmd", "--trace"].as_slice(), 4, true),
        (["farmd", "--members", "2", "--trace"].as_slice(), 2, true),
        (["farmd", "--trace", "--members=3"].as_slice(), 3, true),
    ];
    for (words, members, trace) in cases {
        assert_same(&rt, &asked(rt.alloc(), words), &Ok((members, trace)));
    }
}

#[test]
fn errors_have_kinds(rt: HostRuntime) {
    let cases = [
        (
            ["farmd", "--members", "0"].as_slice(),
            Kind::ValueValidation,
        ),
        (["farmd", "--members=65"].as_slice(), Kind::ValueValidation),
        (
            ["farmd", "--members=four"].as_slice(),
            Kind::ValueValidation,
        ),
        (["farmd", "--members"].as_slice(), Kind::InvalidValue),
        (["farmd", "--member", "4"].as_slice(), Kind::UnknownArgument),
        (["farmd", "LIST"].as_slice(), Kind::UnknownArgument),
        (
            ["farmd", "--trace", "--trace"].as_slice(),
            Kind::ArgumentConflict,
        ),
        (["farmd", "--help"].as_slice(), Kind::DisplayHelp),
        (["farmd", "-h"].as_slice(), Kind::DisplayHelp),
        (["farmd", "--version"].as_slice(), Kind::DisplayVersion),
    ];
    for (words, kind) in cases {
        assert_same(&rt, &asked(rt.alloc(), words), &Err(kind));
    }
}
