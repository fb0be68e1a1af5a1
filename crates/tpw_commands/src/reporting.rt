//! Diagnostics, written.

use std::alloc::Global;
use std::io::Write;
use tpw_assembly::diagnosed;
use tpw_debug::{Diagnostic, Report};
use tpw_files::{Failure, Input};

/// Writes diagnostics of the text of an input.
pub fn report<E: Write>(
    alloc: Global,
    errors: &mut E,
    input: &Input,
    text: &[u8],
    diagnostics: &[Diagnostic],
) -> Result<(), Failure> {
    let Ok(text) = str::from_utf8(text) else {
        return Ok(());
    };
    let name = format!(in alloc; "{input}")?;
    let report = Report {
        name: name.as_str(),
        text,
        diagnostics,
    };
    let _ = write!(errors, "{report}");
    Ok(())
}

/// Reports what is wrong with the text of an input. Returns the failure of the command that is left to be told, if one
/// is.
pub fn report_failure<E: Write>(
    alloc: Global,
    errors: &mut E,
    input: &Input,
    text: &[u8],
    failure: Failure,
) -> Option<Failure> {
    let failure = match failure {
        Failure::Input(fault) => diagnosed(alloc, text, fault),
        failure => failure,
    };
    match failure {
        Failure::Text(diagnostics) => report(alloc, errors, input, text, &diagnostics).err(),
        failure => Some(failure),
    }
}
