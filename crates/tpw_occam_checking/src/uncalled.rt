//! PROCs and FUNCTIONs that are not called: their bodies are read once, for the faults of their types.

use crate::functions::valued;
use crate::processes::process;
use tpw_occam_faults::Interrupt;
use tpw_occam_typing::{Checker, Entry, Frame, MAX_DEPTH, Meaning};

/// How deep PROCs that are not called lie within one another, at the most.
const MAX_WITHIN: usize = 60;

/// The body of a PROC or a FUNCTION that is not called.
fn body<'t, 'a>(checker: &mut Checker<'t, 'a>, entry: Entry<'t, 'a>) -> Result<(), Interrupt> {
    match entry.meaning {
        Meaning::Procedure {
            signature,
            body,
            scope,
        } => {
            let scope = checker.as_declared(signature, scope)?;
            process(checker, Frame::OUTERMOST.with_scope(scope), body, MAX_DEPTH)
        }
        Meaning::Function {
            of,
            signature,
            value,
            scope,
        } => {
            let scope = checker.as_declared(signature, scope)?;
            let frame = Frame::OUTERMOST.with_scope(scope);
            checker.expression(frame, value, Some(of), MAX_DEPTH)?;
            Ok(())
        }
        Meaning::Routine {
            of,
            signature,
            body,
            scope,
        } => {
            let scope = checker.as_declared(signature, scope)?;
            let frame = Frame::OUTERMOST.with_scope(scope);
            let frame = frame.in_function(checker.cells.count());
            valued(checker, frame, body, of, MAX_DEPTH)
        }
        _ => Ok(()),
    }
}

/// Reads what is not called among the names from one on, up to another: the last first, which may call the others.
fn among<'t, 'a>(checker: &mut Checker<'t, 'a>, from: usize, to: usize) -> Result<(), Interrupt> {
    for index in (from..to).rev() {
        if let Some(entry) = checker.uncalled(index) {
            match body(checker, entry) {
                Err(Interrupt::Reported) => {}
                other => other?,
            }
        }
    }
    Ok(())
}

/// Reads what is not called, once the worker is read; and what is declared in it.
pub(crate) fn check_uncalled<'t, 'a>(checker: &mut Checker<'t, 'a>) -> Result<(), Interrupt> {
    checker.turn_to_uncalled();
    let mut from: usize = 0;
    for _ in 0..MAX_WITHIN {
        let to = checker.names();
        match among(checker, from, to) {
            Ok(()) => from = to,
            Err(Interrupt::Memory) => return Err(Interrupt::Memory),
            Err(_) => return Ok(()),
        }
    }
    Ok(())
}
