//! Operations that set the error flag wherever they are worked out, as constants show.

use crate::checker::Checker;
use crate::value::{Constness, Value};
use tpw_occam_faults::{Flagging, Interrupt, NoteKind};
use tpw_occam_meaning::Dyadic;
use tpw_occam_terms::Span;

/// The bits of a word, below which the count of a shift is.
const WORD_BITS: u32 = 32;

/// Whether the left operand of an operator decides, so that the right one is not worked out.
pub(crate) fn decides(operator: Dyadic, left: Constness) -> bool {
    match (operator, left) {
        (Dyadic::And, Constness::Constant(word)) => word == 0,
        (Dyadic::Or, Constness::Constant(word)) => word != 0,
        _ => false,
    }
}

/// The flag that a constant right operand sets, whatever the left one is.
fn shown_by_right(operator: Dyadic, right: u32) -> Option<Flagging> {
    match operator {
        Dyadic::ShiftLeft | Dyadic::ShiftRight if right >= WORD_BITS => Some(Flagging::Shift {
            count: right.cast_signed(),
        }),
        Dyadic::Divide | Dyadic::Remainder | Dyadic::Rem if right == 0 => Some(Flagging::Division),
        _ => None,
    }
}

/// The flag that an operator sets at a place, if constants show it.
fn shown(operator: Dyadic, right: Constness, made: Constness, span: Span) -> Option<Flagging> {
    let by_right = match right {
        Constness::Constant(word) => shown_by_right(operator, word),
        _ => None,
    };
    match made {
        Constness::Flagged(at) if at == span => Some(by_right.unwrap_or(Flagging::Constants)),
        _ => by_right,
    }
}

impl<'t, 'a> Checker<'t, 'a> {
    /// The value of an operator on two at a place; a warning where constants show that it sets the flag.
    pub(crate) fn noted_two(
        &mut self,
        operator: Dyadic,
        right: Constness,
        made: Value,
        span: Span,
    ) -> Result<Value, Interrupt> {
        if let Some(flagging) = shown(operator, right, made.constness, span) {
            self.findings.note(span, NoteKind::Flag(flagging))?;
        }
        Ok(made)
    }

    /// The value of an operator on one at a place; a warning where that is no INT.
    pub(crate) fn noted_one(&mut self, made: Value, span: Span) -> Result<Value, Interrupt> {
        match made.constness {
            Constness::Flagged(at) if at == span => {
                self.findings
                    .note(span, NoteKind::Flag(Flagging::Constants))?;
            }
            _ => {}
        }
        Ok(made)
    }

    /// `BYTE` of an INT at a place; it is noted where a constant is none.
    pub(crate) fn noted_byte(
        &mut self,
        e: Value,
        made: Value,
        span: Span,
    ) -> Result<Value, Interrupt> {
        match (e.constness, made.constness) {
            (Constness::Constant(word), Constness::Flagged(_)) => {
                let value = word.cast_signed();
                self.findings
                    .note(span, NoteKind::Flag(Flagging::Byte { value }))?;
            }
            _ => {}
        }
        Ok(made)
    }
}
