//! Constants of the text: sizes, starts, counts, the elements of tables.

use crate::checker::{Checker, Frame};
use crate::limits::MAX_DEPTH;
use crate::trees::span_of;
use crate::value::{Constness, Value};
use tpw_occam_faults::{FaultKind, Interrupt};
use tpw_occam_meaning::Expression;
use tpw_occam_terms::{Primitive, Span};

impl<'t, 'a> Checker<'t, 'a> {
    /// The constant that a value at a place is.
    pub(crate) fn constant_of(&mut self, value: Value, span: Span) -> Result<u32, Interrupt> {
        match value.constness {
            Constness::Constant(word) => Ok(word),
            Constness::Flagged(at) => Err(self.fault(at, FaultKind::SetsFlag)),
            Constness::Computed => Err(self.fault(span, FaultKind::NotConstant)),
        }
    }

    /// The constant of a type that is wanted.
    pub fn constant(
        &mut self,
        frame: Frame,
        e: &'t Expression<'a>,
        of: Primitive,
    ) -> Result<u32, Interrupt> {
        let value = self.expression(frame, e, Some(of), MAX_DEPTH)?;
        self.constant_of(value, span_of(e))
    }
}
