//! The shapes of arrays.

use crate::checker::{Checker, Frame};
use crate::environment::View;
use crate::limits::MAX_ARRAY_BYTES;
use crate::signatures::Shape;
use crate::trees::{Size, bytes_of, element_kind, size_of, span_of};
use tpw_occam_core::Kind;
use tpw_occam_faults::{FaultKind, Interrupt};
use tpw_occam_meaning::Type;
use tpw_occam_names::element_type;
use tpw_occam_terms::{FaultKind as Misread, Primitive, Span, Wanted};

impl<'t, 'a> Checker<'t, 'a> {
    /// The number of elements of an array that is declared, where it may have that number.
    pub(crate) fn elements(&mut self, kind: Kind, word: u32, span: Span) -> Result<u32, Interrupt> {
        if word > 0 && word.cast_signed() > 0 && bytes_of(kind, word) <= MAX_ARRAY_BYTES {
            Ok(word)
        } else {
            let elements = i64::from(word.cast_signed());
            let bytes = bytes_of(kind, word);
            Err(self.fault(span, FaultKind::ArraySize { elements, bytes }))
        }
    }

    /// The kind in the core of elements of a type.
    pub fn kind_of(&mut self, of: Primitive, span: Span) -> Result<Kind, Interrupt> {
        match element_kind(of) {
            Some(kind) => Ok(kind),
            None => Err(self.fault(span, FaultKind::BoolElements)),
        }
    }

    /// The shape of a type that is an array.
    pub fn shape(
        &mut self,
        frame: Frame,
        of: &'t Type<'a>,
        span: Span,
    ) -> Result<Shape, Interrupt> {
        let kind = self.kind_of(of.of, span)?;
        match size_of(of) {
            Size::One => Err(self.fault(span, FaultKind::ArrayWanted)),
            Size::Several => Err(self.fault(
                span,
                FaultKind::Syntax(Misread::Wanted(Wanted::Type)),
            )),
            Size::Open => Ok(Shape {
                kind,
                elements: None,
            }),
            Size::Of(e) => {
                let word = self.constant(frame, e, Primitive::Int)?;
                let elements = self.elements(kind, word, span_of(e))?;
                Ok(Shape {
                    kind,
                    elements: Some(elements),
                })
            }
        }
    }

    /// An array, where it has the shape that is wanted.
    pub fn of_shape(&mut self, view: View, shape: Shape, span: Span) -> Result<View, Interrupt> {
        if view.kind != shape.kind {
            let kind = FaultKind::Elements {
                wanted: element_type(shape.kind),
                found: element_type(view.kind),
            };
            return Err(self.fault(span, kind));
        }
        match shape.elements {
            Some(wanted) if wanted != view.elements => {
                let found = view.elements;
                Err(self.fault(span, FaultKind::Size { wanted, found }))
            }
            _ => Ok(view),
        }
    }
}
