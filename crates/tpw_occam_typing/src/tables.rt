//! Arrays and tables.

use crate::checker::{Checker, Frame};
use crate::environment::{Access, Storage, View};
use crate::signatures::Shape;
use crate::trees::{bare, span_of};
use crate::value::Value;
use std::alloc::AllocError;
use tpw_occam_core::Kind;
use tpw_occam_faults::{FaultKind, Interrupt, Use};
use tpw_occam_meaning::{Expression as Tree, Expressions};
use tpw_occam_names::element_type;
use tpw_occam_terms::{Span, text_bytes};

/// Appends an element's bytes.
fn put_element(bytes: &mut Vec<u8>, kind: Kind, word: u32) -> Result<(), AllocError> {
    let [b0, b1, b2, b3] = word.to_le_bytes();
    bytes.push(b0)?;
    if kind == Kind::Word {
        bytes.push(b1)?;
        bytes.push(b2)?;
        bytes.push(b3)?;
    }
    Ok(())
}

impl<'t, 'a> Checker<'t, 'a> {
    /// The table of these bytes.
    fn table(&mut self, kind: Kind, bytes: Vec<u8>, span: Span) -> Result<View, Interrupt> {
        let count = match kind {
            Kind::Word => bytes.len() / 4,
            Kind::Byte => bytes.len(),
        };
        let count = u32::try_from(count).unwrap_or(u32::MAX);
        let elements = self.elements(kind, count, span)?;
        Ok(View {
            storage: Storage::Table(self.table_of(bytes)?),
            kind,
            elements,
            access: Access::Read,
        })
    }

    /// A text, as a table of a shape.
    fn text(&mut self, spelled: &str, shape: Shape, span: Span) -> Result<View, Interrupt> {
        let bytes = text_bytes(self.alloc, spelled)?;
        let view = self.table(Kind::Byte, bytes, span)?;
        self.of_shape(view, shape, span)
    }

    /// Appends the bytes of a constant that was made, and returns whether it was made without a fault.
    fn put_constant(
        &mut self,
        bytes: &mut Vec<u8>,
        kind: Kind,
        made: Result<Value, Interrupt>,
        span: Span,
    ) -> Result<bool, Interrupt> {
        let word = match made {
            Ok(value) => self.constant_of(value, span),
            Err(stop) => Err(stop),
        };
        match word {
            Ok(word) => {
                put_element(bytes, kind, word)?;
                Ok(true)
            }
            Err(Interrupt::Reported) => Ok(false),
            Err(stop) => Err(stop),
        }
    }

    /// The bytes of constants.
    #[cycle(expressions)]
    fn list(
        &mut self,
        frame: Frame,
        items: &'t Expressions<'a>,
        kind: Kind,
        depth: u32,
    ) -> Result<Vec<u8>, Interrupt> {
        let mut bytes = Vec::new(self.alloc);
        let mut is_whole = true;
        let mut rest = items;
        while let Expressions::More(item, more) = rest {
            let value = self.expression(frame, item, Some(element_type(kind)), depth);
            is_whole &= self.put_constant(&mut bytes, kind, value, span_of(item))?;
            rest = more;
        }
        if is_whole {
            Ok(bytes)
        } else {
            Err(Interrupt::Reported)
        }
    }

    /// An array or a table of a shape.
    #[cycle(expressions)]
    pub fn array(
        &mut self,
        frame: Frame,
        e: &'t Tree<'a>,
        shape: Shape,
        depth: u32,
    ) -> Result<View, Interrupt> {
        let e = bare(e);
        self.count(frame, span_of(e))?;
        match e {
            Tree::Name(name) => {
                let view = self.view_of(frame.scope, *name)?;
                self.of_shape(view, shape, name.span)
            }
            Tree::Text { spelled, span } => self.text(spelled, shape, *span),
            Tree::Table { items, span } => {
                let bytes = self.list(frame, items, shape.kind, depth)?;
                let view = self.table(shape.kind, bytes, *span)?;
                self.of_shape(view, shape, *span)
            }
            Tree::Channel { name, .. } => Err(self.no_channel(frame.scope, *name, Use::Array)),
            other => Err(self.fault(span_of(other), FaultKind::ArrayWanted)),
        }
    }
}
