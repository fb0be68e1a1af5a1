//! Arrays, and tables that are written where they are used.

ghost use Rattle.std.specs.Prelude.{◌≡◌, ◌++◌, Some, IfOk};
ghost use Rattle.tpw_occam_core.specs.Arrays.{size};
ghost use Rattle.tpw_occam_meaning.specs.Expressions as text;
ghost use Rattle.tpw_occam_meaning.specs.Maybe.{and_then};
ghost use Rattle.tpw_occam_names.specs.Scopes.{view_of, shape_of};
ghost use Rattle.tpw_occam_resolving.specs.Passing.{array_made};
ghost use Rattle.tpw_occam_scoped.specs.Made.{storage_made};

use std::alloc::Global;
use tpw_occam_core::Kind;
use tpw_occam_names::{Fault, Shape, Storage, View};
use tpw_occam_scoped::Bytes;

/// An array as a name shows it, or a table that is written where it is used.
#[derive(Drop)]
pub enum Array<'s> {
    Named(View<'s>),
    Written { kind: Kind, bytes: Vec<u8> },
}

/// How many elements this many bytes have.
fn elements(kind: Kind, bytes: &[u8]) -> usize
    ensures { result ≡ size kind bytes.now }
{
    match kind {
        Kind::Word => bytes.len() / 4,
        Kind::Byte => bytes.len(),
    }
}

/// An array, as a name for it shows it.
pub fn view<'r>(array: &'r Array<'r>) -> View<'r>
    ensures { view_of result ≡ array_made array.now }
{
    match array {
        Array::Named(view) => *view,
        Array::Written { kind, bytes } => View {
            storage: Storage::Table(bytes),
            kind: *kind,
            size: elements(*kind, bytes),
            is_variable: false,
        },
    }
}

/// The bytes of an array, to be copied or sent.
pub(crate) fn bytes(alloc: Global, view: View<'_>) -> Result<Bytes, Fault>
    ensures { IfOk result (λ b. storage_made b ≡ (view_of view.entry).storage) }
{
    match view.storage {
        Storage::Array(a) => Ok(Bytes::Array(a)),
        Storage::Table(table) => Ok(Bytes::Table(Vec::from_slice(alloc, table)?)),
    }
}

fn has_kind(wanted: Kind, kind: Kind) -> bool
    ensures { result ≡ text.has_kind wanted kind }
{
    match (wanted, kind) {
        (Kind::Word, Kind::Word) | (Kind::Byte, Kind::Byte) => true,
        (Kind::Word, Kind::Byte) | (Kind::Byte, Kind::Word) => false,
    }
}

fn has_size(wanted: Option<usize>, size: usize) -> bool
    ensures { result ≡ text.has_size wanted size }
{
    match wanted {
        None => true,
        Some(wanted) => size == wanted,
    }
}

/// An array, where it has the shape that is wanted.
pub(crate) fn fitting(shape: Shape, view: View<'_>) -> Result<View<'_>, Fault>
    ensures { IfOk result (λ v. text.fitting (shape_of shape) (view_of view.entry) ≡ Some (view_of v)) }
{
    let fits = has_kind(shape.kind, view.kind)
        && has_size(shape.size, view.size)
        && (view.is_variable || !shape.is_variable);
    if fits {
        Ok(View {
            storage: view.storage,
            kind: view.kind,
            size: view.size,
            is_variable: shape.is_variable,
        })
    } else {
        Err(Fault::Wrong)
    }
}

/// An array that is named, where it has the shape that is wanted.
pub(crate) fn named_array(shape: Shape, view: View<'_>) -> Result<Array<'_>, Fault>
    ensures { IfOk result (λ a. text.fitting (shape_of shape) (view_of view.entry) ≡ Some (array_made a)) }
{
    Ok(Array::Named(fitting(shape, view)?))
}

/// A table, where it has the shape that is wanted.
pub(crate) fn table<'s>(kind: Kind, bytes: Vec<u8>, shape: Shape) -> Result<Array<'s>, Fault>
    ensures { IfOk result (λ a. and_then (text.table kind bytes.items) (text.fitting (shape_of shape)) ≡ Some (array_made a)) }
{
    let fits = !bytes.is_empty()
        && has_kind(shape.kind, kind)
        && has_size(shape.size, elements(kind, &bytes))
        && !shape.is_variable;
    if fits {
        Ok(Array::Written { kind, bytes })
    } else {
        Err(Fault::Wrong)
    }
}

/// The bytes of an element, and more.
pub(crate) fn with_element(
    alloc: Global,
    kind: Kind,
    word: u32,
    more: &[u8],
) -> Result<Vec<u8>, Fault>
    ensures { IfOk result (λ bytes. bytes.items ≡ text.element_bytes kind word ++ more.now) }
{
    let mut bytes = Vec::new(alloc);
    match kind {
        Kind::Word => bytes.extend_from_slice(&word.to_le_bytes())?,
        Kind::Byte => match u8::try_from(word) {
            Ok(byte) => bytes.push(byte)?,
            Err(_) => return Err(Fault::Wrong),
        },
    }
    bytes.extend_from_slice(more)?;
    Ok(bytes)
}
