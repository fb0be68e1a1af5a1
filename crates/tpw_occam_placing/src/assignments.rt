//! Assignments and messages.

ghost use Rattle.std.specs.Prelude.{◌≡◌, IfOk};
ghost use Rattle.std.specs.List.{AllZip};
ghost use Rattle.tpw_occam_core.specs.Meaning.{Store, array_of};
ghost use Rattle.tpw_occam_meaning.specs.States.{State};
ghost use Rattle.tpw_occam_scoped.specs.Meaning.{bytes_in};
ghost use Rattle.tpw_occam_placing.specs.Placing.{Holds, IsTarget, IsAssignment, IsMessage};

use crate::expressions::expression;
use crate::scope::Scope;
use crate::tables::{Fault, Tables};
use std::alloc::Global;
use tpw_occam_core::{Assignment, Message, Target};
use tpw_occam_scoped as scoped;
use tpw_occam_scoped::Bytes;

/// The target of a worker that a scoped one becomes.
pub(crate) fn target(
    alloc: Global,
    tables: &Tables,
    scope: &Scope<'_>,
    to: &scoped::Target,
    room: u32,
) -> Result<Target, Fault>
    ensures { IfOk result (λ made. IsTarget tables.now scope.now to.now made) }
{
    match to {
        scoped::Target::Cell { cell, kind } => match tables.variable(scope, *cell) {
            Some(n) if tables.keeps(n, *kind) => Ok(Target::Variable(n)),
            _ => Err(Fault::Misplaced),
        },
        scoped::Target::Element {
            array,
            kind,
            subscript,
        } => {
            let Some(n) = tables.array(scope, *array) else {
                return Err(Fault::Misplaced);
            };
            Ok(Target::Element {
                array: n,
                kind: *kind,
                subscript: expression(alloc, tables, scope, subscript, room)?,
            })
        }
    }
}

/// The array of a worker that has bytes: an array's, or a table's.
pub(crate) fn bytes(tables: &Tables, scope: &Scope<'_>, from: &Bytes) -> Result<usize, Fault>
    ensures { IfOk result (λ n. (s : State) (t : Store) → Holds tables.now scope.now s t →
        array_of t n ≡ bytes_in from.now s) }
{
    let found = match from {
        Bytes::Array(array) => tables.array(scope, *array),
        Bytes::Table(table) => tables.table(table),
    };
    match found {
        Some(n) => Ok(n),
        None => Err(Fault::Misplaced),
    }
}

/// The message of a worker that a scoped one becomes.
pub(crate) fn message(
    alloc: Global,
    tables: &Tables,
    scope: &Scope<'_>,
    m: &scoped::Message,
    room: u32,
) -> Result<Message, Fault>
    ensures { IfOk result (λ made. IsMessage tables.now scope.now m.now made) }
{
    match m {
        scoped::Message::Value(e) => {
            Ok(Message::Value(expression(alloc, tables, scope, e, room)?))
        }
        scoped::Message::Whole(from) => Ok(Message::Array(bytes(tables, scope, from)?)),
    }
}

/// The assignment of a worker that a scoped one becomes.
fn assignment(
    alloc: Global,
    tables: &Tables,
    scope: &Scope<'_>,
    a: &scoped::Assignment,
    room: u32,
) -> Result<Assignment, Fault>
    ensures { IfOk result (λ made. IsAssignment tables.now scope.now a.now made) }
{
    Ok(Assignment {
        target: target(alloc, tables, scope, &a.target, room)?,
        value: expression(alloc, tables, scope, &a.value, room)?,
    })
}

/// The assignments of a worker that scoped ones become, each in its place.
pub(crate) fn assignments(
    alloc: Global,
    tables: &Tables,
    scope: &Scope<'_>,
    list: &[scoped::Assignment],
    room: u32,
) -> Result<Vec<Assignment>, Fault>
    ensures { IfOk result (λ made. AllZip (IsAssignment tables.now scope.now) list.now made.items) }
{
    let mut made = Vec::new(alloc);
    for a in list {
        made.push(assignment(alloc, tables, scope, a, room)?)?;
    }
    Ok(made)
}
