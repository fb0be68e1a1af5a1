//! Expressions.

ghost use Rattle.std.specs.Prelude.{◌≡◌, IfOk};
ghost use Rattle.tpw_occam_placing.specs.Placing.{IsPlaced, IsPlacedIn};

use crate::aliases::Aliases;
use crate::parts;
use crate::scope::Scope;
use crate::tables::{Fault, Tables};
use std::alloc::Global;
use tpw_occam_core::{Expression, Kind};
use tpw_occam_scoped::Expression as Scoped;

/// The expression of a worker that a scoped one becomes.
pub fn expression(
    alloc: Global,
    tables: &Tables,
    scope: &Scope<'_>,
    e: &Scoped,
    room: u32,
) -> Result<Expression, Fault>
    ensures { IfOk result (λ made. IsPlaced tables.now scope.now e.now made) }
{
    aliased(alloc, tables, scope, &Aliases::None, e, room)
}

/// The expression of a worker that a scoped one becomes where cells have the words of others.
fn aliased(
    alloc: Global,
    tables: &Tables,
    scope: &Scope<'_>,
    aliases: &Aliases<'_>,
    e: &Scoped,
    room: u32,
) -> Result<Expression, Fault>
    ensures { IfOk result (λ made. IsPlacedIn tables.now scope.now aliases.now e.now made) }
{
    if room == 0 {
        return Err(Fault::Deep);
    }
    match e {
        Scoped::Constant(c) => Ok(Expression::Constant(*c)),
        Scoped::Cell(x) => match tables.variable(scope, aliases.origin(*x)) {
            Some(n) => Ok(Expression::Variable(n)),
            None => Err(Fault::Misplaced),
        },
        Scoped::Element {
            array,
            kind,
            subscript,
        } => {
            let Some(n) = tables.array(scope, *array) else {
                return Err(Fault::Misplaced);
            };
            let subscript = aliased(alloc, tables, scope, aliases, subscript, room - 1)?;
            Ok(parts::element(alloc, n, *kind, subscript)?)
        }
        Scoped::Listed {
            table,
            kind,
            subscript,
        } => {
            let Some(n) = tables.table(table) else {
                return Err(Fault::Misplaced);
            };
            let subscript = aliased(alloc, tables, scope, aliases, subscript, room - 1)?;
            Ok(parts::element(alloc, n, *kind, subscript)?)
        }
        Scoped::Checked { below, subscript } => {
            let subscript = aliased(alloc, tables, scope, aliases, subscript, room - 1)?;
            Ok(parts::checked(alloc, *below, subscript)?)
        }
        Scoped::Binary {
            operator,
            left,
            right,
        } => {
            let left = aliased(alloc, tables, scope, aliases, left, room - 1)?;
            let right = aliased(alloc, tables, scope, aliases, right, room - 1)?;
            Ok(parts::binary(alloc, *operator, left, right)?)
        }
        Scoped::Complement(operand) => {
            let operand = aliased(alloc, tables, scope, aliases, operand, room - 1)?;
            Ok(parts::complement(alloc, operand)?)
        }
        Scoped::Not(operand) => {
            let operand = aliased(alloc, tables, scope, aliases, operand, room - 1)?;
            Ok(parts::not(alloc, operand)?)
        }
        Scoped::LowByte(operand) => {
            let operand = aliased(alloc, tables, scope, aliases, operand, room - 1)?;
            Ok(parts::byte(alloc, operand)?)
        }
        Scoped::And(left, right) => {
            let left = aliased(alloc, tables, scope, aliases, left, room - 1)?;
            let right = aliased(alloc, tables, scope, aliases, right, room - 1)?;
            Ok(parts::and(alloc, left, right)?)
        }
        Scoped::Or(left, right) => {
            let left = aliased(alloc, tables, scope, aliases, left, room - 1)?;
            let right = aliased(alloc, tables, scope, aliases, right, room - 1)?;
            Ok(parts::or(alloc, left, right)?)
        }
        Scoped::Within {
            cell,
            value,
            within,
            ..
        } => {
            if let Scoped::Cell(of) = &**value {
                let more = Aliases::Alias(*cell, *of, aliases);
                return aliased(alloc, tables, scope, &more, within, room - 1);
            }
            if aliases.mentions(*cell) {
                return Err(Fault::Misplaced);
            }
            let value = aliased(alloc, tables, scope, aliases, value, room - 1)?;
            let Some(n) = tables.free_variable(scope, *cell, Kind::Word) else {
                return Err(Fault::Misplaced);
            };
            let inner = Scope::Variable(n, scope);
            let within = aliased(alloc, tables, &inner, aliases, within, room - 1)?;
            Ok(parts::within(alloc, n, value, within)?)
        }
    }
}
