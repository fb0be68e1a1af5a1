//! The order in which assignments that are made together may be made one by one.

ghost use Rattle.std.specs.Prelude.{◌≡◌, ◌<◌, ◌+◌, ◌++◌, take, drop, length, IsTrue, IfSome, IfOk};
ghost use Rattle.tpw_occam_code.specs.declared.order.Move.TheVariants.{Keep, Make};
ghost use Rattle.tpw_occam_code.specs.Ordering.{target_reads, Precedes, PrecedesIn, MayGo, IsAlone, IsMove, Marks};
ghost use Rattle.tpw_occam_code.specs.Ordering.{AreAll, SettleAll, waiting_at};

use crate::analysis::{is_read, may_be_same};
use std::alloc::{AllocError, Global};
use tpw_occam_core::{Assignment, Target};

/// The next of the moves that make several assignments at once: parallel moves, sequentialised.
#[derive(Clone, Copy)]
pub(crate) enum Move {
    /// The value of the one with this number is kept in a word.
    Keep(usize),
    /// The one with this number is made; its value is kept already or is evaluated.
    Make(usize, bool),
}

/// An assignment that waits, by its number, and whether its value is kept.
#[derive(Clone, Copy)]
pub(crate) struct Waiting {
    pub(crate) number: usize,
    pub(crate) is_kept: bool,
}

/// Whether the subscript of a target reads another.
fn subscript_reads(target: &Target, other: &Target) -> bool
    ensures { result ≡ target_reads target.now other.now }
{
    match target {
        Target::Variable(_) => false,
        Target::Element {
            array: _,
            kind: _,
            subscript,
        } => is_read(subscript, other),
    }
}

/// Whether one assignment may be made before another that waits: the other reads nothing that it writes, and where
/// both may write to one place the other is the earlier one, since the last is written first.
fn precedes(one: &Assignment, other: &Assignment, is_kept: bool, is_earlier: bool) -> bool
    ensures { IsTrue result → Precedes one.now other.now is_kept is_earlier }
{
    if !is_kept && is_read(&other.value, &one.target) {
        return false;
    }
    if subscript_reads(&other.target, &one.target) {
        return false;
    }
    is_earlier || !may_be_same(&one.target, &other.target)
}

/// Whether one that waits may be made before another.
fn precedes_in(all: &[Assignment], one: Waiting, other: Waiting, is_earlier: bool) -> bool
    ensures { IsTrue result → PrecedesIn all.now one other is_earlier }
{
    if one.number >= all.len() || other.number >= all.len() {
        return false;
    }
    precedes(
        &all[one.number],
        &all[other.number],
        other.is_kept,
        is_earlier,
    )
}

/// Whether the one at a place may be made before all others that wait.
fn may_go(all: &[Assignment], waiting: &[Waiting], place: usize) -> bool
    ensures { IsTrue result → MayGo all.now waiting.now place }
{
    if place >= waiting.len() {
        return false;
    }
    let one = waiting[place];
    for (at, other) in waiting.iter().enumerate() {
        if at != place && !precedes_in(all, one, *other, at < place) {
            return false;
        }
    }
    true
}

/// The place, among those that wait, of the last that may be made next.
fn next_of(all: &[Assignment], waiting: &[Waiting]) -> Option<usize>
    ensures { IfSome result (λ place. MayGo all.now waiting.now place) }
{
    let mut found = None;
    for place in 0..waiting.len() {
        if may_go(all, waiting, place) {
            found = Some(place);
        }
    }
    found
}

/// Whether no other has the number of the one at a place. So it always is.
fn is_alone(waiting: &[Waiting], place: usize) -> bool
    ensures there { IsTrue result → place < length waiting.now }
    ensures alone { IsTrue result → IsAlone waiting.now place }
{
    if place >= waiting.len() {
        return false;
    }
    let one = waiting[place];
    for (at, other) in waiting.iter().enumerate() {
        if at != place && other.number == one.number {
            return false;
        }
    }
    true
}

/// The place, among those that wait, of the first whose value is not kept.
fn to_be_kept(waiting: &[Waiting]) -> Option<usize> {
    waiting.iter().position(|one| !one.is_kept)
}

/// Makes the one at a place.
fn make_at(waiting: &mut Vec<Waiting>, place: usize) -> Option<Move>
    ensures { IfSome result (λ move. (move
        ≡ Make (waiting_at waiting.old.items place).number (waiting_at waiting.old.items place).is_kept)
        × (waiting.new.items ≡ take place waiting.old.items ++ drop (place + 1) waiting.old.items)) }
{
    if place >= waiting.len() {
        return None;
    }
    let one = waiting.remove(place);
    Some(Move::Make(one.number, one.is_kept))
}

/// Keeps the value of the one at a place, if it is not kept yet.
fn keep_at(waiting: &mut Vec<Waiting>, place: usize) -> Option<Move>
    ensures { IfSome result (λ move. (move ≡ Keep (waiting_at waiting.old.items place).number)
        × Marks (waiting_at waiting.old.items place).number waiting.old.items waiting.new.items) }
{
    if !is_alone(waiting, place) {
        return None;
    }
    let one = waiting[place];
    if one.is_kept {
        return None;
    }
    waiting[place] = Waiting {
        number: one.number,
        is_kept: true,
    };
    Some(Move::Keep(one.number))
}

/// Makes the next move, if there is one.
fn next_move(all: &[Assignment], waiting: &mut Vec<Waiting>) -> Option<Move>
    ensures { IfSome result (λ move. IsMove all.now waiting.old.items move waiting.new.items) }
{
    if let Some(place) = next_of(all, waiting) {
        return make_at(waiting, place);
    }
    let place = to_be_kept(waiting)?;
    keep_at(waiting, place)
}

/// All assignments, waiting.
fn all_waiting(alloc: Global, count: usize) -> Result<Vec<Waiting>, AllocError>
    ensures { IfOk result (λ waiting. AreAll count waiting.items) }
{
    let mut waiting = Vec::with_capacity(alloc, count)?;
    for number in 0..count {
        waiting.push(Waiting {
            number,
            is_kept: false,
        })?;
    }
    Ok(waiting)
}

/// The moves by which assignments are made one by one, if there are such.
pub(crate) fn moves(alloc: Global, all: &[Assignment]) -> Result<Option<Vec<Move>>, AllocError>
    ensures { IfOk result (λ found. IfSome found (λ moves. SettleAll all.now moves.items)) }
{
    let mut waiting = all_waiting(alloc, all.len())?;
    let mut moves = Vec::new(alloc);
    for _ in 0..all.len().saturating_mul(2) {
        if waiting.is_empty() {
            break;
        }
        match next_move(all, &mut waiting) {
            Some(next) => moves.push(next)?,
            None => return Ok(None),
        }
    }
    // so it always is: each takes two moves at most
    if !waiting.is_empty() {
        return Ok(None);
    }
    Ok(Some(moves))
}

/// Whether moves keep a value.
pub(crate) fn keep_any(moves: &[Move]) -> bool {
    moves.iter().any(|one| match one {
        Move::Keep(_) => true,
        Move::Make(_, _) => false,
    })
}
