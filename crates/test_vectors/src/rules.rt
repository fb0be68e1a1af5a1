//! Cases of one instruction on one edge, and of two states.

ghost use Rattle.std.specs.Prelude.{◌≡◌, IfOk, length};

use crate::cells::{cells, changes};
use crate::fields::{byte, bytes, number, parted};
use crate::kinds::{kind, kind_text};
use anyhow::{Context, Result, anyhow, ensure};
use std::alloc::Global;
use tp_decode::decode;
use tp_flow::{Edge, check_flow};
use tp_image::read_image;
use tp_state::{Cells, State, StateFault, after};

/// A state of seven fields, with this many words.
fn state(alloc: Global, words: u32, fields: &[&str]) -> Result<State>
    ensures { IfOk result (λ state. length state.cells ≡ words) }
{
    let [wptr, phase, a, b, c, fill, named] = fields else {
        return Err(anyhow!("no state"));
    };
    Ok(State {
        wptr: number(wptr)?,
        a: kind(a)?,
        b: kind(b)?,
        c: kind(c)?,
        phase: byte(phase)?,
        cells: Cells::from_slice(alloc, &cells(alloc, words, fill, named)?)?,
    })
}

/// An outcome of six fields, with the words that differ from those before.
fn outcome(alloc: Global, before: &State, known: &State) -> Result<String> {
    let a = kind_text(alloc, known.a)?;
    let b = kind_text(alloc, known.b)?;
    let c = kind_text(alloc, known.c)?;
    let words = changes(
        alloc,
        &before.cells.to_vec(alloc)?,
        &known.cells.to_vec(alloc)?,
    )?;
    let State { wptr, phase, .. } = known;
    Ok(format!(in alloc; "{wptr} {phase} {a} {b} {c} {words}")?)
}

/// An edge by its name.
fn edge(name: &str) -> Result<Edge> {
    match name {
        "Next" => Ok(Edge::Next),
        "Taken" => Ok(Edge::Taken),
        "Back" => Ok(Edge::Back),
        "Out" => Ok(Edge::Out),
        _ => Err(anyhow!("no edge: {name}")),
    }
}

/// The state after the instruction at an address of an image, or the refusal.
pub(crate) fn after_case(alloc: Global, asked: &str) -> Result<String> {
    let fields = parted(alloc, asked)?;
    let [image, at, taken, before @ ..] = fields.as_slice() else {
        return Err(anyhow!("no case"));
    };
    let image = read_image(alloc, &bytes(alloc, image)?)?;
    let listing = decode(alloc, &image.code)?;
    let nest = check_flow(&image, &listing)?;
    let at = number(at)? as usize;
    let instr = listing.at(at).context("no instruction stands there")?;
    let next = listing.next(at).context("no instruction stands there")?;
    let before = state(alloc, image.workspace, before)?;
    ensure!(
        5 <= before.wptr && before.wptr < image.workspace,
        "Wptr is out of its range"
    );
    match after(alloc, &before, at, next, instr, edge(taken)?, &image, &nest) {
        Ok(known) => outcome(alloc, &before, &known),
        Err(StateFault::Refused { code, place }) => Ok(format!(in alloc; "{code} {place}")?),
        Err(StateFault::Memory) => Err(anyhow!("out of memory")),
    }
}

/// Two states of this many words.
fn two_states(alloc: Global, asked: &str) -> Result<(State, State)>
    ensures { IfOk result (λ states. length states.1.cells ≡ length states.0.cells) }
{
    let fields = parted(alloc, asked)?;
    let [words, states @ ..] = fields.as_slice() else {
        return Err(anyhow!("no case"));
    };
    let words = number(words)?;
    let (one, other) = states.split_at_checked(7).context("no two states")?;
    Ok((state(alloc, words, one)?, state(alloc, words, other)?))
}

/// The join of two states, or why they have none.
pub(crate) fn join_case(alloc: Global, asked: &str) -> Result<String> {
    let (mut one, other) = two_states(alloc, asked)?;
    let before = one.copy_of(alloc)?;
    match one.join(&other) {
        Ok(_) => outcome(alloc, &before, &one),
        Err(code) => Ok(format!(in alloc; "{code}")?),
    }
}

/// Whether the first of two states is below the second.
pub(crate) fn below_case(alloc: Global, asked: &str) -> Result<String> {
    let (one, other) = two_states(alloc, asked)?;
    let answer = if one.is_below(&other) { "yes" } else { "no" };
    Ok(format!(in alloc; "{answer}")?)
}
