//! The words of a state, as a fill and the words that differ from it, and the words that an outcome changes.

ghost use Rattle.std.specs.Prelude.{◌≡◌, ◌≤◌, IfOk, OnOk, length};

use crate::fields::{NOTHING, number};
use crate::kinds::{cell, cell_text};
use anyhow::{Context, Result, ensure};
use std::alloc::Global;
use tp_state::Cell;

/// The most words of a workspace.
pub(crate) const MAX_WORDS: u32 = 512;

/// The first and the last word of `word` or `first-last`.
fn ends_of(text: &str) -> Result<(usize, usize)> {
    match text.split_once("-") {
        Some((first, last)) => Ok((number(first)? as usize, number(last)? as usize)),
        None => {
            let word = number(text)? as usize;
            Ok((word, word))
        }
    }
}

/// Puts one cell into each word of a stretch.
fn put(cells: &mut [Cell], named: &str) -> Result<()>
    ensures { length cells.new ≡ length cells.old }
{
    let (words, text) = named.split_once("=").context("no cell of words")?;
    let (first, last) = ends_of(words)?;
    let found = cell(text)?;
    for it in cells.get_mut(first..=last).context("no such words")? {
        *it = found;
    }
    Ok(())
}

/// This many words, which hold the fill but for those that are named.
pub(crate) fn cells(alloc: Global, words: u32, fill: &str, named: &str) -> Result<Vec<Cell>>
    ensures count { IfOk result (λ cells. length cells.items ≡ words) }
    ensures few { OnOk result (words ≤ 512) }
{
    ensure!(words <= MAX_WORDS, "more words than a workspace has");
    let mut cells = Vec::from_elem(alloc, cell(fill)?, words as usize)?;
    if named != NOTHING {
        for it in named.split(',') {
            put(&mut cells, it)?;
        }
    }
    Ok(cells)
}

/// Words behind one another that hold one cell.
#[derive(Clone, Copy)]
struct Stretch {
    first: usize,
    last: usize,
    cell: Cell,
}

/// The longest stretches of words that differ from those before.
fn stretches(alloc: Global, before: &[Cell], after: &[Cell]) -> Result<Vec<Stretch>> {
    let mut found: Vec<Stretch> = Vec::new(alloc);
    for (word, (old, new)) in before.iter().zip(after).enumerate() {
        if old == new {
            continue;
        }
        match found.last_mut() {
            Some(stretch) if word.checked_sub(stretch.last) == Some(1) && stretch.cell == *new =>
                stretch.last = word,
            _ => found.push(Stretch {
                first: word,
                last: word,
                cell: *new,
            })?,
        }
    }
    Ok(found)
}

/// The words that differ from those before, as an outcome names them.
pub(crate) fn changes(alloc: Global, before: &[Cell], after: &[Cell]) -> Result<String> {
    let mut text = String::new(alloc);
    for stretch in &stretches(alloc, before, after)? {
        let Stretch { first, last, cell } = stretch;
        let comma = if text.is_empty() { "" } else { "," };
        let held = cell_text(alloc, *cell)?;
        let named = if first == last {
            format!(in alloc; "{comma}{first}={held}")?
        } else {
            format!(in alloc; "{comma}{first}-{last}={held}")?
        };
        text.push_str(&named)?;
    }
    if text.is_empty() {
        text.push_str(NOTHING)?;
    }
    Ok(text)
}
