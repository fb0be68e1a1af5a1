//! The first words of the workspace: constants and tables, and zeros between them.

ghost use Rattle.std.specs.Prelude.{◌≡◌, ◌<◌, ◌^◌, true, All, IfOk, OnOk};
ghost use Rattle.std.specs.Int.{w32, to_le_bytes};
ghost use Rattle.tpw_occam_symbolic.specs.Blocks.{bytes_at};
ghost use Rattle.tpw_occam_symbolic.specs.Placing.{HoldsFirst};
ghost use Rattle.tpw_occam_symbolic.specs.Placing.{first_blocks};

use crate::fault::CodeFault;
use crate::items::{Item, Placed, START};
use crate::layout::Arranged;
use std::alloc::Global;
use tpw_occam_core::{Storage, Worker};

/// Puts a word at a local word, if there is one.
fn put(words: &mut [u32], local: u32, word: u32) {
    let at = START.saturating_add(local) as usize;
    if at < words.len() {
        words[at] = word;
    }
}

/// A word of a table.
fn word_of(bytes: &[u8], at: usize) -> u32 {
    let byte = |i: usize| bytes.get(i).copied().unwrap_or(0);
    let first = at.saturating_mul(4);
    u32::from_le_bytes([
        byte(first),
        byte(first.saturating_add(1)),
        byte(first.saturating_add(2)),
        byte(first.saturating_add(3)),
    ])
}

/// Puts the words of a table, from a local word on.
fn put_table(words: &mut [u32], place: Placed, bytes: &[u8]) {
    for word in 0..place.words {
        let value = word_of(bytes, word as usize);
        put(words, place.local.saturating_add(word), value);
    }
}

/// How many words there are up to the last that is not 0.
fn count_of(words: &[u32]) -> usize {
    let mut count = 0;
    for (i, word) in words.iter().enumerate() {
        if *word != 0 {
            count = i + 1;
        }
    }
    count
}

/// A byte of what an item is at first.
fn first_byte(worker: &Worker, item: Item, at: usize) -> u8
    ensures { result ≡ first_blocks worker.now item at }
{
    match item {
        Item::Constant(c) => c.to_le_bytes().get(at).copied().unwrap_or(0),
        Item::Array(a) => match worker.arrays.get(a) {
            Some(Storage::Table(bytes)) => bytes.get(at).copied().unwrap_or(0),
            _ => 0,
        },
        _ => 0,
    }
}

/// Whether a word is a word of an item at first.
fn is_first(worker: &Worker, item: Item, at: usize, word: u32) -> bool
    requires { at < 2 ^ 40 }
    ensures { result ≡ true → to_le_bytes w32 word ≡ bytes_at (first_blocks worker.now) item at 4 }
{
    word.to_le_bytes()
        == [
            first_byte(worker, item, at),
            first_byte(worker, item, at + 1),
            first_byte(worker, item, at + 2),
            first_byte(worker, item, at + 3),
        ]
}

/// Whether an item's words are what they are at first.
fn holds(worker: &Worker, place: Placed, words: &[u32]) -> bool
    ensures { result ≡ true → HoldsFirst worker.now 5 words.now place }
{
    for i in 0..place.words as usize {
        let at = START as usize + place.local as usize + i;
        let word = words.get(at).copied().unwrap_or(0);
        if !is_first(worker, place.item, 4 * i, word) {
            return false;
        }
    }
    true
}

/// Refuses words in which an item is not what it is at first: two items would lie in one place.
fn check_words(worker: &Worker, placed: &[Placed], words: &[u32]) -> Result<(), CodeFault>
    ensures { OnOk result (All (HoldsFirst worker.now 5 words.now) placed.now) }
{
    for place in placed {
        if !holds(worker, *place, words) {
            return Err(CodeFault::Misplaced);
        }
    }
    Ok(())
}

/// Puts the first contents of items into words.
fn put_items(worker: &Worker, placed: &[Placed], words: &mut [u32]) {
    for place in placed {
        match place.item {
            Item::Constant(c) => put(words, place.local, c),
            Item::Array(a) => {
                if let Some(Storage::Table(bytes)) = worker.arrays.get(a) {
                    put_table(words, *place, bytes);
                }
            }
            _ => {}
        }
    }
}

/// The words that a workspace begins with, up to the last that is not 0.
pub(crate) fn initial_words(
    alloc: Global,
    worker: &Worker,
    arranged: &Arranged,
) -> Result<Vec<u32>, CodeFault>
    ensures { IfOk result (λ words. All (HoldsFirst worker.now 5 words.items) arranged.now.placed.items) }
{
    let mut words = Vec::new(alloc);
    words.resize(START.saturating_add(arranged.words) as usize, 0)?;
    put_items(worker, &arranged.placed, &mut words);
    let count = count_of(&words);
    words.truncate(count);
    check_words(worker, &arranged.placed, &words)?;
    Ok(words)
}
