//! The uses of the words of the workspace.

ghost use Rattle.std.specs.Prelude.{◌≡◌, ◌<◌, ◌≤◌, ◌*◌, ◌^◌, map, slice_index};
ghost use Rattle.std.specs.List.{list_any};
ghost use Rattle.tpw_occam_core.specs.Sound.{bytes_of, globals, is_array};
ghost use Rattle.tpw_occam_symbolic.specs.Leading.{word_bytes};
ghost use Rattle.tpw_occam_symbolic.specs.Placing.{AreEnough};

use crate::code::{Code, CodeLine, Step, Turns};
use crate::items::Item;
use std::alloc::{AllocError, Global};
use tpw_occam_core::{Storage, Worker};

/// The most words that one `move` clears.
pub const MAX_CLEARED: u32 = 32;

/// How much more a use in a loop counts.
const LOOP_WEIGHT: u32 = 8;

/// An item, how many words it has, how often it is used, and the line of the text where it is used first.
#[derive(Clone, Copy)]
pub(crate) struct Used {
    pub(crate) item: Item,
    pub(crate) words: u32,
    pub(crate) uses: u32,
    pub(crate) line: u32,
}

/// The item that a step uses.
fn item_of(step: Step) -> Option<Item> {
    match step {
        Step::Load(item, _) | Step::Store(item, _) | Step::Pointer(item, _) => Some(item),
        _ => None,
    }
}

/// How many bytes an array has.
pub(crate) fn array_bytes(worker: &Worker, a: usize) -> u32
    ensures { slice_index (map bytes_of worker.now.arrays.items) a < 2 ^ 32
        → result ≡ slice_index (map bytes_of worker.now.arrays.items) a }
{
    match worker.arrays.get(a) {
        Some(Storage::Zeros(count)) => *count,
        Some(Storage::Table(bytes)) => u32::try_from(bytes.len()).unwrap_or(u32::MAX),
        None => 0,
    }
}

/// How many words an array has.
pub(crate) fn array_words(worker: &Worker, a: usize) -> u32
    ensures { slice_index (map bytes_of worker.now.arrays.items) a < 2 ^ 32
        → word_bytes (slice_index (map bytes_of worker.now.arrays.items) a) ≤ 4 * result }
{
    array_bytes(worker, a).div_ceil(4)
}

/// Whether an array is declared for the whole worker.
fn is_global(worker: &Worker, a: usize) -> bool
    ensures { result ≡ list_any (is_array a) (globals worker.now) }
{
    worker.global_arrays.contains(&a)
}

/// How many words the greatest array has that is not declared for the whole worker, as far as one `move` clears it.
pub(crate) fn zeros(worker: &Worker) -> u32
    ensures { AreEnough worker.now result }
{
    let mut words = 0u32;
    for a in 0..worker.arrays.len() {
        if !is_global(worker, a) {
            words = words.max(array_words(worker, a));
        }
    }
    words.min(MAX_CLEARED)
}

/// How many words an item has.
fn words_of(worker: &Worker, loops: &[Turns], item: Item) -> u32 {
    match item {
        Item::Variable(x) if loops.iter().any(|turns| turns.index == x) => 2,
        Item::Array(a) => array_words(worker, a),
        Item::Zeros => zeros(worker),
        _ => 1,
    }
}

/// The weight of a use at a place: more in each loop around it.
fn weight_at(loops: &[Turns], place: usize) -> u32 {
    let mut weight = 1u32;
    for turns in loops {
        if turns.head <= place && place <= turns.lend {
            weight = weight.saturating_mul(LOOP_WEIGHT);
        }
    }
    weight
}

/// Counts a use.
fn count_use(all: &mut Vec<Used>, one: Used) -> Result<(), AllocError> {
    for used in all.iter_mut() {
        if used.item == one.item {
            used.uses = used.uses.saturating_add(one.uses);
            return Ok(());
        }
    }
    all.push(one)?;
    Ok(())
}

/// The use that a line makes of an item.
fn used_by(worker: &Worker, loops: &[Turns], place: usize, line: CodeLine) -> Option<Used> {
    let item = item_of(line.step)?;
    Some(Used {
        item,
        words: words_of(worker, loops, item),
        uses: weight_at(loops, place),
        line: line.source,
    })
}

/// The uses of items in a code, in the order of first uses.
pub(crate) fn uses_of(
    alloc: Global,
    worker: &Worker,
    code: &Code,
) -> Result<Vec<Used>, AllocError> {
    let mut all = Vec::new(alloc);
    for (place, line) in code.lines().iter().enumerate() {
        if let Some(used) = used_by(worker, code.loops(), place, *line) {
            count_use(&mut all, used)?;
        }
    }
    Ok(all)
}
