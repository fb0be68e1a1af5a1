//! How a run begins.

ghost use Rattle.std.specs.Prelude.{◌≡◌, flat_map, slice_index_or};
ghost use Rattle.std.specs.Int.{w32, to_le_bytes};
ghost use Rattle.tp_step.specs.Memory.{nothing_defined, with_bytes};
ghost use Rattle.tp_step.specs.State.{mem_start};
ghost use Rattle.tp_step.specs.Runs.{first_words};
ghost use Rattle.tp_machine.specs.Representation.{Holds};

use crate::memory::store;
use tp_image::Image;
use tp_step::profile::MEM_START;

/// The first value of a workspace word: an initial word of the image, or 0.
fn initial_word(image: &Image, i: u32) -> u32
    ensures { result ≡ slice_index_or image.now.initial i 0 }
{
    match image.initial.get(i as usize) {
        Some(word) => *word,
        None => 0,
    }
}

/// The workspace begins with the image's initial words, and then zeros, as far as the image has words. What lies beyond
/// them is not the worker's.
pub(crate) fn fill(workspace: &mut [u8; 2048], image: &Image)
    ensures { Holds
        (with_bytes nothing_defined mem_start (flat_map (to_le_bytes w32) (first_words image.now))) workspace.new }
{
    for i in 0..image.workspace {
        store(workspace, MEM_START + 4 * i, initial_word(image, i));
    }
}
