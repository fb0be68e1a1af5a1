//! How a run begins.

ghost use Rattle.std.specs.Prelude.{◌≡◌, ℕ, List, [], flat_map, slice_index_or};
ghost use Rattle.std.specs.Int.{w32, to_le_bytes};
ghost use Rattle.tp_step.specs.Memory.{nothing_defined, with_bytes};
ghost use Rattle.tp_step.specs.State.{mem_start};
ghost use Rattle.tp_step.specs.Runs.{first_words, start};
ghost use Rattle.tpw_machine.specs.declared.phase.Phase.TheVariants.{BeforePacket};

use crate::machine::{Machine, WORKSPACE_BYTES};
use tp_image::Image;
use tp_step::profile::MEM_START;

/// The first value of a workspace word: an initial word of the image, or 0.
fn initial_word(image: &Image, i: u32) -> u32
    ensures { result ≡ slice_index_or image.now.initial i 0 }
{
    match image.initial.get(i as usize) {
        Some(word) => *word,
        None => 0,
    }
}

impl Machine {
    ghost use Rattle.std.specs.Prelude.{None, pos, false, replicate};
    ghost use Rattle.tpw_machine.specs.Meaning.{state_of, memory_in};

    /// A machine in which nothing is defined.
    pub fn new() -> Machine
        ensures registers { (result.areg ≡ None) × (result.breg ≡ None) × (result.creg ≡ None) }
        ensures defined { result.defined ≡ replicate 2048 false }
        ensures bytes { result.bytes ≡ replicate 2048 0 }
        ensures rest { (result.iptr ≡ pos 0) × (result.oreg ≡ 0) × (result.wptr ≡ 0) × (result.error ≡ false) }
    {
        Machine {
            iptr: 0,
            oreg: 0,
            wptr: 0,
            areg: None,
            breg: None,
            creg: None,
            bytes: [0; WORKSPACE_BYTES],
            defined: [false; WORKSPACE_BYTES],
            error: false,
        }
    }

    /// Nothing of the workspace is defined any more.
    fn clear(&mut self)
        ensures rest { self.new ≡ record self.old { defined = self.new.defined } }
        ensures memory { memory_in self.new ≡ nothing_defined }
    {
        self.defined.fill(false);
    }

    /// The workspace begins with the image's initial words, and then zeros. Whatever it held is gone.
    fn fill_workspace(&mut self, image: &Image)
        ensures rest { self.new ≡ record self.old { bytes = self.new.bytes; defined = self.new.defined } }
        ensures memory { memory_in self.new ≡
            with_bytes nothing_defined mem_start (flat_map (to_le_bytes w32) (first_words image.now)) }
    {
        self.clear();
        for i in 0..image.workspace {
            self.put(MEM_START + 4 * i, &initial_word(image, i).to_le_bytes());
        }
    }

    /// The start of a packet's run, whatever ran before: with it goes
    /// [`Phase::BeforePacket`](crate::Phase::BeforePacket).
    #[tactic(auto, unfolding(tp_step::specs::Runs::start))]
    pub fn start(&mut self, image: &Image)
        ensures { (packet : List ℕ) → state_of self.new record {
          phase = BeforePacket;
          to_come = packet;
          sent = [];
          traced = [];
        } ≡ start image.now packet }
    {
        self.fill_workspace(image);
        self.iptr = 0;
        self.oreg = 0;
        self.wptr = MEM_START + 4 * image.start;
        self.lose_registers();
        self.error = false;
    }
}
