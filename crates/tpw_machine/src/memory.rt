//! The workspace. Where an image has fewer words than a machine keeps, those behind them are undefined at its start.

ghost use Rattle.std.specs.Prelude.{◌≡◌, ◌+◌, ◌-◌, ◌≤◌, ◌<◌, length, MatchOption, Some, None, IsTrue};
ghost use Rattle.tp_step.specs.Memory.{word_at, with_bytes, undefined};
ghost use Rattle.tp_step.specs.State.{mem_start, in_workspace, load, store, descheduled};

use crate::machine::Machine;
use crate::places::{in_workspace, is_word};
use tp_image::Image;
use tp_step::profile::MEM_START;

impl Machine {
    ghost use Rattle.tpw_machine.specs.Meaning.{memory_of, state_of, Messages, Made, memory_in};

    /// The byte at an address of the workspace, if it is defined.
    #[tactic(auto, unfolding(crate::specs::Meaning::memory_of))]
    pub fn cell(&self, a: u32) -> Option<u8>
        requires low { mem_start ≤ a }
        requires high { a < mem_start + 2048 }
        ensures { result ≡ memory_in self.now a }
    {
        let i = (a - MEM_START) as usize;
        if self.defined[i] {
            Some(self.bytes[i])
        } else {
            None
        }
    }

    /// The word of the four bytes from an address on, if each is defined.
    #[tactic(auto, unfolding(tp_step::specs::Memory::word_at))]
    pub(crate) fn word(&self, a: u32) -> Option<u32>
        requires low { mem_start ≤ a }
        requires high { a + 4 ≤ mem_start + 2048 }
        ensures { result ≡ word_at (memory_in self.now) a }
    {
        let b0 = self.cell(a)?;
        let b1 = self.cell(a + 1)?;
        let b2 = self.cell(a + 2)?;
        let b3 = self.cell(a + 3)?;
        Some(u32::from_le_bytes([b0, b1, b2, b3]))
    }

    /// The word at an address, if it is one of the workspace and all of it is defined.
    #[tactic(auto, unfolding(tp_step::specs::State::load))]
    pub(crate) fn load(&self, image: &Image, a: u32) -> Option<u32>
        ensures value { (p : Messages) → result ≡ load image.now (state_of self.now p) a }
        ensures low { MatchOption result (Unit {0}) (λ _. mem_start ≤ a) }
        ensures high { MatchOption result (Unit {0}) (λ _. a + 4 ≤ mem_start + 2048) }
    {
        if is_word(image, a) {
            self.word(a)
        } else {
            None
        }
    }

    /// Puts bytes into the workspace, from an address on.
    pub fn put(&mut self, a: u32, bytes: &[u8])
        requires low { mem_start ≤ a }
        requires high { a + length bytes.now ≤ mem_start + 2048 }
        ensures rest { self.new ≡ record self.old { bytes = self.new.bytes; defined = self.new.defined } }
        ensures memory { memory_in self.new ≡ with_bytes (memory_in self.old) a bytes.now }
    {
        let i = (a - MEM_START) as usize;
        self.bytes[i..i + bytes.len()].copy_from_slice(bytes);
        self.defined[i..i + bytes.len()].fill(true);
    }

    /// Stores a word, if the address is that of a workspace word.
    #[tactic(auto, unfolding(tp_step::specs::State::store, tp_step::specs::Memory::with_word))]
    pub(crate) fn store(&mut self, image: &Image, a: u32, v: u32) -> bool
        ensures made { Made (store image.now a v) (state_of self.old) (state_of self.new) result }
        ensures place { self.new.iptr ≡ self.old.iptr }
    {
        if is_word(image, a) {
            self.put(a, &v.to_le_bytes());
            true
        } else {
            false
        }
    }

    /// Makes n bytes undefined, from an address of the workspace on.
    pub fn undefine(&mut self, a: u32, n: usize)
        requires low { mem_start ≤ a }
        requires high { a + n ≤ mem_start + 2048 }
        ensures rest { self.new ≡ record self.old { defined = self.new.defined } }
        ensures memory { memory_in self.new ≡ undefined (memory_in self.old) a n }
    {
        let i = (a - MEM_START) as usize;
        self.defined[i..i + n].fill(false);
    }

    /// Whether the five words below Wptr lie in the workspace.
    pub(crate) fn may_deschedule(&self, image: &Image) -> bool
        ensures value { result ≡ in_workspace image.now (self.now.wptr - 20) 20 }
        ensures low { IsTrue result → mem_start + 20 ≤ self.now.wptr }
        ensures high { IsTrue result → self.now.wptr ≤ mem_start + 2048 }
    {
        self.wptr >= 20 && in_workspace(image, self.wptr - 20, 20)
    }

    /// Makes the registers and the five words below Wptr undefined.
    pub(crate) fn lose_below(&mut self)
        requires low { mem_start + 20 ≤ self.old.wptr }
        requires high { self.old.wptr ≤ mem_start + 2048 }
        ensures rest { self.new ≡
            record self.old { areg = None; breg = None; creg = None; defined = self.new.defined } }
        ensures memory { memory_in self.new ≡ undefined (memory_in self.old) (self.old.wptr - 20) 20 }
    {
        self.undefine(self.wptr - 20, 20);
        self.lose_registers();
    }

    /// Makes the registers and the five words below Wptr undefined, if these lie in the workspace.
    #[tactic(auto, unfolding(tp_step::specs::State::descheduled))]
    pub(crate) fn deschedule(&mut self, image: &Image) -> bool
        ensures made { Made (descheduled image.now) (state_of self.old) (state_of self.new) result }
        ensures rest { self.new ≡ record self.old {
          areg = self.new.areg;
          breg = self.new.breg;
          creg = self.new.creg;
          defined = self.new.defined;
        } }
    {
        if self.may_deschedule(image) {
            self.lose_below();
            true
        } else {
            false
        }
    }
}
