//! A run, an instruction at a time.

ghost use Rattle.std.specs.Prelude.{◌≡◌, ◌<◌, ℕ, ◌+◌, ◌*◌, List, []};
ghost use Rattle.tp_step.specs.Memory.{word_at};
ghost use Rattle.tp_step.specs.State.{mem_start};
ghost use Rattle.tp_step.specs.Runs.{start};
ghost use Rattle.tp_outcome.specs.Devices.{devices_of};
ghost use Rattle.tpw_machine.specs.declared.phase.Phase.TheVariants.{BeforePacket};
ghost use Rattle.tpw_machine.specs.Meaning.{memory_of, state_of};
ghost use Rattle.tpw_step.specs.Stepping.{Advances};

use crate::prefixes::prefixes_at;
use tp_image::Image;
use tp_link::{LinkDevice, Links};
use tp_step::profile::MEM_START;
use tpw_machine::{Machine, Phase, Registers, Turn};

/// A packet's run of an image, accepted or not, which goes on by an instruction at a time.
#[derive(Drop)]
pub struct Stepper {
    pub(crate) image: Image,
    pub(crate) machine: Machine,
    pub(crate) phase: Phase,
}

impl Stepper {
    /// The start of a packet's run.
    pub fn new(image: Image) -> Stepper
        ensures starts { (packet : List ℕ) → state_of result.machine record {
          phase = result.phase;
          to_come = packet;
          sent = [];
          traced = [];
        } ≡ start image packet }
        ensures phase { result.phase ≡ BeforePacket }
        ensures image { result.image ≡ image }
    {
        let mut machine = Machine::new();
        machine.start(&image);
        Stepper {
            image,
            machine,
            phase: Phase::BeforePacket,
        }
    }

    /// The start of a packet's run of the same image.
    pub fn restart(&mut self)
        ensures starts { (packet : List ℕ) → state_of self.new.machine record {
          phase = self.new.phase;
          to_come = packet;
          sent = [];
          traced = [];
        } ≡ start self.new.image packet }
        ensures phase { self.new.phase ≡ BeforePacket }
        ensures image { self.new.image ≡ self.old.image }
    {
        self.machine.start(&self.image);
        self.phase = Phase::BeforePacket;
    }

    /// Goes on by one instruction: its prefixes and the byte behind them, a step each. None where the worker had
    /// stopped.
    ///
    /// Where there is no step, or a device refuses its call, the run has ended, and the machine is left between two
    /// states.
    pub fn next<D: LinkDevice>(&mut self, links: &mut Links<D>) -> Option<Turn>
        ensures comes { Advances self.old.image (state_of self.old.machine)
            (state_of self.new.machine) self.old.phase self.new.phase
            (devices_of D.state links.old)
            (devices_of D.state links.new) result }
        ensures image { self.new.image ≡ self.old.image }
    {
        if let Phase::Stopped = self.phase {
            return None;
        }
        let prefixes = prefixes_at(&self.image.code, self.machine.registers().iptr);
        for _ in 0..prefixes + 1 {
            match self.machine.step(&self.image, links, &mut self.phase) {
                Turn::Made => {}
                Turn::Stuck => return Some(Turn::Stuck),
                Turn::Refused(fault) => return Some(Turn::Refused(fault)),
            }
        }
        Some(Turn::Made)
    }

    /// The image.
    pub fn image(&self) -> &Image
        ensures { result.now ≡ self.now.image }
    {
        &self.image
    }

    /// How far the worker is.
    pub fn phase(&self) -> Phase
        ensures { result ≡ self.now.phase }
    {
        self.phase
    }

    /// The registers.
    pub fn registers(&self) -> Registers
        ensures { result ≡ record {
          iptr = self.now.machine.iptr;
          oreg = self.now.machine.oreg;
          wptr = self.now.machine.wptr;
          areg = self.now.machine.areg;
          breg = self.now.machine.breg;
          creg = self.now.machine.creg;
          error = self.now.machine.error;
        } }
    {
        self.machine.registers()
    }

    /// A word of the workspace, if each of its bytes is defined.
    #[tactic(auto, unfolding(tp_step::specs::Memory::word_at))]
    pub fn word(&self, i: u32) -> Option<u32>
        requires { i < 512 }
        ensures { result ≡ word_at (memory_of self.now.machine.defined self.now.machine.bytes) (mem_start + 4 * i) }
    {
        let a = MEM_START + 4 * i;
        let b0 = self.machine.cell(a)?;
        let b1 = self.machine.cell(a + 1)?;
        let b2 = self.machine.cell(a + 2)?;
        let b3 = self.machine.cell(a + 3)?;
        Some(u32::from_le_bytes([b0, b1, b2, b3]))
    }
}
