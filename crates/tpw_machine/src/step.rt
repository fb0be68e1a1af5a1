//! One instruction byte.

ghost use Rattle.std.specs.Prelude.{◌≡◌, ◌+ℤ◌, ◌≤ℤ◌, ◌^◌, pos, true};
ghost use Rattle.tp_decode.specs.declared.instr.Instr.TheVariants.{Stopp};
ghost use Rattle.tp_step.specs.Effects.{effect};
ghost use Rattle.tp_step.specs.Steps.{step};
ghost use Rattle.tp_outcome.specs.Devices.{devices_of};
ghost use Rattle.tp_outcome.specs.Quiet.{is_quiet};

use crate::machine::Machine;
use crate::phase::Phase;
use crate::places::code_byte;
use crate::turn::Turn;
use tp_decode::Instr;
use tp_image::Image;
use tp_link::{LinkDevice, Links};
use tp_prefix::{shifted, shifted_complement};

impl Machine {
    ghost use Rattle.tpw_machine.specs.Meaning.{state_of, Made, Turned, Messages};

    /// stopp, stop process
    #[tactic(auto, unfolding(tp_step::specs::Effects::effect))]
    fn stopp<D: LinkDevice>(&self, image: &Image, links: &Links<D>, phase: &mut Phase) -> Turn
        ensures { Turned image.now (effect image.now Stopp) (state_of self.now) (state_of self.now) phase.old phase.new
            (devices_of D.state links.now)
            (devices_of D.state links.now) result }
    {
        match *phase {
            Phase::BeforePacket | Phase::BeforeResult => Turn::Stuck,
            Phase::AfterResult | Phase::Stopped => {
                *phase = Phase::Stopped;
                Turn::Made
            }
        }
    }

    /// An instruction that neither moves a message nor stops.
    fn compute(&mut self, image: &Image, instr: Instr) -> bool
        requires quiet { is_quiet instr ≡ true }
        requires low { pos 0 ≤ℤ self.old.iptr }
        requires high { self.old.iptr ≤ℤ pos (2 ^ 32) }
        ensures { Made (effect image.now instr) (state_of self.old) (state_of self.new) result }
    {
        match instr {
            Instr::Jump(n) => self.jump(image, n),
            Instr::Ldlp(n) => self.ldlp(image, n),
            Instr::Ldnl(n) => self.ldnl(image, n),
            Instr::Ldc(n) => self.ldc(image, n),
            Instr::Ldnlp(n) => self.ldnlp(image, n),
            Instr::Ldl(n) => self.ldl(image, n),
            Instr::Adc(n) => self.adc(image, n),
            Instr::Cj(n) => self.cj(image, n),
            Instr::Ajw(n) => self.ajw(image, n),
            Instr::Eqc(n) => self.eqc(image, n),
            Instr::Stl(n) => self.stl(image, n),
            Instr::Stnl(n) => self.stnl(image, n),
            Instr::Rev => self.rev(image),
            Instr::Lb => self.lb(image),
            Instr::Bsub => self.bsub(image),
            Instr::Diff => self.diff(image),
            Instr::Add => self.add(image),
            Instr::Prod => self.prod(image),
            Instr::Gt => self.gt(image),
            Instr::Wsub => self.wsub(image),
            Instr::Sub => self.sub(image),
            Instr::Seterr => self.seterr(image),
            Instr::Csub0 => self.csub0(image),
            Instr::Rem => self.rem(image),
            Instr::Lend => self.lend(image),
            Instr::Div => self.div(image),
            Instr::BitNot => self.bit_not(image),
            Instr::BitXor => self.bit_xor(image),
            Instr::Sb => self.sb(image),
            Instr::Shr => self.shr(image),
            Instr::Shl => self.shl(image),
            Instr::Mint => self.mint(image),
            Instr::BitAnd => self.bit_and(image),
            Instr::MoveBytes => self.move_bytes(image),
            Instr::BitOr => self.bit_or(image),
            Instr::Sum => self.sum(image),
            Instr::Mul => self.mul(image),
            Instr::Input | Instr::Output | Instr::Stopp => unreachable!(),
        }
    }

    /// An instruction all of whose bytes are read.
    #[tactic(auto, using(crate::proofs::TurnLemmas::quiet_rest, crate::proofs::TurnLemmas::made_quietly, crate::proofs::TurnLemmas::stuck_quietly))]
    fn execute<D: LinkDevice>(
        &mut self,
        image: &Image,
        links: &mut Links<D>,
        phase: &mut Phase,
        instr: Instr,
    ) -> Turn
        requires low { pos 0 ≤ℤ self.old.iptr }
        requires high { self.old.iptr ≤ℤ pos (2 ^ 32) }
        ensures { Turned image.now (effect image.now instr) (state_of self.old) (state_of self.new) phase.old phase.new
            (devices_of D.state links.old)
            (devices_of D.state links.new) result }
    {
        match instr {
            Instr::Input => self.input(image, links, phase),
            Instr::Output => self.output(image, links, phase),
            Instr::Stopp => self.stopp(image, links, phase),
            quiet => {
                if self.compute(image, quiet) {
                    Turn::Made
                } else {
                    Turn::Stuck
                }
            }
        }
    }

    /// Goes past a byte, whose instruction begins with an empty Oreg.
    fn advance(&mut self)
        requires low { pos 0 ≤ℤ self.old.iptr }
        requires high { self.old.iptr ≤ℤ pos (2 ^ 31) }
        ensures { self.new ≡ record self.old { iptr = self.old.iptr +ℤ pos 1 } }
    {
        self.iptr += 1;
    }

    /// The operand is used.
    fn clear_operand(&mut self)
        ensures rest { (p : Messages) → state_of self.new p ≡ record (state_of self.old p) { oreg = 0 } }
        ensures place { self.new.iptr ≡ self.old.iptr }
    {
        self.oreg = 0;
    }

    /// One instruction byte, while the worker has not stopped: a step of the step relation. A prefix is one, and leaves
    /// Oreg for the byte after it.
    ///
    /// Where it is made, the machine and the phase stand for the state after it, and the devices have the bytes that it
    /// moved. Where none exists, the machine is left between two states, and the devices as they were.
    #[tactic(auto, unfolding(tp_step::specs::Steps::step))]
    pub fn step<D: LinkDevice>(
        &mut self,
        image: &Image,
        links: &mut Links<D>,
        phase: &mut Phase,
    ) -> Turn
        ensures { Turned image.now (step image.now) (state_of self.old) (state_of self.new) phase.old phase.new
            (devices_of D.state links.old)
            (devices_of D.state links.new) result }
    {
        if let Phase::Stopped = *phase {
            return Turn::Stuck;
        }
        let Some(byte) = code_byte(image, self.iptr) else {
            return Turn::Stuck;
        };
        self.advance();
        let operand = self.oreg + u32::from(byte % 16);
        match byte / 16 {
            2 => {
                self.oreg = shifted(operand);
                Turn::Made
            }
            6 => {
                self.oreg = shifted_complement(operand);
                Turn::Made
            }
            function => {
                self.clear_operand();
                match Instr::of(function, operand.cast_signed()) {
                    Some(instr) => self.execute(image, links, phase, instr),
                    None => Turn::Stuck,
                }
            }
        }
    }
}
