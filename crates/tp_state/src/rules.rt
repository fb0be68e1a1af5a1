//! The rules of the instructions, applied to a state in place.

ghost use Rattle.std.specs.Prelude.{◌≡◌};
ghost use Rattle.tp_flow.specs.NestRanges.{ranges};
ghost use Rattle.tp_state.specs.Answer.{answered};
ghost use Rattle.tp_state.specs.Conditions.{IsPlaced, HasGoodLoops};
ghost use Rattle.tp_state.specs.Rules.{rule};
ghost use Rattle.tp_state.specs.After.{after};

mod loops;
mod messages;
mod numbers;
mod registers;
mod words;

use crate::fault::StateCode;
use crate::rules::loops::entered_at;
use crate::state::State;
use tp_decode::Instr;
use tp_flow::{Edge, Nest};
use tp_image::Image;

impl State {
    /// The transfer function, in place: what is known after the instruction at an address, on an edge that it has,
    /// where the next instruction is behind it. After a refusal the state is not to be used. It takes no memory.
    #[tactic(auto, unfolding(crate::specs::After::after))]
    pub fn transfer(
        &mut self,
        at: usize,
        next: usize,
        instr: Instr,
        edge: Edge,
        image: &Image,
        nest: &Nest,
    ) -> Result<(), StateCode>
        requires placed { IsPlaced image.now self.old }
        requires good { HasGoodLoops image.now }
        requires nest { nest.now ≡ ranges image.now.loops }
        ensures value { answered result self.new ≡ after image.now at next instr edge self.old }
        ensures placed { IsPlaced image.now self.new }
    {
        self.apply_rule(at, next, instr, edge, image, nest)?;
        self.enter(image, entered_at(nest, at, next, instr, edge))
    }

    /// The instruction's own rule.
    fn apply_rule(
        &mut self,
        at: usize,
        next: usize,
        instr: Instr,
        edge: Edge,
        image: &Image,
        nest: &Nest,
    ) -> Result<(), StateCode>
        requires placed { IsPlaced image.now self.old }
        requires good { HasGoodLoops image.now }
        requires nest { nest.now ≡ ranges image.now.loops }
        ensures value { answered result self.new ≡ rule image.now at next instr edge self.old }
        ensures placed { IsPlaced image.now self.new }
    {
        match instr {
            Instr::Jump(n) => self.jump(n),
            Instr::Ldlp(n) => self.ldlp(image, n),
            Instr::Ldnl(n) => self.ldnl(image, n),
            Instr::Ldc(n) => self.ldc(n),
            Instr::Ldnlp(n) => self.ldnlp(image, n),
            Instr::Ldl(n) => self.ldl(image, n),
            Instr::Adc(n) => self.adc(n),
            Instr::Cj(n) => self.cj(n, edge),
            Instr::Ajw(n) => self.ajw(image, n),
            Instr::Eqc(n) => self.eqc(n),
            Instr::Stl(n) => self.stl(image, n),
            Instr::Stnl(n) => self.stnl(image, n),
            Instr::Rev => self.rev(),
            Instr::Lb => self.lb(),
            Instr::Bsub => self.bsub(image),
            Instr::Input => self.input(image),
            Instr::Gt => self.gt(),
            Instr::Wsub => self.wsub(image),
            Instr::Output => self.output(image),
            Instr::Add => self.add(),
            Instr::Sum => self.add(),
            Instr::Sub => self.sub(),
            Instr::Diff => self.sub(),
            Instr::Mul => self.mul(),
            Instr::Prod => self.mul(),
            Instr::Seterr => Ok(()),
            Instr::Csub0 => self.csub0(),
            Instr::Stopp => self.stopp(),
            Instr::Rem => self.rem(),
            Instr::Lend => self.lend(image, nest, at, next, edge),
            Instr::Div => self.div(),
            Instr::BitNot => self.bit_not(),
            Instr::BitOr => self.bit_or(),
            Instr::BitXor => self.bit_or(),
            Instr::Sb => self.sb(),
            Instr::Shr => self.shr(),
            Instr::Shl => self.shl(),
            Instr::Mint => self.mint(),
            Instr::BitAnd => self.bit_and(),
            Instr::MoveBytes => self.move_bytes(image),
        }
    }
}
