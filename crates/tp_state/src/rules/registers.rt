//! Registers and places: what reads no word.

ghost use Rattle.std.specs.Prelude.{◌≡◌, ℕ, ◌<◌};
ghost use Rattle.tp_decode.specs.declared.instr.Instr.TheVariants.{Ldlp, Ldc, Ldnlp, Cj, Ajw, Rev, Wsub, Bsub, Stopp};
ghost use Rattle.tp_decode.specs.declared.instr.Instr.TheVariants.{Mint};
ghost use Rattle.tp_image.specs.Image.{ImageValue};
ghost use Rattle.tp_flow.specs.declared.edge.Edge.{Edge};
ghost use Rattle.tp_state.specs.Answer.{answered};
ghost use Rattle.tp_state.specs.Conditions.{KeepsPlace, IsPlaced};
ghost use Rattle.tp_state.specs.Rules.{rule, FollowsRule, FollowsEachRule};

use crate::fault::StateCode;
use crate::kind::Kind;
use crate::places::{bytes_on, frame_on, words_further, words_on};
use crate::state::State;
use tp_flow::Edge;
use tp_image::Image;

impl State {
    #[tactic(auto, unfolding(crate::specs::Rules::rule))]
    pub(super) fn ldlp(&mut self, image: &Image, n: i32) -> Result<(), StateCode>
        ensures value { FollowsRule image.now (Ldlp n) result self.old self.new }
        ensures kept { KeepsPlace self.old self.new }
    {
        let x = self.local(image, n)?;
        self.push(Kind::Ptr(x, x));
        Ok(())
    }

    #[tactic(auto, unfolding(crate::specs::Rules::rule))]
    pub(super) fn ldc(&mut self, n: i32) -> Result<(), StateCode>
        ensures value { FollowsEachRule (Ldc n) result self.old self.new }
        ensures kept { KeepsPlace self.old self.new }
    {
        self.push(Kind::Int(n, n));
        Ok(())
    }

    #[tactic(auto, unfolding(crate::specs::Rules::rule))]
    pub(super) fn mint(&mut self) -> Result<(), StateCode>
        ensures value { FollowsEachRule Mint result self.old self.new }
        ensures kept { KeepsPlace self.old self.new }
    {
        self.push(Kind::Int(i32::MIN, i32::MIN));
        Ok(())
    }

    #[tactic(auto, unfolding(crate::specs::Rules::rule))]
    pub(super) fn ldnlp(&mut self, image: &Image, n: i32) -> Result<(), StateCode>
        ensures value { FollowsRule image.now (Ldnlp n) result self.old self.new }
        ensures kept { KeepsPlace self.old self.new }
    {
        let kind = words_further(image, n, self.a)?;
        self.set_areg(kind);
        Ok(())
    }

    #[tactic(auto, unfolding(crate::specs::Rules::rule))]
    pub(super) fn cj(&mut self, n: i32, edge: Edge) -> Result<(), StateCode>
        ensures value { (image : ImageValue) (at next : ℕ) →
            answered result self.new ≡ rule image at next (Cj n) edge self.old }
        ensures kept { KeepsPlace self.old self.new }
    {
        self.one_number()?;
        match edge {
            Edge::Taken => self.set_areg(Kind::Int(0, 0)),
            _ => self.pop(),
        }
        Ok(())
    }

    #[tactic(auto, unfolding(crate::specs::Rules::rule))]
    pub(super) fn ajw(&mut self, image: &Image, n: i32) -> Result<(), StateCode>
        requires { IsPlaced image.now self.old }
        ensures value { FollowsRule image.now (Ajw n) result self.old self.new }
        ensures placed { IsPlaced image.now self.new }
    {
        self.wptr = frame_on(image, self.wptr, n)?;
        Ok(())
    }

    #[tactic(auto, unfolding(crate::specs::Rules::rule))]
    pub(super) fn rev(&mut self) -> Result<(), StateCode>
        ensures value { FollowsEachRule Rev result self.old self.new }
        ensures kept { KeepsPlace self.old self.new }
    {
        let a = self.a.known()?;
        let b = self.b.known()?;
        self.a = b;
        self.b = a;
        Ok(())
    }

    #[tactic(auto, unfolding(crate::specs::Rules::rule))]
    pub(super) fn wsub(&mut self, image: &Image) -> Result<(), StateCode>
        ensures value { FollowsRule image.now Wsub result self.old self.new }
        ensures kept { KeepsPlace self.old self.new }
    {
        self.a.known()?;
        self.b.known()?;
        let p = self.a.pointer()?;
        let b = self.b.number()?;
        let (first, last) = words_on(image, p, b)?;
        self.replace_pair(Kind::Ptr(first, last));
        Ok(())
    }

    #[tactic(auto, unfolding(crate::specs::Rules::rule))]
    pub(super) fn bsub(&mut self, image: &Image) -> Result<(), StateCode>
        ensures value { FollowsRule image.now Bsub result self.old self.new }
        ensures kept { KeepsPlace self.old self.new }
    {
        self.a.known()?;
        self.b.known()?;
        let p = self.a.byte_pointer()?;
        let b = self.b.number()?;
        let (first, last) = bytes_on(image, p, b)?;
        self.replace_pair(Kind::BytePtr(first, last));
        Ok(())
    }

    #[tactic(auto, unfolding(crate::specs::Rules::rule))]
    pub(super) fn stopp(&mut self) -> Result<(), StateCode>
        ensures value { FollowsEachRule Stopp result self.old self.new }
        ensures kept { KeepsPlace self.old self.new }
    {
        if self.phase == 2 {
            Ok(())
        } else {
            Err(StateCode::S9)
        }
    }
}
