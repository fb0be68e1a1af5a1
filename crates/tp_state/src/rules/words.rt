//! Words and bytes of the workspace.

ghost use Rattle.std.specs.Prelude.{◌≡◌, ◌+◌, ◌-◌, ◌<◌, ◌^◌};
ghost use Rattle.tp_decode.specs.declared.instr.Instr.TheVariants.{Ldnl, Ldl, Stl, Stnl, Lb, Sb};
ghost use Rattle.tp_state.specs.CellRules.{are_free, are_defined};
ghost use Rattle.tp_state.specs.Conditions.{KeepsPlace, IsPlaced, HasGoodLoops};
ghost use Rattle.tp_state.specs.Rules.{rule, between, words_of_bytes, with_blurred, FollowsRule, FollowsEachRule};

use crate::fault::StateCode;
use crate::kind::Kind;
use crate::places::words_on;
use crate::ranges::FULL;
use crate::state::State;
use tp_image::Image;

impl State {
    #[tactic(auto, unfolding(crate::specs::Rules::rule))]
    pub(super) fn ldl(&mut self, image: &Image, n: i32) -> Result<(), StateCode>
        requires { HasGoodLoops image.now }
        ensures value { FollowsRule image.now (Ldl n) result self.old self.new }
        ensures kept { KeepsPlace self.old self.new }
    {
        let x = self.local(image, n)?;
        let kind = self.cells.get(x as usize).read(image)?;
        self.push(kind);
        Ok(())
    }

    #[tactic(auto, unfolding(crate::specs::Rules::rule))]
    pub(super) fn stl(&mut self, image: &Image, n: i32) -> Result<(), StateCode>
        requires { IsPlaced image.now self.old }
        ensures value { FollowsRule image.now (Stl n) result self.old self.new }
        ensures kept { KeepsPlace self.old self.new }
    {
        let kind = self.a.known()?;
        let x = self.local(image, n)? as usize;
        if !self.cells.get(x).is_free() {
            return Err(StateCode::S5);
        }
        self.cells.set(x, kind.written());
        self.pop();
        Ok(())
    }

    /// Whether none of these words is a live control word.
    #[tactic(auto, unfolding(crate::specs::Rules::between))]
    fn are_free(&self, words: (u32, u32)) -> bool
        ensures { result ≡ are_free (between self.now.cells words) }
    {
        self.cells.are_free(words.0 as usize, count(words))
    }

    /// Whether the bytes of these words are defined.
    #[tactic(auto, unfolding(crate::specs::Rules::between))]
    fn are_defined(&self, words: (u32, u32)) -> bool
        ensures { result ≡ are_defined (between self.now.cells words) }
    {
        self.cells.are_defined(words.0 as usize, count(words))
    }

    /// One of these words takes something, or a part of something, and which is not known.
    #[tactic(auto, unfolding(crate::specs::Rules::between))]
    fn blur(&mut self, words: (u32, u32))
        ensures value { self.new ≡ with_blurred words self.old }
        ensures kept { KeepsPlace self.old self.new }
    {
        self.cells.blur(words.0 as usize, count(words));
    }

    #[tactic(auto, unfolding(crate::specs::Rules::rule))]
    pub(super) fn ldnl(&mut self, image: &Image, n: i32) -> Result<(), StateCode>
        requires { HasGoodLoops image.now }
        ensures value { FollowsRule image.now (Ldnl n) result self.old self.new }
        ensures kept { KeepsPlace self.old self.new }
    {
        self.a.known()?;
        let p = self.a.pointer()?;
        let words = words_on(image, p, (n, n))?;
        if !self.are_defined(words) {
            return Err(StateCode::S4);
        }
        let kind = if words.0 == words.1 {
            self.cells.get(words.0 as usize).read(image)?
        } else {
            FULL
        };
        self.set_areg(kind);
        Ok(())
    }

    #[tactic(auto, unfolding(crate::specs::Rules::rule))]
    pub(super) fn stnl(&mut self, image: &Image, n: i32) -> Result<(), StateCode>
        requires { IsPlaced image.now self.old }
        ensures value { FollowsRule image.now (Stnl n) result self.old self.new }
        ensures kept { KeepsPlace self.old self.new }
    {
        self.a.known()?;
        let kind = self.b.known()?;
        let p = self.a.pointer()?;
        let words = words_on(image, p, (n, n))?;
        if !self.are_free(words) {
            return Err(StateCode::S5);
        }
        if words.0 == words.1 {
            self.cells.set(words.0 as usize, kind.written());
        } else {
            self.blur(words);
        }
        self.pop_two();
        Ok(())
    }

    #[tactic(auto, unfolding(crate::specs::Rules::rule))]
    pub(super) fn lb(&mut self) -> Result<(), StateCode>
        ensures value { FollowsEachRule Lb result self.old self.new }
        ensures kept { KeepsPlace self.old self.new }
    {
        self.a.known()?;
        let p = self.a.byte_pointer()?;
        if !self.are_defined(words_of_bytes(p)) {
            return Err(StateCode::S4);
        }
        self.set_areg(BYTE);
        Ok(())
    }

    #[tactic(auto, unfolding(crate::specs::Rules::rule))]
    pub(super) fn sb(&mut self) -> Result<(), StateCode>
        ensures value { FollowsEachRule Sb result self.old self.new }
        ensures kept { KeepsPlace self.old self.new }
    {
        self.a.known()?;
        self.b.known()?;
        let p = self.a.byte_pointer()?;
        self.b.number()?;
        let words = words_of_bytes(p);
        if !self.are_free(words) {
            return Err(StateCode::S5);
        }
        self.blur(words);
        self.pop_two();
        Ok(())
    }
}

/// The value of a byte.
const BYTE: Kind = Kind::Int(0, 255);

/// How many words there are from the first to the last.
fn count(words: (u32, u32)) -> usize
    ensures { result ≡ words.1 + 1 - words.0 }
{
    (words.1 as usize + 1).saturating_sub(words.0 as usize)
}

/// The words that have the bytes from the first to the last.
fn words_of_bytes(bytes: (u64, u64)) -> (u32, u32)
    requires first { bytes.0 < 2 ^ 34 }
    requires last { bytes.1 < 2 ^ 34 }
    ensures { result ≡ words_of_bytes bytes }
{
    ((bytes.0 / 4) as u32, (bytes.1 / 4) as u32)
}
