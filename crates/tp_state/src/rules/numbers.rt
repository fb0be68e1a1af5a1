//! Numbers.

ghost use Rattle.tp_decode.specs.declared.instr.Instr.TheVariants.{Adc, Eqc, Diff, Add, Prod, Gt, Sub, Csub0, Rem, Div};
ghost use Rattle.tp_decode.specs.declared.instr.Instr.TheVariants.{BitNot, BitXor, Shr, Shl, BitAnd, BitOr, Sum, Mul};
ghost use Rattle.tp_state.specs.Conditions.{KeepsPlace};
ghost use Rattle.tp_state.specs.Rules.{rule, FollowsEachRule};

use crate::fault::StateCode;
use crate::kind::Kind;
use crate::ranges::{
    FULL, are_shift_counts, conjunctions, differences, products, quotients, raised, remainders,
    shifted_down, shifted_up, sums,
};
use crate::state::State;

/// 0 or 1.
const TRUTH_VALUE: Kind = Kind::Int(0, 1);

impl State {
    /// adc.
    #[tactic(auto, unfolding(crate::specs::Rules::rule))]
    pub(super) fn adc(&mut self, n: i32) -> Result<(), StateCode>
        ensures value { FollowsEachRule (Adc n) result self.old self.new }
        ensures kept { KeepsPlace self.old self.new }
    {
        let a = self.one_number()?;
        self.set_areg(raised(a, n));
        Ok(())
    }

    /// eqc.
    #[tactic(auto, unfolding(crate::specs::Rules::rule))]
    pub(super) fn eqc(&mut self, n: i32) -> Result<(), StateCode>
        ensures value { FollowsEachRule (Eqc n) result self.old self.new }
        ensures kept { KeepsPlace self.old self.new }
    {
        self.one_number()?;
        self.set_areg(TRUTH_VALUE);
        Ok(())
    }

    /// not.
    #[tactic(auto, unfolding(crate::specs::Rules::rule))]
    pub(super) fn bit_not(&mut self) -> Result<(), StateCode>
        ensures value { FollowsEachRule BitNot result self.old self.new }
        ensures kept { KeepsPlace self.old self.new }
    {
        let a = self.one_number()?;
        self.set_areg(Kind::Int(-1 - a.1, -1 - a.0));
        Ok(())
    }

    /// add and sum.
    #[tactic(auto, unfolding(crate::specs::Rules::rule))]
    pub(super) fn add(&mut self) -> Result<(), StateCode>
        ensures add { FollowsEachRule Add result self.old self.new }
        ensures sum { FollowsEachRule Sum result self.old self.new }
        ensures kept { KeepsPlace self.old self.new }
    {
        let (a, b) = self.two_numbers()?;
        self.replace_pair(sums(b, a));
        Ok(())
    }

    /// sub and diff.
    #[tactic(auto, unfolding(crate::specs::Rules::rule))]
    pub(super) fn sub(&mut self) -> Result<(), StateCode>
        ensures sub { FollowsEachRule Sub result self.old self.new }
        ensures diff { FollowsEachRule Diff result self.old self.new }
        ensures kept { KeepsPlace self.old self.new }
    {
        let (a, b) = self.two_numbers()?;
        self.replace_pair(differences(b, a));
        Ok(())
    }

    /// mul and prod.
    #[tactic(auto, unfolding(crate::specs::Rules::rule))]
    pub(super) fn mul(&mut self) -> Result<(), StateCode>
        ensures mul { FollowsEachRule Mul result self.old self.new }
        ensures prod { FollowsEachRule Prod result self.old self.new }
        ensures kept { KeepsPlace self.old self.new }
    {
        let (a, b) = self.two_numbers()?;
        self.replace_pair(products(b, a));
        Ok(())
    }

    /// div.
    #[tactic(auto, unfolding(crate::specs::Rules::rule))]
    pub(super) fn div(&mut self) -> Result<(), StateCode>
        ensures value { FollowsEachRule Div result self.old self.new }
        ensures kept { KeepsPlace self.old self.new }
    {
        let (a, b) = self.two_numbers()?;
        self.replace_pair(quotients(b, a));
        Ok(())
    }

    /// rem.
    #[tactic(auto, unfolding(crate::specs::Rules::rule))]
    pub(super) fn rem(&mut self) -> Result<(), StateCode>
        ensures value { FollowsEachRule Rem result self.old self.new }
        ensures kept { KeepsPlace self.old self.new }
    {
        let (a, b) = self.two_numbers()?;
        self.replace_pair(remainders(b, a));
        Ok(())
    }

    /// and.
    #[tactic(auto, unfolding(crate::specs::Rules::rule))]
    pub(super) fn bit_and(&mut self) -> Result<(), StateCode>
        ensures value { FollowsEachRule BitAnd result self.old self.new }
        ensures kept { KeepsPlace self.old self.new }
    {
        let (a, b) = self.two_numbers()?;
        self.replace_pair(conjunctions(b, a));
        Ok(())
    }

    /// or and xor.
    #[tactic(auto, unfolding(crate::specs::Rules::rule))]
    pub(super) fn bit_or(&mut self) -> Result<(), StateCode>
        ensures or { FollowsEachRule BitOr result self.old self.new }
        ensures xor { FollowsEachRule BitXor result self.old self.new }
        ensures kept { KeepsPlace self.old self.new }
    {
        self.two_numbers()?;
        self.replace_pair(FULL);
        Ok(())
    }

    /// gt.
    #[tactic(auto, unfolding(crate::specs::Rules::rule))]
    pub(super) fn gt(&mut self) -> Result<(), StateCode>
        ensures value { FollowsEachRule Gt result self.old self.new }
        ensures kept { KeepsPlace self.old self.new }
    {
        self.two_numbers()?;
        self.replace_pair(TRUTH_VALUE);
        Ok(())
    }

    /// csub0.
    #[tactic(auto, unfolding(crate::specs::Rules::rule))]
    pub(super) fn csub0(&mut self) -> Result<(), StateCode>
        ensures value { FollowsEachRule Csub0 result self.old self.new }
        ensures kept { KeepsPlace self.old self.new }
    {
        self.two_numbers()?;
        self.pop();
        Ok(())
    }

    /// shr.
    #[tactic(auto, unfolding(crate::specs::Rules::rule))]
    pub(super) fn shr(&mut self) -> Result<(), StateCode>
        ensures value { FollowsEachRule Shr result self.old self.new }
        ensures kept { KeepsPlace self.old self.new }
    {
        let (a, b) = self.two_numbers()?;
        if !are_shift_counts(a) {
            return Err(StateCode::S10);
        }
        self.replace_pair(shifted_down(b, a));
        Ok(())
    }

    /// shl.
    #[tactic(auto, unfolding(crate::specs::Rules::rule))]
    pub(super) fn shl(&mut self) -> Result<(), StateCode>
        ensures value { FollowsEachRule Shl result self.old self.new }
        ensures kept { KeepsPlace self.old self.new }
    {
        let (a, b) = self.two_numbers()?;
        if !are_shift_counts(a) {
            return Err(StateCode::S10);
        }
        self.replace_pair(shifted_up(b, a));
        Ok(())
    }
}
