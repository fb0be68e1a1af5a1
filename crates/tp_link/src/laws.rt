//! Laws of a faulty wire over any calls of it.

ghost use Rattle.std.specs.Prelude.{◌≡◌, ◌↔◌, ◌+◌, ℕ, List, ◌∷◌, ◌++◌, length, nat_le, ◌&&◌, if◌then◌else◌, IsErrOf};
ghost use Rattle.tp_link.specs.Device.{Answer};
ghost use Rattle.tp_link.specs.FaultyWire.{FaultPlan, new_plan, faults_of};
ghost use Rattle.tp_link.specs.Calls.{AreAnswers};

use crate::device::DeviceFault;

/// Of any sends and receives of a new [`FaultyWire`](crate::FaultyWire), in any order, its k-th call fails and no
/// other, and then its count of faults is 1.
pub fn fails_in_one_call()
    ensures failing { (k : ℕ) (before : List Answer) (answer : Answer) (later : List Answer) (q : FaultPlan) →
        AreAnswers (new_plan k) (before ++ answer ∷ later) q →
        (IsErrOf answer DeviceFault.Failed ↔ (length before + 1 ≡ k)) }
    ensures count { (k : ℕ) (answers : List Answer) (q : FaultPlan) →
        AreAnswers (new_plan k) answers q → faults_of q ≡ (if nat_le 1 k && nat_le k (length answers) then 1 else 0) }
{}
