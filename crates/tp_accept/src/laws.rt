//! Laws of the bound, and of answers: each function's contract is the law.

ghost use Rattle.std.specs.Prelude.{◌≡◌, ◌↔◌, ◌≤◌, ◌<◌, ◌+◌, ℕ, List, [], ◌∷◌, length, All, Some, Ok, IsTrue};
ghost use Rattle.tp_image.specs.declared.image.LoopRow.{LoopRow};
ghost use Rattle.tp_image.specs.Image.{ImageValue, InRange};
ghost use Rattle.tp_image.specs.Upgrade.{upgraded};
ghost use Rattle.tp_image.specs.Text.{text};
ghost use Rattle.tp_decode.specs.Cutting.{Cut, cut_at, IsCutting};
ghost use Rattle.tp_flow.specs.declared.edge.Edge.{Edge};
ghost use Rattle.tp_flow.specs.declared.edge.Edge.TheVariants.{Back};
ghost use Rattle.tp_flow.specs.NestRanges.{ranges};
ghost use Rattle.tp_flow.specs.RowRules.{is_start};
ghost use Rattle.tp_flow.specs.NestKept.{IsEdge, KeepsNest};
ghost use Rattle.tp_step.specs.Runs.{Run, RunsAlone};
ghost use Rattle.tp_accept.specs.Bound.{bound, costs_of};
ghost use Rattle.tp_accept.specs.Equations.{AreCosts};
ghost use Rattle.tp_accept.specs.Measure.{Counts, measure, AreCountsAfter, HasTurns};
ghost use Rattle.tp_accept.specs.Walks.{Walk};
ghost use Rattle.tp_accept.specs.Verdict.{Allowed, Answer, IsAnswer};
ghost use Rattle.tp_accept.specs.Acceptance.{IsAcceptable};
ghost use Rattle.tp_accept.specs.Ending.{IsPacket, NeverGoesWrong};
ghost use Rattle.tp_accept.specs.Workers.{bound_of_bytes, measure_of_bytes, two_and_three, row, increment, sum_to, ten};
ghost use Rattle.tp_accept.specs.Workers.{ten_thousand, loop_in_a_loop, outer_and_inner, early_exit, two_ways};
ghost use Rattle.tp_accept.specs.Workers.{neighbours};

pub mod exact;

use crate::accepted::Accepted;
use tp_check::laws::{passes_have_a_verdict, passes_have_one_verdict};

/// One text has one answer: it is not both allowed and refused, nor allowed or refused in two ways.
pub fn one_text_has_one_answer()
    ensures { (text : List ℕ) (answer other : Answer) → IsAnswer text answer → IsAnswer text other → answer ≡ other }
{
    passes_have_one_verdict();
}

/// Each text has an answer: the verdict is a function of the bytes.
pub fn each_text_has_an_answer()
    ensures { (text : List ℕ) → All (λ byte. byte < 256) text → (answer : Answer) × IsAnswer text answer }
{
    passes_have_a_verdict();
}

/// The costs of a code meet the equations of the bound.
pub fn costs_meet_their_equations()
    ensures { (rows : List LoopRow) (workspace : ℕ) (code : List Cut) → KeepsNest rows workspace code →
        AreCosts rows code (λ at. (costs_of rows code at).left) (λ at to. (costs_of rows code to).whole) }
{}

/// Nothing else does: whatever meets them has the same costs at each instruction, and the bound at the first.
pub fn equations_determine_costs()
    ensures left { (rows : List LoopRow) (workspace : ℕ) (code : List Cut) → KeepsNest rows workspace code →
        (L : ℕ → ℕ) (V : ℕ → ℕ → ℕ) → AreCosts rows code L V → (at : ℕ) → IsTrue (is_start code at) →
        L at ≡ (costs_of rows code at).left }
    ensures whole { (rows : List LoopRow) (workspace : ℕ) (code : List Cut) → KeepsNest rows workspace code →
        (L : ℕ → ℕ) (V : ℕ → ℕ → ℕ) → AreCosts rows code L V → (at to : ℕ) → at < to → IsTrue (is_start code to) →
        V at to ≡ (costs_of rows code to).whole }
    ensures bound { (rows : List LoopRow) (workspace : ℕ) (code : List Cut) → KeepsNest rows workspace code →
        (L : ℕ → ℕ) (V : ℕ → ℕ → ℕ) → AreCosts rows code L V → IsTrue (is_start code 0) → L 0 ≡ bound rows code }
{}

/// The code of an image begins with an instruction.
#[tactic(auto, using(crate::proofs::LookedUp::first_starts))]
pub fn code_begins_with_an_instruction()
    ensures { (image : ImageValue) (cuts : List Cut) → InRange image → IsCutting image.code cuts →
        IsTrue (is_start cuts 0) }
{}

/// At the start the measure is the bound.
pub fn measure_starts_with_the_bound()
    ensures { (rows : List LoopRow) (workspace : ℕ) (code : List Cut) → KeepsNest rows workspace code →
        IsTrue (is_start code 0) → (counts : Counts) → measure rows code 0 0 counts ≡ bound rows code }
{}

/// Each byte of an instruction takes one from the measure, and there are enough for all of them.
pub fn each_byte_takes_one()
    ensures each { (rows : List LoopRow) (workspace : ℕ) (code : List Cut) → KeepsNest rows workspace code →
        (at executed : ℕ) (cut : Cut) (counts : Counts) → cut_at code at ≡ Some cut → executed ≤ length cut.bytes →
        executed + measure rows code at executed counts ≡ measure rows code at 0 counts }
    ensures enough { (rows : List LoopRow) (workspace : ℕ) (code : List Cut) → KeepsNest rows workspace code →
        (at : ℕ) (cut : Cut) (counts : Counts) → cut_at code at ≡ Some cut →
        length cut.bytes ≤ measure rows code at 0 counts }
{}

/// Along each edge the measure goes down by at least the bytes of the instruction that were still to come.
pub fn measure_goes_down()
    ensures { (rows : List LoopRow) (workspace : ℕ) (code : List Cut) → KeepsNest rows workspace code →
        (at to executed : ℕ) (edge : Edge) (counts later : Counts) (e : IsEdge (ranges rows) code at edge to) →
        (edge ≡ Back → HasTurns rows at counts) → AreCountsAfter rows at edge to counts later →
        executed ≤ length e.cut.bytes →
        length e.cut.bytes + measure rows code to 0 later ≤ executed + measure rows code at executed counts }
{}

/// No way through a code from its start executes more bytes than the bound.
pub fn no_walk_is_longer()
    ensures { (rows : List LoopRow) (workspace : ℕ) (code : List Cut) → KeepsNest rows workspace code →
        IsTrue (is_start code 0) → (counts : Counts) (n : ℕ) → Walk rows code 0 counts n → n ≤ bound rows code }
{}

/// No way through the code of an accepted image executes more bytes than its budget.
pub fn no_walk_is_longer_than_the_budget(accepted: &Accepted)
    ensures { (cuts : List Cut) → IsCutting accepted.now.image.code cuts → (counts : Counts) (n : ℕ) →
        Walk accepted.now.image.loops cuts 0 counts n → n ≤ accepted.now.budget }
{}

/// The worker of an acceptable image never goes wrong: each packet's run ends within the budget, by stopp, with a
/// result of the length that the image states, and no state on the way is stuck.
pub fn acceptable_code_never_goes_wrong()
    ensures { (image : ImageValue) (budget : ℕ) → IsAcceptable image budget → NeverGoesWrong image budget }
{}

/// So the worker of an accepted image never goes wrong within its budget.
pub fn accepted_code_never_goes_wrong(accepted: &Accepted)
    ensures { NeverGoesWrong accepted.now.image accepted.now.budget }
{}

/// Upgrading an acceptable image changes nothing: the upgraded image is acceptable with the same budget, and each
/// packet's run alone is that of the image. Only move reads the version, and no instruction of an acceptable image of
/// version 1 that a state reaches is a move. Of any other image [`tp_step::laws::upgraded_images_do_the_same`] says
/// what stays.
pub fn upgrading_changes_nothing()
    ensures acceptable { (image : ImageValue) (budget : ℕ) → IsAcceptable image budget →
        IsAcceptable (upgraded image) budget }
    ensures runs { (image : ImageValue) (budget : ℕ) (packet : List ℕ) (run : Run) → IsAcceptable image budget →
        IsPacket image packet → (RunsAlone image packet run ↔ RunsAlone (upgraded image) packet run) }
    // And where the image's text is allowed, so is the upgraded image's, with the same code bytes and the same budget.
    ensures answers { (image : ImageValue) (found : Allowed) → InRange image → IsAnswer (text image) (Ok found) →
        IsAnswer (text (upgraded image)) (Ok found) }
{}

/// The bounds of small workers, as they are worked out by hand.
#[tactic(auto, unfolding(crate::proofs::Computing::by_steps))]
pub fn bounds_of_small_workers()
    ensures increment { bound_of_bytes [] increment ≡ Some 16 }

    // A loop of 10 turns, of one and of 10,000.
    ensures ten_turns { bound_of_bytes (row 12 18 10 10 ∷ []) (sum_to (0x4A ∷ [])) ≡ Some 99 }
    ensures one_turn { bound_of_bytes (row 12 18 10 1 ∷ []) (sum_to (0x41 ∷ [])) ≡ Some 27 }
    ensures many_turns { bound_of_bytes (row 15 21 10 10000 ∷ []) (sum_to ten_thousand) ≡ Some 80022 }

    // 10,000 turns in each of 10,000 turns, and in each of ten.
    ensures long { bound_of_bytes (outer_and_inner 10000) (loop_in_a_loop ten_thousand) ≡ Some 400110020 }
    ensures short { bound_of_bytes (outer_and_inner 10) (loop_in_a_loop ten) ≡ Some 400130 }

    // Five turns of three bytes and seven of three, after one byte and before two.
    ensures neighbours { bound_of_bytes (row 1 2 8 5 ∷ row 4 5 10 7 ∷ []) neighbours ≡ Some 39 }

    // The longer of two ways.
    ensures early_exit { bound_of_bytes [] early_exit ≡ Some 17 }
    ensures two_ways { bound_of_bytes [] two_ways ≡ Some 20 }
{}

/// The measure before the last instruction but one of an inner loop, and in the midst of its lend, as they are worked
/// out by hand.
#[tactic(auto, unfolding(crate::proofs::Computing::by_steps))]
pub fn measures_in_a_small_worker()
    ensures before { measure_of_bytes (outer_and_inner 10) (loop_in_a_loop ten) 21 0 two_and_three ≡ Some 40033 }
    ensures among { measure_of_bytes (outer_and_inner 10) (loop_in_a_loop ten) 22 1 two_and_three ≡ Some 40031 }
{}
