//! Laws of what is served: each function's contract is the law.

ghost use Rattle.std.specs.Prelude.{◌≡◌, ◌^◌, ◌-◌, ◌<◌, ◌+◌, ℕ, Bool, List, Option};
ghost use Rattle.tp_image.specs.Image.{ImageValue};
ghost use Rattle.tp_answers.specs.Results.{RunResult};
ghost use Rattle.tp_answers.specs.Answers.{Verdict};
ghost use Rattle.tp_session.specs.Protocol.{IsServedBy, next_number};
ghost use Rattle.tp_session.specs.Served.{IsServed, AreRuled};
ghost use Rattle.tp_session.specs.InTime.{IsOutcomeInTime};
ghost use Rattle.tp_requests.specs.Lines.{lines_of};
ghost use Rattle.tp_answers.specs.Rules.{IsVerdict};
ghost use Rattle.tp_session.specs.Protocol as protocol;

use tp_accept::laws::exact::acceptable_images_alone_may_be_run;
use tp_accept::laws::one_text_has_one_answer;

/// The output of a service is a function of the input, and of whether traces are written.
pub fn one_input_has_one_answer()
    ensures { (trace : Bool) (input output output' : List ℕ) → IsServed trace input output →
        IsServed trace input output' →
        output ≡ output' }
{
    one_text_has_one_answer();
}

/// The output is what the protocol alone says, whatever functions give the verdicts and the outcomes. These
/// determine it. So a reader of the protocol needs neither the rules of the verifier nor those of the machine.
pub fn what_is_served_follows_the_protocol()
    ensures follows { (verdict : List ℕ → Verdict) (outcome : ImageValue → List ℕ → Option RunResult) →
        AreRuled verdict outcome →
        (trace : Bool) (input output : List ℕ) → IsServed trace input output →
        IsServedBy verdict outcome trace input output }
    ensures one { (verdict : List ℕ → Verdict) (outcome : ImageValue → List ℕ → Option RunResult)
        (trace : Bool) (input output output' : List ℕ) → IsServedBy verdict outcome trace input output →
        IsServedBy verdict outcome trace input output' → output ≡ output' }
{}

/// The headline, read off what is written: each result that is served is that of a run which ends within the budget of
/// its image's `YES`, and no state on the run's way is stuck.
pub fn results_are_in_time()
    ensures { (trace : Bool) (input output : List ℕ) → IsServed trace input output →
        protocol.AreAnswered IsVerdict IsOutcomeInTime trace (lines_of input) output }
{
    acceptable_images_alone_may_be_run();
}

/// The number of a line stays at the greatest number of 64 bits.
pub fn line_numbers_stay_at_the_greatest()
    ensures stays { next_number 18446744073709551615 ≡ 18446744073709551615 }
    ensures reached { next_number 18446744073709551614 ≡ 18446744073709551615 }
{}
