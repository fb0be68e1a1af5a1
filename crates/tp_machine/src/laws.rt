//! Laws that follow from the answer of a run.

ghost use Rattle.std.specs.Prelude.{◌<◌, All, Result};
ghost use Rattle.tp_link.specs.declared.links.LinkFault.{LinkFault};
ghost use Rattle.tp_outcome.specs.declared.outcome.Outcome.{Outcome};
ghost use Rattle.tp_outcome.specs.Devices.{Devices};
ghost use Rattle.tp_outcome.specs.Answers.{Answered};
ghost use Rattle.tp_machine.specs.Promise.{KeepsPromise};

use tp_accept::Accepted;

/// Accepted code never goes wrong. Let an image be accepted, with its budget. Let devices be as before, the source
/// holding bytes, each below 256 as `held` tells, and let a run on a machine have given this answer. Then the packet's
/// run alone ends by stopp, within the budget, its result has the length that the image states, and no state on the way
/// is stuck. The answer is the outcome of that run, or a device's refusal. Where the devices are open, the source holds
/// a whole packet, sink and trace have the room, and none can fail, it is the outcome.
pub fn accepted_code_never_goes_wrong(accepted: &Accepted)
    ensures { (before after : Devices) (answer : Result Outcome LinkFault) →
        All (λ byte. byte < 256) before.source.held →
        Answered accepted.now.image accepted.now.budget before after answer →
        KeepsPromise accepted.now.image accepted.now.budget before answer }
{}
