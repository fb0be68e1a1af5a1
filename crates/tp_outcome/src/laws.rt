//! Laws that follow from the answer of a run.

ghost use Rattle.std.specs.Prelude.{ℕ};
ghost use Rattle.tp_image.specs.Image.{ImageValue};
ghost use Rattle.tp_step.specs.Runs.{RunsAlone};
ghost use Rattle.tp_outcome.specs.declared.outcome.Outcome.{Outcome};
ghost use Rattle.tp_outcome.specs.Devices.{Devices, packet_of};
ghost use Rattle.tp_outcome.specs.Answers.{start_of, Ended};

/// A run that has ended is the run alone of the packet that the source held: its result is what the sink took, and its
/// trace what the trace took.
pub fn an_ended_run_is_the_run_alone()
    ensures { (image : ImageValue) (limit : ℕ) (before after : Devices) (outcome : Outcome)
        (run : Ended image (start_of image before) limit before after outcome) →
        RunsAlone image (packet_of image before.source) record
        { result = run.state.sent; error = outcome.error; steps = outcome.steps; trace = run.state.traced } }
{}
