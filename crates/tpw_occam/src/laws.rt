//! Laws of batches of compiled texts: each function's contract is the law.

ghost use Rattle.std.specs.Prelude.{◌≡◌, Bool, List, ℕ, Option};
ghost use Rattle.tp_image.specs.Image.{ImageValue};
ghost use Rattle.tp_image.specs.Text.{IsTextOf};
ghost use Rattle.tp_accept.specs.Verdict.{Answer, IsAnswer};
ghost use Rattle.tp_outcome.specs.Devices.{Devices};
ghost use Rattle.tp_collect.specs.declared.collected.Entry.{Entry};
ghost use Rattle.tp_session.specs.Served.{IsServed};
ghost use Rattle.tp_farm.specs.Jobs.{value_of_job};
ghost use Rattle.tp_farm.specs.Batches.{IsBatch};
ghost use Rattle.tpw_asm.specs.declared.program.Program.{Program};
ghost use Rattle.tpw_asm.specs.Assembly.{IsAssembly};
ghost use Rattle.tpw_occam_core.specs.Meaning.{Meant};
ghost use Rattle.tpw_occam_scoped.specs.Meaning.{meaning};
ghost use Rattle.tpw_occam_symbolic.specs.Program.{GivesRuled};
ghost use Rattle.tpw_occam.specs.declared.compiling.CompiledText.{CompiledText};
ghost use Rattle.tpw_occam.specs.Compilation.{IsCompiled, IsMeaningOf};
ghost use Rattle.tpw_occam.specs.Meanings.{AreMeant};
ghost use Rattle.tpw_occam.specs.Refusing.{IsOfStatesOrBudget};
ghost use Rattle.tpw_occam.specs.Serving.{IsTextServed};

use tp_farm::Job;
use tp_session::laws::results_are_in_time;

/// A text means at most one function of packets, whichever tree is taken for it.
pub fn a_text_means_one_function()
    ensures { (text : List ℕ) (f g : List ℕ → Option Meant) → IsMeaningOf text f → IsMeaningOf text g → f ≡ g }
{}

/// Each result that the farm collects of a compiled text is what the text means by its packet: the result's bytes, the
/// error flag and the trace, whatever the members, their schedule, the devices and the gate are.
///
/// The premises: the job's image is the one that the text's program is assembled to, the text is compiled
/// (`compile_text` answers that), and the batch was run (`run_batch` answers that). A packet whose traces are longer than
/// 256 bytes means nothing, and has no result.
pub fn batches_give_meanings(job: &Job<'_>)
    ensures { (text : List ℕ) (made : CompiledText) (open_for_good : Bool) (before after : List Devices)
        (entries : List Entry) →
        IsCompiled text made → IsAssembly made.program job.now.image.now.image →
        IsBatch (value_of_job job.now) open_for_good before after entries →
        AreMeant (meaning made.core) (value_of_job job.now) entries }
{}

/// The lines that a service writes for packets of a compiled text carry the text's meaning of them: a line `R n flag
/// steps result`, with the trace where it is asked for, where something is meant, and `LOST n` where the traces are too
/// long.
///
/// The premises: the text is compiled (`compile_text` answers that), and the output is what is served for the input
/// (`serve` answers that). Whichever sessions are open, this holds for those whose image is the one that the text's
/// program is assembled to.
pub fn lines_give_meanings()
    ensures { (text : List ℕ) (made : CompiledText) (trace : Bool) (input output : List ℕ) →
        IsCompiled text made → IsServed trace input output →
        IsTextServed text made.program trace input output }
{
    results_are_in_time();
}

/// The verifier refuses a compiled text for its states or its budget alone: the image of its program is in the
/// format, its code is cut into instructions, and its loops and jumps break no rule.
///
/// The premises: the image is the one that the program is assembled to, the program breaks no rule (`compile` answers
/// that of every sound worker), and the answer is the verdict on the image's text (`accept` answers that).
pub fn refused_for_states_or_budget_alone()
    ensures { (program : Program) (image : ImageValue) (text : List ℕ) (answer : Answer) →
        GivesRuled program → IsAssembly program image → IsTextOf text image → IsAnswer text answer →
        IsOfStatesOrBudget answer }
{}
