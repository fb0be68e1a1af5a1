//! Laws of steps and runs, of all images and states: each function's contract is the law.

pub mod memory;

ghost use Rattle.std.specs.Prelude.{◌≡◌, ℕ, ◌+◌, ◌-◌, ◌*◌, ◌≤◌, ℤ, pos, List, length, [], ◌∷◌, true, false, Some, None};
ghost use Rattle.std.specs.Prelude.{option_and_then};
ghost use Rattle.tp_decode.specs.Spelling.{IsSpelledAt};
ghost use Rattle.tp_decode.specs.Table.{entry};
ghost use Rattle.tp_decode.specs.declared.instr.Instr.{Instr};
ghost use Rattle.tp_image.specs.Image.{ImageValue, InRange};
ghost use Rattle.tp_image.specs.Upgrade.{upgraded};
ghost use Rattle.tp_step.specs.State.{State};
ghost use Rattle.tp_step.specs.Effects.{effect};
ghost use Rattle.tp_step.specs.Steps.{performed, step, steps, IsStuck, Reaches};
ghost use Rattle.tp_step.specs.Runs.{start, Run, RunsAlone, HasExchanged};
ghost use Rattle.tp_step.specs.Lasting.{Begins, TakesNothingBack};
ghost use Rattle.tp_step.specs.Writes.{written, written_next, workspace, ChangesOnly, Writes};

/// A state has at most one next state.
pub fn one_next_state()
    ensures { (image : ImageValue) (s t u : State) → step image s ≡ Some t → step image s ≡ Some u → t ≡ u }
{}

/// A stopped state makes no step, and is not stuck.
#[tactic(auto, using(crate::proofs::StepLemmas::stopped_rests, crate::proofs::StepLemmas::stopped_not_stuck))]
pub fn stopped_rests()
    ensures no_step { (image : ImageValue) (s : State) → s.stopped ≡ true → step image s ≡ None }
    ensures not_stuck { (image : ImageValue) (s : State) → s.stopped ≡ true → ¬ IsStuck image s }
{}

/// n + m steps are n steps and then m.
#[tactic(auto, using(crate::proofs::StepLemmas::steps_add))]
pub fn steps_in_a_row()
    ensures { (image : ImageValue) (n m : ℕ) (s : State) →
        steps image (n + m) s ≡ option_and_then (steps image m) (steps image n s) }
{}

/// The bytes of a spelling, prefixes and all, lead to the effect of the function and the operand that they spell. Where
/// the table has no such instruction, or the instruction has no effect here, they lead nowhere.
#[tactic(auto, using(crate::proofs::SpellingLemmas::spelling_runs))]
pub fn spelling_runs_through()
    ensures { (image : ImageValue) (s : State) (at next function : ℕ) (operand : ℤ) →
        s.stopped ≡ false → s.oreg ≡ 0 → s.iptr ≡ pos at →
        IsSpelledAt image.code at record { function = function; operand = operand; next = next } →
        steps image (next - at) s ≡ performed image function operand (record s { iptr = pos next }) }
{}

/// So the bytes of an instruction lead to its effect.
#[tactic(auto, using(crate::proofs::SpellingLemmas::instruction_runs))]
pub fn instruction_runs_through()
    ensures { (image : ImageValue) (s : State) (at next : ℕ) (instr : Instr) →
        s.stopped ≡ false → s.oreg ≡ 0 → s.iptr ≡ pos at →
        IsSpelledAt image.code at
        record { function = (entry instr).function; operand = (entry instr).operand; next = next } →
        steps image (next - at) s ≡ effect image instr (record s { iptr = pos next }) }
{}

/// A packet has at most one run alone.
#[tactic(auto, using(crate::proofs::StepLemmas::one_run))]
pub fn one_run_alone()
    ensures { (image : ImageValue) (packet : List ℕ) (a b : Run) →
        RunsAlone image packet a → RunsAlone image packet b → a ≡ b }
{}

/// Where a packet has a run alone, every state that steps reach from its start lies on the way to the end, and none of
/// them is stuck.
pub fn never_stuck_before_the_end()
    ensures within { (image : ImageValue) (packet : List ℕ) (run : Run) (s : State) → RunsAlone image packet run →
        (way : Reaches image (start image packet) s) → way.count ≤ run.steps }
    ensures not_stuck { (image : ImageValue) (packet : List ℕ) (run : Run) (s : State) →
        RunsAlone image packet run → Reaches image (start image packet) s → ¬ IsStuck image s }
{}

/// The result of a run alone has the length that the image states.
#[tactic(auto, using(crate::proofs::SentLemmas::result_length))]
pub fn result_has_its_length()
    ensures { (image : ImageValue) (packet : List ℕ) (run : Run) → RunsAlone image packet run →
        length run.result ≡ 4 * image.result }
{}

/// A worker receives its packet whole, and sends nothing on link 0 before its result, which it sends whole.
pub fn packet_and_result_go_whole()
    ensures { (image : ImageValue) (packet : List ℕ) (s : State) →
        Reaches image (start image packet) s → HasExchanged image packet s.phase s.to_come s.sent }
{}

/// Steps take nothing back: the error flag stays set once it is set; what was sent on either link stays, with what is
/// sent later behind it; bytes to come are taken from their front alone; and no phase comes again.
pub fn steps_take_nothing_back()
    ensures { (image : ImageValue) (n : ℕ) (s t : State) → steps image n s ≡ Some t → TakesNothingBack s t }
{}

/// So what a worker has sent on the way of a packet's run, the run sends first.
pub fn runs_send_first_what_was_sent()
    ensures { (image : ImageValue) (packet : List ℕ) (run : Run) → RunsAlone image packet run → (n : ℕ) (s : State) →
        steps image n (start image packet) ≡ Some s → Begins s.sent run.result × Begins s.traced run.trace }
{}

/// Who writes what is a list: an instruction writes the stretches of memory that the list has for it, in the workspace,
/// and every other byte stays as it was. A step writes what the instruction whose last byte it executes writes; a
/// prefix writes nothing.
pub fn instructions_write_what_is_listed()
    ensures instruction { (image : ImageValue) (instr : Instr) (s t : State) → InRange image →
        effect image instr s ≡ Some t → Writes image (written instr s) s.memory t.memory }
    ensures step { (image : ImageValue) (s t : State) → InRange image →
        step image s ≡ Some t → Writes image (written_next image s) s.memory t.memory }
{}

/// So nothing outside the workspace changes.
pub fn steps_change_the_workspace_alone()
    ensures { (image : ImageValue) (n : ℕ) (s t : State) → InRange image →
        steps image n s ≡ Some t → ChangesOnly (workspace image ∷ []) s.memory t.memory }
{}

/// The upgraded image does what the image does: its steps are steps of the upgraded one, and so is each run. Nothing
/// but move reads the version, and an image of version 1 has no step there, where the upgraded one may have.
pub fn upgraded_images_do_the_same()
    ensures steps { (image : ImageValue) (n : ℕ) (s t : State) →
        steps image n s ≡ Some t → steps (upgraded image) n s ≡ Some t }
    ensures runs { (image : ImageValue) (packet : List ℕ) (run : Run) →
        RunsAlone image packet run → RunsAlone (upgraded image) packet run }
{}
