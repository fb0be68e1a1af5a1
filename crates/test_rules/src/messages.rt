//! States after messages, and along the edges of loops: computed examples.

ghost use Rattle.std.specs.Prelude.{◌≡◌, pos, [], ◌∷◌, Ok, Err, is_ok, true, Some, None};
ghost use Rattle.tp_decode.specs.declared.instr.Instr.TheVariants.{Jump, Cj, Stl, Input, Output, Lend};
ghost use Rattle.tp_image.specs.declared.image.Version.TheVariants.{One};
ghost use Rattle.tp_flow.specs.declared.edge.Edge.TheVariants.{Next, Taken, Back, Out};
ghost use Rattle.tp_state.specs.declared.kind.Kind.TheVariants.{Undef, Int, Ptr, BytePtr};
ghost use Rattle.tp_state.specs.declared.cell.Cell.TheVariants as cell;
ghost use Rattle.tp_state.specs.declared.fault.StateCode.TheVariants.{S1, S2, S3, S4, S5, S7, S8, S9};
ghost use Rattle.tp_step.specs.Effects.{effect, link0_input};
ghost use Rattle.tp_step.specs.Runs.{start};
ghost use Rattle.tp_state.specs.After.{after};
ghost use Rattle.tp_state.specs.Entry.{entry};
ghost use Rattle.tp_state.specs.Fits.{word_address};
ghost use Rattle.test_rules.specs.Samples.{minus, ints, one, any, image, image_of, regs, regs_words, words_with};
ghost use Rattle.test_rules.specs.Samples.{next_of, worker, packet_channel, result_channel, trace_channel};
ghost use Rattle.test_rules.specs.Samples.{descheduled};

/// Nothing refuses this in, and where its packet is not there the machine is stuck: so a state that fits has its
/// packet.
#[tactic(auto, unfolding(crate::proofs::Computing::by_computing))]
pub fn packet_must_be_there()
    ensures accepted { is_ok (after (worker One 12) 5 6 Input Next
        (record (entry (worker One 12)) { a = one 4; b = packet_channel; c = Ptr 8 8 })) ≡ true }
    ensures stuck { effect (worker One 12) Input (record
        (start (worker One 12) []) { areg = Some 4; breg = Some link0_input; creg = Some (word_address 8) }) ≡ None }
{}

/// in: the registers hold the length, the channel and the place.
#[tactic(auto, unfolding(crate::proofs::Computing::by_computing))]
pub fn in_computed()
    ensures taken { (next_of Input (regs (one 4) packet_channel (Ptr 7 7)) ≡
        Ok (descheduled 1 (cell.Any ∷ cell.Index 0 ∷ cell.Count 0 ∷ cell.Undef ∷ cell.Any ∷ [])))
        × (next_of Input (regs (one 4) packet_channel (Ptr 10 10)) ≡
        Ok (descheduled 1 (cell.Known (pos 9) ∷ cell.Index 0 ∷ cell.Count 0 ∷ cell.Any ∷ cell.Any ∷ [])))
        × (next_of Input (regs (one 4) packet_channel (Ptr 4 4)) ≡
        Ok (descheduled 1 (cell.Known (pos 9) ∷ cell.Index 0 ∷ cell.Count 0 ∷ cell.Undef ∷ cell.Any ∷ []))) }
    ensures registers { (next_of Input (regs Undef (Ptr 0 0) (Ptr 7 7)) ≡ Err S1)
        × (next_of Input (regs (one 4) packet_channel Undef) ≡ Err S1)
        × (next_of Input (regs (Ptr 0 0) packet_channel (Ptr 7 7)) ≡ Err S2)
        × (next_of Input (regs (one 5) (one 5) (Ptr 7 10)) ≡ Err S2)
        × (next_of Input (regs (one 4) packet_channel (one 7)) ≡ Err S2) }
    ensures channel { (next_of Input (regs (one 5) result_channel (Ptr 7 7)) ≡ Err S8)
        × (next_of Input (regs (one 4) any (Ptr 7 7)) ≡ Err S8) }
    ensures length { (next_of Input (record (regs (one 8) packet_channel (Ptr 7 7)) { phase = 1 }) ≡ Err S7)
        × (next_of Input (regs (ints 4 8) packet_channel (Ptr 7 7)) ≡ Err S7) }
    ensures order { (next_of Input (record (regs (one 4) packet_channel (Ptr 7 7)) { phase = 1 }) ≡ Err S9)
        × (after (image_of One 2 2) 12 14 Input Next (record (regs (one 8) packet_channel (Ptr 11 11)) { phase = 2 }) ≡
        Err S9) }
    ensures place { (after (image_of One 2 2) 12 14 Input Next (regs (one 8) packet_channel (Ptr 11 11)) ≡ Err S3)
        × (after (image_of One 2 2) 12 14 Input Next (regs (one 8) packet_channel (Ptr 10 10)) ≡
        Ok (descheduled 1 (cell.Known (pos 9) ∷ cell.Index 0 ∷ cell.Count 0 ∷ cell.Any ∷ cell.Any ∷ []))) }
    ensures live { (next_of Input (regs (one 4) packet_channel (Ptr 8 8)) ≡ Err S5)
        × (after (image_of One 2 2) 12 14 Input Next (regs (one 8) packet_channel (Ptr 7 7)) ≡ Err S5)
        × (next_of Input (record (regs (one 4) packet_channel (Ptr 0 0)) { wptr = 11 }) ≡ Err S5) }
{}

/// out: the result on link 0, traces on link 1.
#[tactic(auto, unfolding(crate::proofs::Computing::by_computing))]
pub fn out_computed()
    ensures result { (next_of Output (record (regs (one 4) result_channel (Ptr 7 7)) { phase = 1 }) ≡
        Ok (descheduled 2 (cell.Known (pos 9) ∷ cell.Index 0 ∷ cell.Count 0 ∷ cell.Undef ∷ cell.Any ∷ [])))
        × (next_of Output (record (regs (one 4) result_channel (Ptr 8 8)) { phase = 1 }) ≡
        Ok (descheduled 2 (cell.Known (pos 9) ∷ cell.Index 0 ∷ cell.Count 0 ∷ cell.Undef ∷ cell.Any ∷ [])))
        × (after (image_of One 2 2) 12 14 Output Next (record (regs (one 8) result_channel (Ptr 0 0)) { phase = 1 }) ≡
        Ok (descheduled 2 (cell.Known (pos 9) ∷ cell.Index 0 ∷ cell.Count 0 ∷ cell.Undef ∷ cell.Any ∷ []))) }
    ensures trace { (next_of Output (regs (one 8) trace_channel (Ptr 7 7)) ≡
        Ok (descheduled 0 (cell.Known (pos 9) ∷ cell.Index 0 ∷ cell.Count 0 ∷ cell.Undef ∷ cell.Any ∷ [])))
        × (next_of Output (record (regs (one 4) trace_channel (Ptr 0 0)) { phase = 2 }) ≡
        Ok (descheduled 2 (cell.Known (pos 9) ∷ cell.Index 0 ∷ cell.Count 0 ∷ cell.Undef ∷ cell.Any ∷ []))) }
    ensures registers { (next_of Output (regs (one 4) Undef (one 0)) ≡ Err S1)
        × (next_of Output (regs (Ptr 0 0) result_channel (Ptr 7 7)) ≡ Err S2)
        × (next_of Output (regs (one 4) result_channel (BytePtr 0 0)) ≡ Err S2)
        × (next_of Output (regs (one 4) trace_channel (Ptr 0 1)) ≡ Err S2) }
    ensures channel { (next_of Output (regs (one 5) packet_channel (Ptr 7 7)) ≡ Err S8)
        × (next_of Output (regs (one 4) (Int (minus 2147483648) (minus 2147483644)) (Ptr 7 7)) ≡ Err S8) }
    ensures length { (next_of Output (regs (one 8) result_channel (Ptr 7 7)) ≡ Err S7)
        × (next_of Output (regs (one 6) trace_channel (Ptr 7 7)) ≡ Err S7)
        × (next_of Output (regs (one 260) trace_channel (Ptr 7 7)) ≡ Err S7)
        × (next_of Output (regs (one 0) trace_channel (Ptr 7 7)) ≡ Err S7)
        × (next_of Output (regs (ints 4 8) trace_channel (Ptr 7 7)) ≡ Err S7) }
    ensures order { (next_of Output (regs (one 4) result_channel (Ptr 7 7)) ≡ Err S9)
        × (next_of Output (record (regs (one 4) result_channel (Ptr 7 7)) { phase = 2 }) ≡ Err S9)
        × (after (image_of One 2 2) 12 14 Output Next (regs (one 8) result_channel (Ptr 11 11)) ≡ Err S9) }
    ensures place { (next_of Output (regs (one 8) trace_channel (Ptr 11 11)) ≡ Err S3)
        × (next_of Output (regs (one 256) trace_channel (Ptr 0 0)) ≡ Err S3) }
    ensures undefined { (next_of Output (regs (one 4) trace_channel (Ptr 10 10)) ≡ Err S4)
        × (next_of Output (regs (one 4) trace_channel (Ptr 3 3)) ≡ Err S4)
        × (next_of Output (record (regs (one 4) trace_channel (Ptr 8 8)) { wptr = 11 }) ≡ Err S4) }
    ensures live { (next_of Output (record (regs (one 4) trace_channel (Ptr 0 0)) { wptr = 11 }) ≡ Err S5)
        × (next_of Output (record (regs (one 4) trace_channel (Ptr 11 11)) { wptr = 9 }) ≡ Err S5) }
{}

/// j, lend, and edges that enter a loop.
#[tactic(auto, unfolding(crate::proofs::Computing::by_computing))]
pub fn loops_computed()
    ensures jump { (after image 12 14 (Jump (pos 1)) Taken (regs (one 1) (one 2) (one 3)) ≡
        Ok (descheduled 0 (cell.Known (pos 9) ∷ cell.Index 0 ∷ cell.Count 0 ∷ cell.Undef ∷ cell.Any ∷ [])))
        × (after image 2 4 (Jump (pos 1)) Taken (regs Undef Undef Undef) ≡
        Ok (descheduled 0 (cell.Known (pos 9) ∷ cell.Index 0 ∷ cell.Count 0 ∷ cell.Undef ∷ cell.Any ∷ []))) }
    ensures jump_live { (after image 12 14 (Jump (pos 1)) Taken (record (regs Undef Undef Undef) { wptr = 9 }) ≡ Err S5)
        × (after image 12 14 (Jump (pos 1)) Taken (record (regs Undef Undef Undef) { wptr = 11 }) ≡ Err S5) }
    ensures lend { (after image 40 42 Lend Back (regs (one 32) (Ptr 8 8) Undef) ≡
        Ok (descheduled 0 (cell.Known (pos 9) ∷ cell.Index 0 ∷ cell.Count 0 ∷ cell.Undef ∷ cell.Any ∷ [])))
        × (after image 40 42 Lend Out (regs (one 32) (Ptr 8 8) (one 1)) ≡
        Ok (descheduled 0 (cell.Known (pos 9) ∷ cell.Undef ∷ cell.Undef ∷ cell.Undef ∷ cell.Any ∷ []))) }
    ensures lend_registers { (after image 40 42 Lend Back (regs Undef (one 1) Undef) ≡ Err S1)
        × (after image 40 42 Lend Back (regs (Ptr 1 1) Undef Undef) ≡ Err S1)
        × (after image 40 42 Lend Out (regs (one 32) (one 8) Undef) ≡ Err S2)
        × (after image 40 42 Lend Out (regs (Ptr 8 8) (Ptr 8 8) Undef) ≡ Err S2) }
    ensures lend_declared { (after image 40 42 Lend Back (regs (one 31) (Ptr 8 8) Undef) ≡ Err S5)
        × (after image 40 42 Lend Back (regs (ints 31 32) (Ptr 8 8) Undef) ≡ Err S5)
        × (after image 40 42 Lend Out (regs (one 32) (Ptr 10 10) Undef) ≡ Err S5)
        × (after image 40 42 Lend Out (regs (one 32) (Ptr 8 9) Undef) ≡ Err S5)
        × (after image 41 43 Lend Out (regs (one 32) (Ptr 8 8) Undef) ≡ Err S5) }
    ensures lend_live { (after image 40 42 Lend Back (record (regs (one 32) (Ptr 8 8) Undef) { wptr = 10 }) ≡ Err S5)
        × (after image 40 42 Lend Out (record (regs (one 32) (Ptr 8 8) Undef) { wptr = 11 }) ≡ Err S5) }
    ensures entering { (after image 2 4 (Jump (pos 6)) Taken
        (regs_words Undef Undef Undef
        (words_with (cell.Known (pos 9) ∷ cell.Known (pos 5) ∷ cell.Known (pos 3) ∷ cell.Undef ∷ cell.Any ∷ []))) ≡
        Ok (descheduled 0 (cell.Known (pos 9) ∷ cell.Index 0 ∷ cell.Count 0 ∷ cell.Undef ∷ cell.Any ∷ [])))
        × (after image 2 4 (Cj (pos 6)) Taken
        (regs_words any (one 1) Undef
        (words_with (cell.Known (pos 9) ∷ cell.Known (pos 5) ∷ cell.Known (pos 3) ∷ cell.Undef ∷ cell.Any ∷ []))) ≡
        Ok (regs_words (one 0) (one 1) Undef
        (words_with (cell.Known (pos 9) ∷ cell.Index 0 ∷ cell.Count 0 ∷ cell.Undef ∷ cell.Any ∷ []))))
        × (after image 8 10 (Stl (pos 1)) Next
        (regs_words (one 5) (one 1) Undef
        (words_with (cell.Known (pos 9) ∷ cell.Any ∷ cell.Known (pos 3) ∷ cell.Undef ∷ cell.Any ∷ []))) ≡
        Ok (regs_words (one 1) Undef Undef
        (words_with (cell.Known (pos 9) ∷ cell.Index 0 ∷ cell.Count 0 ∷ cell.Undef ∷ cell.Any ∷ []))))
        × (after image 18 20 (Jump (pos 0)) Taken
        (regs_words Undef Undef Undef
        (words_with
        (cell.Known (pos 9) ∷ cell.Index 0 ∷ cell.Count 0 ∷ cell.Known (pos 1) ∷ cell.Known (pos 2) ∷ []))) ≡
        Ok (descheduled 0 (cell.Known (pos 9) ∷ cell.Index 0 ∷ cell.Count 0 ∷ cell.Index 1 ∷ cell.Count 1 ∷ []))) }
    ensures entering_refused { (after image 2 4 (Jump (pos 6)) Taken (regs_words Undef Undef Undef (words_with
        (cell.Known (pos 9) ∷ cell.Known (pos 4) ∷ cell.Known (pos 3) ∷ cell.Undef ∷ cell.Any ∷ []))) ≡ Err S5)
        × (after image 2 4 (Jump (pos 6)) Taken (regs_words Undef Undef Undef
        (words_with (cell.Known (pos 9) ∷ cell.Known (pos 5) ∷ cell.Any ∷ cell.Undef ∷ cell.Any ∷ []))) ≡ Err S5)
        × (after image 2 4 (Jump (pos 6)) Taken (regs_words Undef Undef Undef
        (words_with (cell.Known (pos 9) ∷ cell.Undef ∷ cell.Undef ∷ cell.Undef ∷ cell.Any ∷ []))) ≡ Err S5)
        × (after image 18 20 (Jump (pos 0)) Taken (regs Undef Undef Undef) ≡ Err S5) }
    ensures entering_last { (after image 2 4 (Cj (pos 6)) Taken (regs_words Undef Undef Undef
        (words_with (cell.Known (pos 9) ∷ cell.Undef ∷ cell.Undef ∷ cell.Undef ∷ cell.Any ∷ []))) ≡ Err S1)
        × (after image 2 4 (Cj (pos 6)) Taken (regs_words (Ptr 0 0) Undef Undef
        (words_with (cell.Known (pos 9) ∷ cell.Undef ∷ cell.Undef ∷ cell.Undef ∷ cell.Any ∷ []))) ≡ Err S2) }
{}
