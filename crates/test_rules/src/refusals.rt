//! Where small codes are refused: the call on the state before the instruction that is refused.

ghost use Rattle.std.specs.Prelude.{◌≡◌, pos, [], ◌∷◌, ◌++◌, replicate, Err};
ghost use Rattle.tp_decode.specs.declared.instr.Instr.TheVariants.{Ajw, Ldl, Stl, Add, Input, Output, Wsub, MoveBytes};
ghost use Rattle.tp_image.specs.declared.image.Version.TheVariants.{One, Two};
ghost use Rattle.tp_flow.specs.declared.edge.Edge.TheVariants.{Next};
ghost use Rattle.tp_state.specs.declared.kind.Kind.TheVariants.{Undef, Int, Ptr};
ghost use Rattle.tp_state.specs.declared.cell.Cell.TheVariants as cell;
ghost use Rattle.tp_state.specs.declared.fault.StateCode.TheVariants.{S1, S2, S3, S4, S5, S6, S7, S8, S9, S11};
ghost use Rattle.tp_state.specs.After.{after};
ghost use Rattle.tp_state.specs.Entry.{entry};
ghost use Rattle.test_rules.specs.Samples.{minus, one, any, worker, taken, packet_channel, result_channel};

/// The refusals of small codes.
#[tactic(auto, unfolding(crate::proofs::Computing::by_computing))]
pub fn codes_refused()
    // j 0, ldl 0, add: Breg is undefined after j
    ensures read_after_jump { after (worker One 12) 8 9 Add Next (taken any Undef Undef 3) ≡ Err S1 }
    // ldc 8 in place of ldc 4 before in
    ensures long_packet { after (worker One 12) 5 6 Input Next
        (record (entry (worker One 12)) { a = one 8; b = packet_channel; c = Ptr 8 8 }) ≡ Err S7 }
    // the result sent twice
    ensures second_result { after (worker One 12) 15 16 Output Next
        (record (taken (one 4) result_channel (Ptr 8 8) 3) { phase = 2 }) ≡ Err S9 }
    // ldl 0, ldlp 2, wsub: any number of words on from word 10
    ensures wild_subscript { after (worker One 20) 8 9 Wsub Next (taken (Ptr 10 10) any Undef 11) ≡ Err S3 }
    // ldl -1 after in
    ensures word_below { after (worker One 12) 6 8 (Ldl (minus 1)) Next (taken Undef Undef Undef 3) ≡ Err S4 }
    // stl 3 in a loop, whose count is word 11
    ensures live_count { after (record (worker One 16) {
      loops = record {
        head = 12;
        lend = 18;
        control = 10;
        count = 10;
        start = pos 0;
      } ∷ [];
    }) 15 16 (Stl (pos 3)) Next
        (record (taken any Undef Undef 7) {
          cells = replicate 3 (cell.Known (pos 0)) ++ (replicate 5 cell.Undef ++
              (cell.Any ∷ cell.Known (pos 0) ∷ cell.Index 0 ∷ cell.Count 0 ∷ replicate 4 (cell.Known (pos 0))));
        }) ≡ Err S5 }
    // move in version 1
    ensures move_in_version_1 { after (worker One 16) 10 12 MoveBytes Next (taken (one 4) (Ptr 8 8) (Ptr 0 0) 7) ≡
        Err S11 }
    // ajw 8 in a workspace of 12 words
    ensures frame_outside { after (worker One 12) 0 1 (Ajw (pos 8)) Next (entry (worker One 12)) ≡ Err S6 }
    // ldc 0 in place of ldlp 0 before in
    ensures packet_to_a_number { after (worker One 12) 5 6 Input Next
        (record (entry (worker One 12)) { a = one 4; b = packet_channel; c = one 0 }) ≡ Err S2 }
    // ldnlp 3 in place of ldnlp 4 before in
    ensures wrong_channel { after (worker One 12) 5 6 Input Next (record
        (entry (worker One 12)) { a = one 4; b = Int (minus 2147483636) (minus 2147483636); c = Ptr 8 8 }) ≡ Err S8 }
    // move of a word to itself
    ensures overlap { after (worker Two 16) 9 11 MoveBytes Next (taken (one 4) (Ptr 8 8) (Ptr 8 8) 7) ≡ Err S3 }
{}
