//! Runs of move (`24 FA`), which version 2 has. The word at `80000068` is `44332211`.
#![tactic(auto, unfolding(crate::proofs::Computing::by_steps))]

ghost use Rattle.std.specs.Prelude.{Some, [], ◌∷◌};
ghost use Rattle.tp_step.specs.Steps.{steps};
ghost use Rattle.test_effects.specs.Rows.{AreSo, IsStuckAt};
ghost use Rattle.test_effects.specs.Trials.{second_trial, bare, filled};

use crate::rows::Expected::{Leads, Sticks};
use crate::rows::Setting::{Filled, Holding, Lacking, Three, Two};
use crate::rows::{Row, Worker, rows, worker};

/// Areg bytes go to address Breg from address Creg, and the registers are lost. One range may end where the other
/// begins.
pub fn move_bytes() -> &'static [Row]
    ensures { AreSo result.now }
{
    const ROWS: &[Row] = rows! {
        word in Second: [0x24, 0xFA], [Three(4, 0x80000048, 0x80000068), Holding(8, &[0x44332211])]
            => Leads(&[Holding(8, &[0x44332211]), Holding(0, &[0x44332211])]);
        up in Second: [0x24, 0xFA], [Three(8, 0x80000050, 0x80000048), Holding(0, &[1, 2])]
            => Leads(&[Holding(0, &[1, 2]), Holding(2, &[1, 2])]);
        down in Second: [0x24, 0xFA], [Three(4, 0x80000048, 0x8000004C), Holding(1, &[5])]
            => Leads(&[Holding(1, &[5]), Holding(0, &[5])]);
        eight_words in Second: [0x24, 0xFA],
            [Three(32, 0x80000068, 0x80000048), Holding(0, &[1, 2, 3, 4, 5, 6, 7, 8])]
            => Leads(&[Holding(0, &[1, 2, 3, 4, 5, 6, 7, 8]), Holding(8, &[1, 2, 3, 4, 5, 6, 7, 8])]);
        unaligned in Second: [0x24, 0xFA], [Three(4, 0x80000048, 0x80000069), Holding(8, &[0x44332211])]
            => Leads(&[Holding(8, &[0x44332211]), Holding(0, &[0x00443322])]);
    };
    ROWS
}

/// Moves without an outcome: version 1, a count that is no number of words, ranges that overlap or leave the workspace,
/// and undefined bytes or registers.
pub fn no_move() -> &'static [Row]
    ensures { AreSo result.now }
{
    const ROWS: &[Row] = rows! {
        version_1: [0x24, 0xFA], [Three(4, 0x80000048, 0x80000068)] => Sticks;
        no_bytes in Second: [0x24, 0xFA], [Three(0, 0x80000048, 0x80000068)] => Sticks;
        odd in Second: [0x24, 0xFA], [Three(6, 0x80000048, 0x80000068)] => Sticks;
        overlap_up in Second: [0x24, 0xFA], [Three(8, 0x8000004C, 0x80000048)] => Sticks;
        overlap_down in Second: [0x24, 0xFA], [Three(8, 0x80000048, 0x8000004C)] => Sticks;
        itself in Second: [0x24, 0xFA], [Three(4, 0x80000048, 0x80000048)] => Sticks;
        target_outside in Second: [0x24, 0xFA], [Three(4, 0x80000088, 0x80000048)] => Sticks;
        source_outside in Second: [0x24, 0xFA], [Three(4, 0x80000048, 0x80000085), Filled] => Sticks;
        undefined_byte in Second: [0x24, 0xFA], [Three(4, 0x80000048, 0x80000068), Lacking(8, 1)] => Sticks;
        undefined in Second: [0x24, 0xFA], [Two(4, 0x80000048)] => Sticks;
    };
    ROWS
}

/// Nor are 513 words moved, in a workspace with the room for them twice. No image has that room, and no machine.
pub fn too_many_words()
    ensures { IsStuckAt (record (second_trial (0x24 ∷ 0xFA ∷ [])) { workspace = 2000 }) 1
        (steps (record (second_trial (0x24 ∷ 0xFA ∷ [])) { workspace = 2000 }) 1
        (filled (record bare { areg = Some 2052; breg = Some 0x80000048; creg = Some 0x80001048 }))) }
{}
