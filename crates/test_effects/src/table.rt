//! The table of all runs: short ones, and small workers as image bytes with what their runs give. All of it was worked
//! out by hand from the instruction table.
//!
//! The contracts say that it is so by the definitions. The tests of `test_machine` make all of these runs on the tested
//! machine.
#![tactic(auto, unfolding(crate::proofs::Computing::by_steps))]

ghost use Rattle.test_effects.specs.Rows.{AllAreSo};
ghost use Rattle.test_effects.specs.Samples.{increment, sum_to_ten, loop_once, early_exit, jumps_into_spelling};
ghost use Rattle.test_effects.specs.Samples.{two_ways, picks_a_word, traces, moves_a_word};
ghost use Rattle.test_effects.specs.Table.{Says};

use crate::rows::Group;
use crate::{arithmetic, bits, bytes, comparisons, control, locals, messages, moves, prefixes};
pub use test_samples::{
    FIVE_UNLESS_ZERO, INCREMENT, JUMPS_INTO_SPELLING, MOVES_A_WORD, ONE_TURN, PICKS_A_WORD,
    READS_AFTER_JUMP, STORES_BY_TWO_WAYS, SUM_TO_TEN, TRACES_ITS_PACKET,
};

/// A worker's image, a packet, and what the run of the packet alone gives.
#[derive(Clone, Copy)]
pub struct Sample {
    /// The text of the image.
    pub image: &'static [u8],
    pub packet: [u8; 4],
    /// The bytes sent on link 0.
    pub result_bytes: [u8; 4],
    pub error: bool,
    pub steps: u32,
    /// The bytes sent on link 1.
    pub trace: &'static [u8],
}

/// One is added.
pub fn increment_one() -> Sample
    ensures { Says increment result }
{
    Sample {
        image: INCREMENT,
        packet: [1, 0, 0, 0],
        result_bytes: [2, 0, 0, 0],
        error: false,
        steps: 16,
        trace: &[],
    }
}

/// Above the greatest number the flag is set.
pub fn increment_greatest() -> Sample
    ensures { Says increment result }
{
    Sample {
        image: INCREMENT,
        packet: [255, 255, 255, 127],
        result_bytes: [0, 0, 0, 128],
        error: true,
        steps: 16,
        trace: &[],
    }
}

/// A loop of one turn: 19 bytes once, and 8 a turn.
pub fn loop_of_one_turn() -> Sample
    ensures { Says loop_once result }
{
    Sample {
        image: ONE_TURN,
        packet: [0, 0, 0, 0],
        result_bytes: [0, 0, 0, 0],
        error: false,
        steps: 27,
        trace: &[],
    }
}

/// The same loop with ten turns.
pub fn loop_of_ten_turns() -> Sample
    ensures { Says sum_to_ten result }
{
    Sample {
        image: SUM_TO_TEN,
        packet: [0, 0, 0, 0],
        result_bytes: [45, 0, 0, 0],
        error: false,
        steps: 99,
        trace: &[],
    }
}

/// A conditional jump that is taken,
pub fn jump_taken() -> Sample
    ensures { Says early_exit result }
{
    Sample {
        image: FIVE_UNLESS_ZERO,
        packet: [0, 0, 0, 0],
        result_bytes: [0, 0, 0, 0],
        error: false,
        steps: 15,
        trace: &[],
    }
}

/// and not taken.
pub fn jump_not_taken() -> Sample
    ensures { Says early_exit result }
{
    Sample {
        image: FIVE_UNLESS_ZERO,
        packet: [7, 0, 0, 0],
        result_bytes: [5, 0, 0, 0],
        error: false,
        steps: 17,
        trace: &[],
    }
}

/// A jump into the second byte of a spelling;
pub fn jump_into_spelling() -> Sample
    ensures { Says jumps_into_spelling result }
{
    Sample {
        image: JUMPS_INTO_SPELLING,
        packet: [0, 0, 0, 0],
        result_bytes: [0, 0, 0, 0],
        error: false,
        steps: 17,
        trace: &[],
    }
}

/// the same spelling read whole.
pub fn spelling_read_whole() -> Sample
    ensures { Says jumps_into_spelling result }
{
    Sample {
        image: JUMPS_INTO_SPELLING,
        packet: [7, 0, 0, 0],
        result_bytes: [16, 0, 0, 0],
        error: false,
        steps: 18,
        trace: &[],
    }
}

/// One of two ways that meet,
pub fn one_way() -> Sample
    ensures { Says two_ways result }
{
    Sample {
        image: STORES_BY_TWO_WAYS,
        packet: [0, 0, 0, 0],
        result_bytes: [2, 0, 0, 0],
        error: false,
        steps: 19,
        trace: &[],
    }
}

/// and the other.
pub fn other_way() -> Sample
    ensures { Says two_ways result }
{
    Sample {
        image: STORES_BY_TWO_WAYS,
        packet: [5, 0, 0, 0],
        result_bytes: [1, 0, 0, 0],
        error: false,
        steps: 20,
        trace: &[],
    }
}

/// A pointer that depends on the packet.
pub fn word_picked() -> Sample
    ensures { Says picks_a_word result }
{
    Sample {
        image: PICKS_A_WORD,
        packet: [255, 255, 255, 255],
        result_bytes: [0, 0, 0, 0],
        error: false,
        steps: 21,
        trace: &[],
    }
}

/// A trace message.
pub fn trace_sent() -> Sample
    ensures { Says traces result }
{
    Sample {
        image: TRACES_ITS_PACKET,
        packet: [10, 0, 0, 0],
        result_bytes: [10, 0, 0, 0],
        error: false,
        steps: 19,
        trace: &[10, 0, 0, 0],
    }
}

/// Words of the image that are moved.
pub fn word_moved() -> Sample
    ensures { Says moves_a_word result }
{
    Sample {
        image: MOVES_A_WORD,
        packet: [1, 0, 0, 0],
        result_bytes: [42, 0, 0, 0],
        error: false,
        steps: 19,
        trace: &[],
    }
}

/// All of them.
pub fn samples() -> [Sample; 13] {
    [
        increment_one(),
        increment_greatest(),
        loop_of_one_turn(),
        loop_of_ten_turns(),
        jump_taken(),
        jump_not_taken(),
        jump_into_spelling(),
        spelling_read_whole(),
        one_way(),
        other_way(),
        word_picked(),
        trace_sent(),
        word_moved(),
    ]
}

/// The short runs, by instruction.
pub fn short_runs() -> [Group; 46]
    ensures { AllAreSo result }
{
    [
        Group("adc", arithmetic::adc()),
        Group("add", arithmetic::add()),
        Group("sub", arithmetic::sub()),
        Group("mul", arithmetic::mul()),
        Group("sum", arithmetic::sum()),
        Group("diff", arithmetic::diff()),
        Group("prod", arithmetic::prod()),
        Group("div", arithmetic::div()),
        Group("rem", arithmetic::rem()),
        Group("gt", comparisons::gt()),
        Group("eqc", comparisons::eqc()),
        Group("csub0", comparisons::csub0()),
        Group("bit_and", bits::bit_and()),
        Group("bit_or", bits::bit_or()),
        Group("bit_xor", bits::bit_xor()),
        Group("bit_not", bits::bit_not()),
        Group("shl", bits::shl()),
        Group("shr", bits::shr()),
        Group("ldc", locals::ldc()),
        Group("mint", locals::mint()),
        Group("ldlp", locals::ldlp()),
        Group("ldl", locals::ldl()),
        Group("stl", locals::stl()),
        Group("ldnl", locals::ldnl()),
        Group("stnl", locals::stnl()),
        Group("ldnlp", locals::ldnlp()),
        Group("ajw", locals::ajw()),
        Group("rev", locals::rev()),
        Group("lb", bytes::lb()),
        Group("sb", bytes::sb()),
        Group("sb_undefined", bytes::sb_undefined()),
        Group("bsub", bytes::bsub()),
        Group("wsub", bytes::wsub()),
        Group("j", control::j()),
        Group("cj", control::cj()),
        Group("lend", control::lend()),
        Group("seterr", control::seterr()),
        Group("stopp", control::stopp()),
        Group("input", messages::input()),
        Group("output_result", messages::output_result()),
        Group("output_trace", messages::output_trace()),
        Group("move_bytes", moves::move_bytes()),
        Group("no_move", moves::no_move()),
        Group("prefixes", prefixes::prefixes()),
        Group("no_instruction", prefixes::no_instruction()),
        Group("no_byte", prefixes::no_byte()),
    ]
}
