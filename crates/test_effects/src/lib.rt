//! Runs that are computed on the step relation. No crate uses this one but the tests that make the same runs on a
//! machine (`test_machine`).
//!
//! A short run begins at a given state and executes a few bytes: it leads to another state, or is stuck. A whole worker
//! runs from its start to its end. Each run's outcome was worked out by hand from the instruction table
//! (`docs/INSTRUCTIONS.md`), never by a program. All of them are in [`table`]: the contracts say that the definitions
//! give the same, and the tests compare with it a machine's answers, and every part of its state.
//!
//! Each row of the instruction table has a function named after it, whose runs would come out otherwise if its clause
//! were another:
//!
//! | rows | runs |
//! |---|---|
//! | adc, add, sub, mul (checked), sum, diff, prod (wrapped), div, rem | [`arithmetic`] |
//! | gt, eqc, csub0 | [`comparisons`] |
//! | and, or, xor, not, shl, shr | [`bits`] |
//! | ldc, mint, ldlp, ldl, stl, ldnl, stnl, ldnlp, ajw, rev | [`locals`] |
//! | lb, sb, bsub, wsub | [`bytes`] |
//! | j, cj, lend, seterr, stopp | [`control`] |
//! | in, out on link 0, out on link 1 | [`messages`] |
//! | move | [`moves`] |
//! | pfix, nfix, bytes that are no instruction, Iptr outside the code | [`prefixes`] |
//! | whole workers | [`table`] |
//! | a worker that is stuck, the state at the start | [`samples`] |
//! | what a short run says | [`rows`] |
//!
//! Each way to be stuck has runs too, which differ in one thing from a state that is not:
//!
//! | stuck by | runs |
//! |---|---|
//! | an undefined register | `undefined` of most functions |
//! | an undefined byte | `undefined` of `locals::ldl` and `locals::ldnl`, `undefined_byte` of `bytes::lb` |
//! | an undefined loop index or count | `undefined_index` and `undefined_count` of `control::lend` |
//! | an address outside the workspace | `above`, `below`, `outside` in `locals` and `bytes` |
//! | a misaligned word | `misaligned` of `locals::ldnl`, `locals::stnl`, `control::lend` |
//! | no room for the five words below Wptr | `no_room` of `control::j` |
//! | an operation or function in no row | `prefixes::no_instruction` |
//! | a shift by more than 31 | `by_32` of `bits::shl` and `bits::shr` |
//! | the wrong channel, length or phase, a missing packet | `messages` |
//! | stopp before the result | `before_the_result` of `control::stopp` |
//! | move where it is not allowed | `moves::no_move` |
//! | Iptr outside the code | `prefixes::no_byte` |
#![tactic(auto)]

pub mod arithmetic;
pub mod bits;
pub mod bytes;
pub mod comparisons;
pub mod control;
pub mod locals;
pub mod messages;
pub mod moves;
pub mod prefixes;
pub mod rows;
pub mod samples;
pub mod table;
