//! The verifier's rules, computed: some 350 cases of the state after an instruction, worked out by hand from the
//! instruction table and the rules of the verifier, never by a program. No crate uses this one.
//!
//! | instructions | cases |
//! |---|---|
//! | adc, eqc, not, mint, add, sum, sub, diff, prod, mul, div, rem, and, or, xor, shl, shr, gt, csub0 | [`numbers`] |
//! | ldc, ldlp, ldnlp, cj, ajw, seterr, stopp, rev, bsub, wsub | [`registers`] |
//! | ldl, ldnl, stl, stnl, lb, sb, move | [`words`] |
//! | in, out, j and lend, and the loops that edges enter and leave | [`messages`] |
//! | states that meet where edges join | [`meetings`] |
//! | small codes, at the instruction that is refused | [`refusals`] |
//! | cases that a narrower rule would answer otherwise | [`narrower`] |
//! | states that are not sound, of which the rules do not keep the order | [`unsound`] |
#![tactic(auto)]

pub mod meetings;
pub mod messages;
pub mod narrower;
pub mod numbers;
pub mod refusals;
pub mod registers;
pub mod unsound;
pub mod words;
