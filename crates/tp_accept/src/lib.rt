//! Acceptance: the verdict on a text, and images that may be run.
//!
//! [`accept`] makes every judgement. Its verdict is defined in `specs/Verdict.antt`, what it promises of an image that
//! may be run in `specs/Acceptance.antt`, the bound on the instruction bytes of a run in `specs/Bound.antt`; the laws
//! are the contracts of the functions of [`laws`].
#![tactic(auto)]

mod acceptance;
mod accepted;
mod bound;
mod counting;
pub mod laws;
pub mod limits;
mod refusal;

pub use acceptance::accept;
pub use accepted::Accepted;
pub use bound::costs;
pub use counting::Counted;
pub use refusal::{Refusal, RefusalCode};
