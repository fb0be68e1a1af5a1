//! Why the verifier refuses an image: the refusal's meaning, what is known where it comes, and what helps.
//!
//! [`judge`] gives the verdict on an image, which [`explain`] and [`list`] write. [`first_refusal`] makes the passes over
//! whole tables up to their first refusal.
#![tactic(auto)]

mod asked;
mod bound;
mod costs;
mod fields;
mod flow;
mod judging;
mod known;
mod lines;
mod listed;
mod meaning;
mod origin;
mod passes;
mod refusal;
mod states;
mod verdict;
mod ways;
mod writers;
mod written;

pub use costs::{Costs, LoopCost, costs_of};
pub use judging::{Verdict, judge};
pub use listed::list;
pub use meaning::{Meaning, meaning_of};
pub use passes::first_refusal;
pub use refusal::{EdgeRefusal, FirstRefusal};
pub use tp_accept::Counted;
pub use verdict::explain;
