//! A packet's run of any image, accepted or not, an instruction at a time, for tools of those who write workers.
//!
//! A [`Stepper`] holds an image and a tested machine. [`Stepper::next`] makes an instruction of the step relation.
#![tactic(auto)]

mod doing;
mod flag;
mod lines;
mod operand;
mod prefixes;
mod profile;
mod reach;
mod reason;
mod run;
mod span;
mod stepper;
mod value;
mod watched;
mod workspace;

pub use flag::flag_set_at;
pub use profile::{Profile, RunEnd, count_run};
pub use reason::Reason;
pub use run::{End, Shown, show_run};
pub use span::{Place, Span};
pub use stepper::Stepper;
pub use watched::Watched;
