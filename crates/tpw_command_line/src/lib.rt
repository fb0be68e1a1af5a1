//! The command line of `tpw`: its commands, their options, what help says of them, and what they are asked for.
//!
//! clap reads it. [`asked_by`] returns what words ask for, or why the program ends early.
#![tactic(auto)]

mod argument;
mod arguments;
mod asked;
mod assembler;
mod command_line;
mod disassembler;
mod ending;
mod evaluator;
mod explainer;
mod lister;
mod options;
mod output_options;
mod packet_source;
mod profiler;
mod refusal;
mod replay_hint;
mod runner;
mod shared;
mod stepper;
mod subcommand;
mod translator;
mod words;

pub use asked::{Asked, Report, Task, Work, asked_by};
pub use ending::Ending;
pub use evaluator::FollowOptions;
pub use options::{FROM, UNTIL};
pub use output_options::OutputOptions;
pub use packet_source::{Expecting, Origin, PacketFile, PacketSource};
pub use profiler::ProfileOptions;
pub use refusal::{PlaceKind, Refusal, WatchKind};
pub use replay_hint::ReplayHint;
pub use runner::RunOptions;
pub use stepper::{Picked, StepOptions};
pub use words::words_of;
