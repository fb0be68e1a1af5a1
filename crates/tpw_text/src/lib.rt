//! Assembly text: what authors write, read as a program, and programs as text.
#![tactic(auto)]

mod adding;
mod draft;
mod fault;
mod fields;
mod finish;
mod instructions;
mod keyword;
mod mnemonics;
mod number;
mod reading;
mod remarks;
mod statement;
mod statements;
mod wanted;
mod words;
mod writing;

pub use fault::{SourceFault, TextFault};
pub use finish::{Label, Source};
pub use number::signed_of;
pub use reading::read_source;
pub use remarks::{LineRemark, LoopRemark, Remarks};
pub use words::{Position, statement_of};
pub use writing::source_text;
