//! Debug information and diagnostics of texts of workers.
#![tactic(auto)]

mod debug_info;
mod diagnostic;
mod fault;
mod printable;
mod source;

pub use debug_info::DebugInfo;
pub use diagnostic::{Diagnostic, MAX_DIAGNOSTICS, Report, Severity, Span};
pub use fault::ShowFault;
pub use printable::Printable;
pub use source::{Called, Indexed, Label, LoopName, Named, Names, SourceText, Statement, WordName};
