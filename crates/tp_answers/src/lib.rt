//! Sessions, and the answers to lines.
//!
//! `specs/Answers.antt` says what is answered, and the sessions after it, by what the line asks for, and
//! `specs/Texts.antt` the text of an answer. Here are the sessions themselves, the answers to all lines that run no
//! packets, and the writer of answers.
#![tactic(auto)]

mod answer;
mod answers;
mod outcomes;
mod session;
mod sessions;
mod writing;

pub use answer::{Answer, BoxedListing, LineFault};
pub use answers::{drop_session, keep, list, open};
pub use outcomes::{AllOutcomes, Outcomes};
pub use session::OpenSession;
pub use sessions::Sessions;
pub use writing::write_answer;
