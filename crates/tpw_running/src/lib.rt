//! Packets, run on an accepted worker or evaluated on one in occam: what becomes of each, beside what is expected or
//! meant, and the last line.
#![tactic(auto)]

mod checking;
mod evaluating;
mod following;
mod meaning;
mod running;
mod said;
mod statements;
mod subject;
mod summary;
mod valued;

pub use checking::Checking;
pub use evaluating::evaluate_packets;
pub use following::follow_packet;
pub use running::{Prepared, write_check, write_run};
pub use subject::Subject;
pub use valued::Text;
