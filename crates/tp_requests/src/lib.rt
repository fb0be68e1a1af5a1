//! Requests, as a line of a session spells them.
//!
//! `specs/Protocol.antt` spells each line of the protocol, and `specs/Requests.antt` names what it asks for;
//! `specs/Lines.antt` says how an input falls into lines.
#![tactic(auto)]

mod fields;
pub mod laws;
mod request;
mod spelled;

pub use fields::split_once;
pub use request::{Name, Request, read_request};
pub use spelled::Spelled;
