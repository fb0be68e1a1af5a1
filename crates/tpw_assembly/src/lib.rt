//! Assembly texts: their images, what is wrong with them, and what they say of their code.
#![tactic(auto)]

mod assembly;
mod expected;
mod fields;
mod reports;
mod symbols;

pub use assembly::{Encoded, assembled_from};
pub use fields::assembled_text;
pub use reports::diagnosed;
pub use symbols::debug_info;
