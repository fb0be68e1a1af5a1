//! Worker images as bytes: two versions of one format, read exactly and written in one way.
#![tactic(auto)]

mod fault;
mod fields;
mod header;
mod image;
pub mod laws;
pub mod layout;
pub mod limits;
mod read;
mod upgrading;
mod write;

pub use fault::{ImageCode, ImageFault};
pub use fields::Fields;
pub use image::{Image, LoopRow, Version};
pub use read::read_image;
pub use upgrading::upgrade;
pub use write::write_image;
