//! Link devices: what a worker receives its packets from and sends its results and trace messages to, behind the trait
//! [`LinkDevice`].
//!
//! A [`Wire`] leads to a [`Medium`] that it borrows, a [`FaultyWire`] does the same and fails in a given call, and an
//! [`OwnedWire`] owns its medium: a box of any device can hold it. A box of a device is a device. [`Links`] are the
//! three devices of one member.
//!
//! When a wire ends, in a box or out of it, its medium is closed, has its end mark, and keeps the bytes that were held.
//! The contracts of a [`Wire`] and a [`FaultyWire`] say so to whoever lent them the medium. They do not reach through
//! the end of a box.
//!
//! The three media of a member are its [`Media`], lent to its wires by [`Media::wires`] or in boxes by
//! [`boxed`](fn@boxed). They can be looked at again once the wires have ended.
#![tactic(auto)]

mod box_device;
mod device;
mod faulty;
pub mod laws;
mod links;
mod media;
mod medium;
mod members;
mod owned;
mod trait_object;
mod wire;

pub use device::{DeviceFault, LinkDevice};
pub use faulty::FaultyWire;
pub use links::{Link, LinkFault, Links};
pub use media::Media;
pub use medium::Medium;
pub use members::{boxed, media_of};
pub use owned::{EndedMedium, OwnedWire};
pub use wire::Wire;
