//! The job of all members.

use tp_accept::Accepted;
use tp_stream::Packet;

/// One batch: an accepted image, and the packets that its worker is to run on.
#[derive(Clone, Copy)]
pub struct Job<'j> {
    /// The batch's number, which its results carry.
    pub batch: u64,
    pub image: &'j Accepted,
    /// In order of number, from 0.
    pub packets: &'j [Packet],
}
