//! One session.

ghost use Rattle.std.specs.Prelude.{◌≡◌, ◌==◌, ◌+◌, ◌*◌, ◌≤◌, ◌<◌, [], ◌∷◌, ◌++◌, ◌&&◌, nat_lt, length, vec_len};
ghost use Rattle.std.specs.Prelude.{IsTrue, OnOk};
ghost use Rattle.std.specs.List.{list_all};
ghost use Rattle.tp_board.specs.Limits.{most_packets};

use std::alloc::{AllocError, Global};
use tp_accept::Accepted;
use tp_stream::Packet;

/// A session: the image, and the packets that are to be run on it.
#[derive(Drop)]
pub struct OpenSession {
    pub image: Accepted,
    /// In order of number, from 0.
    pub packets: Vec<Packet>,
    ghost few: { vec_len packets ≤ most_packets },
    ghost whole: { IsTrue (list_all (λ p.
        length p.items == 4 * image.image.packet && list_all (λ b. nat_lt b 256) p.items) packets.items) },
}

/// A session that has run its packets keeps the room of no more than a limit.
const KEPT_ROOM: usize = 16;

/// Gives back the room of many packets, where none is there.
fn give_back(packets: &mut Vec<Packet>)
    ensures items { packets.new.items ≡ packets.old.items }
    ensures len { vec_len packets.new ≡ vec_len packets.old }
{
    if packets.capacity() > KEPT_ROOM {
        packets.shrink_to_fit();
    }
}

impl OpenSession {
    /// A session that keeps no packet yet.
    pub fn new(alloc: Global, image: Accepted) -> OpenSession
        ensures image { result.image ≡ image }
        ensures packets { result.packets.items ≡ [] }
    {
        OpenSession {
            image,
            packets: Vec::new(alloc),
        }
    }

    /// Keeps one packet more.
    pub fn keep(&mut self, packet: Packet) -> Result<(), AllocError>
        requires few { vec_len self.old.packets < most_packets }
        requires whole { length packet.items ≡ 4 * self.old.image.image.packet }
        requires bytes { IsTrue (list_all (λ b. nat_lt b 256) packet.items) }
        ensures image { self.new.image ≡ self.old.image }
        ensures packets { OnOk result (self.new.packets.items ≡ self.old.packets.items ++ packet ∷ []) }
    {
        self.packets.push(packet)?;
        Ok(())
    }

    /// Forgets its packets. The room of many is given back.
    pub fn forget(&mut self)
        ensures image { self.new.image ≡ self.old.image }
        ensures packets { self.new.packets.items ≡ [] }
    {
        self.packets.clear();
        give_back(&mut self.packets);
    }
}
