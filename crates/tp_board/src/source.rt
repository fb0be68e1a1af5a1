//! Where a member's work comes from.
ghost use Rattle.std.specs.Prelude.{◌≡◌, true, map, length, IfOk, IfErr, OnErr};
ghost use Rattle.tp_board.specs.Sources.{claim_of, IsAnswerable, HasBytes};
ghost use Rattle.tp_board.specs.declared.answer.BoardFault.TheVariants.{EmptyHand};

use crate::answer::{BoardFault, Claim};
use arrayvec::ArrayVec;
use std::sync::Wait;

/// The bytes of one packet.
pub type Packet = ArrayVec<u8, 256>;

/// The answer to a request for work.
#[derive(Drop)]
pub enum Work {
    /// The packet of this number, which is now in hand.
    Packet { number: u32, bytes: Packet },
    /// All packets were given out.
    NoMore,
    /// The source was stopped.
    Stopped,
}

/// A claim as work: a packet with its bytes.
#[inline(always)]
pub fn with_bytes(claimed: Claim, packets: &[Packet]) -> Work
    requires { IsAnswerable (length packets.now) claimed }
    ensures claimed { claim_of result ≡ claimed }
    ensures bytes { HasBytes (map (λ p. p.items) packets.entry.now) result }
{
    match claimed {
        Claim::Packet(number) => Work::Packet {
            number,
            bytes: copied(&packets[number as usize]),
        },
        Claim::NoMore => Work::NoMore,
        Claim::Stopped => Work::Stopped,
        Claim::Busy(_) => unreachable!(),
    }
}

// The same bytes. `clone` would take memory's Result.
#[inline(always)]
fn copied(packet: &Packet) -> Packet
    ensures { result.items ≡ packet.now.items }
{
    let mut copy = ArrayVec::new();
    let _ = copy.try_extend_from_slice(packet.as_slice());
    copy
}

/// Packets that members take, each member through a hand of its own, from any thread. No call
/// takes memory, and `next` alone may wait.
pub trait WorkSource {
    ghost use Rattle.std.specs.Prelude.{ℕ, List};
    ghost use Rattle.tp_board.specs.Sources.{Progress, NextSays, HandFinished, HandAbandoned};

    type Hand;

    // The hand is of this source.
    ghost is_own: { Self → Self.Hand → Type 0 };

    // What the hand has done here.
    ghost progress: { Self.Hand → Progress };

    // The bytes of each packet, in order of number.
    ghost packets: { Self → List (List ℕ) };

    /// The next packet, with nothing in hand. After NoMore or Stopped it answers so again.
    fn next(&self, rt: &impl Wait, hand: &mut Self::Hand) -> Work
        requires own { Self.is_own self.now hand.old }
        requires empty { (Self.progress hand.old).in_hand ≡ None }
        ensures own { Self.is_own self.now hand.new }
        ensures work { NextSays (Self.packets self.now) (Self.progress hand.old) result (Self.progress hand.new) };

    /// The packet in hand is done: its number. A3 with nothing in hand.
    fn finish(&self, hand: &mut Self::Hand) -> Result<u32, BoardFault>
        requires { Self.is_own self.now hand.old }
        ensures own { Self.is_own self.now hand.new }
        ensures ok { IfOk result (λ n. HandFinished (Self.progress hand.old) n (Self.progress hand.new)) }
        ensures err { IfErr result (λ e. e ≡ EmptyHand) }
        ensures empty { OnErr result ((Self.progress hand.old).in_hand ≡ None) }
        ensures unchanged { OnErr result (hand.new ≡ hand.old) };

    /// The packet in hand is lost: its number. A3 with nothing in hand.
    fn abandon(&self, hand: &mut Self::Hand) -> Result<u32, BoardFault>
        requires { Self.is_own self.now hand.old }
        ensures own { Self.is_own self.now hand.new }
        ensures ok { IfOk result (λ n. HandAbandoned (Self.progress hand.old) n (Self.progress hand.new)) }
        ensures err { IfErr result (λ e. e ≡ EmptyHand) }
        ensures empty { OnErr result ((Self.progress hand.old).in_hand ≡ None) }
        ensures unchanged { OnErr result (hand.new ≡ hand.old) };

    /// Stops the source for all hands. What is in hand stays there.
    fn stop(&self, hand: &mut Self::Hand)
        requires { Self.is_own self.now hand.old }
        ensures own { Self.is_own self.now hand.new }
        ensures called { Self.progress hand.new ≡ record (Self.progress hand.old) { stop_called = true } };
}
