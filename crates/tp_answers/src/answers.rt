//! Answers to lines that run nothing.

ghost use Rattle.std.specs.Prelude.{◌≡◌, ◌≤◌, nat_lt, length, IsTrue, IfOk, OnOk};
ghost use Rattle.std.specs.List.{list_all};
ghost use Rattle.tp_requests.specs.Spelling.{bytes_spelled};
ghost use Rattle.tp_decode.specs.Cutting.{cutting};
ghost use Rattle.tp_collect.specs.DoneValue.{most_message_bytes};
ghost use Rattle.tp_answers.specs.Sessions.{session_named, is_full, without_session};
ghost use Rattle.tp_answers.specs.Rules.{IsVerdict};
ghost use Rattle.tp_answers.specs.Answers.{IsAnswerToList, IsAnswerToImage, IsAfterImage, answer_to_packet};
ghost use Rattle.tp_answers.specs.Answers.{answer_to_drop, after_packet};

use crate::answer::{Answer, BoxedListing, LineFault};
use crate::session::OpenSession;
use crate::sessions::Sessions;
use std::alloc::{AllocError, Global};
use tp_accept::{Accepted, Refusal, accept};
use tp_collect::limits::MAX_MESSAGE;
use tp_decode::{DecodeFault, decode};
use tp_requests::{Name, Spelled};
use tp_stream::{MAX_PACKETS, Packet};

/// The most sessions that are open at a time.
const MAX_SESSIONS: usize = 64;

/// The most packets that a session keeps: those of a batch.
const MAX_KEPT: usize = MAX_PACKETS as usize;

/// The listing of a code.
pub fn list(alloc: Global, code: &[u8]) -> Result<Answer, AllocError>
    requires { length code.now ≤ 65535 }
    ensures { IfOk result (IsAnswerToList (cutting code.now)) }
{
    match decode(alloc, code) {
        Ok(listing) => Ok(Answer::Listed(BoxedListing::new(alloc, listing)?)),
        Err(DecodeFault::Refused { code, place }) => {
            Ok(Answer::Refused(LineFault::Code { code, place }))
        }
        Err(DecodeFault::Memory) => Err(AllocError),
    }
}

/// That an image is accepted.
fn yes(image: &Accepted) -> Answer
    ensures { result ≡ Answer.Yes (length image.now.image.code) image.now.budget }
{
    Answer::Yes {
        code_bytes: image.code().len(),
        budget: image.budget(),
    }
}

/// Opens a session with the image of a text, or replaces the image of the session of this name.
pub fn open(
    sessions: &mut Sessions,
    alloc: Global,
    name: Name,
    text: Vec<u8>,
) -> Result<Answer, AllocError>
    ensures answer { IfOk result (IsAnswerToImage IsVerdict (is_full name.items sessions.old) text.items) }
    ensures sessions { OnOk result (IsAfterImage IsVerdict (is_full name.items sessions.old) name.items text.items
        sessions.old sessions.new) }
{
    let place = sessions.find(&name);
    if place.is_none() && sessions.len() >= MAX_SESSIONS {
        return Ok(Answer::Refused(LineFault::E2));
    }
    match accept(alloc, text) {
        Ok(image) => {
            let answer = yes(&image);
            sessions.set(place, name, OpenSession::new(alloc, image))?;
            Ok(answer)
        }
        Err(Refusal::Refused { code, place }) => {
            Ok(Answer::Refused(LineFault::Image { code, place }))
        }
        Err(Refusal::Memory) => Err(AllocError),
    }
}

/// The packet of the bytes that are spelled, which are decoded into it.
fn packet_of(bytes: &Spelled<'_>) -> Packet
    requires { length (bytes_spelled bytes.now) ≤ most_message_bytes }
    ensures items { result.items ≡ bytes_spelled bytes.now }
    ensures bytes { IsTrue (list_all (λ b. nat_lt b 256) result.items) }
{
    let mut packet = Packet::from_array_in((), [0; MAX_MESSAGE]);
    packet.truncate(bytes.count());
    bytes.decode_into(packet.as_mut_slice());
    packet
}

/// A session keeps a packet.
pub fn keep(
    sessions: &mut Sessions,
    name: &Name,
    packet: &Spelled<'_>,
) -> Result<Answer, AllocError>
    ensures answer { IfOk result (λ answer.
        answer ≡ answer_to_packet (session_named name.now.items sessions.old) (bytes_spelled packet.now)) }
    ensures sessions { OnOk result (sessions.new ≡ after_packet name.now.items (bytes_spelled packet.now)
        sessions.old) }
{
    let Some(index) = sessions.find(name) else {
        return Ok(Answer::Refused(LineFault::P2));
    };
    let session = sessions.at_mut(index);
    if packet.count() != session.image.packet_bytes() {
        return Ok(Answer::Refused(LineFault::P1));
    }
    let number = session.packets.len();
    if number >= MAX_KEPT {
        return Ok(Answer::Refused(LineFault::P3));
    }
    session.keep(packet_of(packet))?;
    Ok(Answer::Kept(number))
}

/// A session ends. This takes no memory.
pub fn drop_session(sessions: &mut Sessions, name: &Name) -> Answer
    ensures answer { result ≡ answer_to_drop (session_named name.now.items sessions.old) }
    ensures sessions { sessions.new ≡ without_session name.now.items sessions.old }
{
    let Some(index) = sessions.find(name) else {
        return Answer::Refused(LineFault::P2);
    };
    sessions.remove(index);
    Answer::Gone
}
