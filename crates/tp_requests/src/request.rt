//! Requests.

ghost use Rattle.std.specs.Prelude.{◌≡◌, IfOk};
ghost use Rattle.std.specs.Option.{option_map};
ghost use Rattle.tp_requests.specs.Requests.{asked};
ghost use Rattle.tp_requests.specs.Protocol.{AsksFor};
ghost use Rattle.tp_requests.specs.Reading.{of_name, of_parts};

use crate::fields::{bytes_of, name_of, split_once};
use crate::spelled::Spelled;
use arrayvec::ArrayVec;
use std::alloc::{AllocError, Global};

/// The most bytes of a name.
pub(crate) const MAX_NAME: usize = 16;

/// The name of a session: 1 to 16 of `a` to `z` and `0` to `9`.
pub type Name = ArrayVec<u8, MAX_NAME>;

/// A request, as a line spells it.
#[derive(Drop)]
pub enum Request<'a> {
    /// The listing of a code.
    List(Vec<u8>),
    /// A session of this name, with the image of this text.
    Image(Name, Vec<u8>),
    /// That the session keeps a packet.
    Packet(Name, Spelled<'a>),
    /// To run the packets of the session.
    Run(Name),
    /// To run the packets of all sessions.
    RunAll,
    /// To end the session.
    Drop(Name),
}

/// A request on the session of a name, by the words behind it.
fn of_name<'a>(
    alloc: Global,
    name: Name,
    words: &'a [u8],
) -> Result<Option<Request<'a>>, AllocError>
    ensures { IfOk result (λ r. option_map asked r ≡ of_name name.items words.now) }
{
    if let Some(digits) = words.strip_prefix(b"PACKET ".as_slice()) {
        return match Spelled::of(digits) {
            Some(bytes) => Ok(Some(Request::Packet(name, bytes))),
            None => Ok(None),
        };
    }
    if let Some(digits) = words.strip_prefix(b"IMAGE ".as_slice()) {
        return match bytes_of(alloc, digits)? {
            Some(text) => Ok(Some(Request::Image(name, text))),
            None => Ok(None),
        };
    }
    if words == b"RUN".as_slice() {
        Ok(Some(Request::Run(name)))
    } else if words == b"DROP".as_slice() {
        Ok(Some(Request::Drop(name)))
    } else {
        Ok(None)
    }
}

/// The request of a line, by what is before and behind its first space.
fn of_parts<'a>(
    alloc: Global,
    first: &[u8],
    words: &'a [u8],
) -> Result<Option<Request<'a>>, AllocError>
    ensures { IfOk result (λ r. option_map asked r ≡ of_parts first.now words.now) }
{
    if first == b"LIST".as_slice() {
        return match bytes_of(alloc, words)? {
            Some(code) => Ok(Some(Request::List(code))),
            None => Ok(None),
        };
    }
    if first == b"RUN".as_slice() && words == b"*".as_slice() {
        return Ok(Some(Request::RunAll));
    }
    match name_of(first) {
        Some(name) => of_name(alloc, name, words),
        None => Ok(None),
    }
}

/// The request of a line, without its line feed: none where it is none of the protocol's lines.
pub fn read_request(alloc: Global, line: &[u8]) -> Result<Option<Request<'_>>, AllocError>
    ensures { IfOk result (λ r. AsksFor line.now (option_map asked r)) }
{
    match split_once(line, b' ') {
        Some((first, words)) => of_parts(alloc, first, words),
        None => Ok(None),
    }
}
