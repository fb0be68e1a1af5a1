//! The media of one member.

ghost use Rattle.std.specs.Prelude.{◌≡◌, IfOk};
ghost use Rattle.tp_link.specs.Wired.{empty_media, seen, wired_media};

use crate::links::Links;
use crate::medium::Medium;
use crate::wire::Wire;
use std::alloc::{AllocError, Global};

/// The media of one member's devices.
#[derive(Drop)]
pub struct Media {
    pub source: Medium,
    pub sink: Medium,
    pub trace: Medium,
}

impl Media {
    /// Empty media with the same room in bytes.
    pub fn new(alloc: Global, room: usize) -> Result<Media, AllocError>
        ensures { IfOk result (λ media. media ≡ empty_media room room room) }
    {
        Media::with_rooms(alloc, room, room, room)
    }

    /// Empty media with a room in bytes for each. Each reserves its room.
    pub fn with_rooms(
        alloc: Global,
        source: usize,
        sink: usize,
        trace: usize,
    ) -> Result<Media, AllocError>
        ensures { IfOk result (λ media. media ≡ empty_media source sink trace) }
    {
        Ok(Media {
            source: Medium::new(alloc, source)?,
            sink: Medium::new(alloc, sink)?,
            trace: Medium::new(alloc, trace)?,
        })
    }

    /// An open wire to each, which never fails. The media keep their bytes, and their end marks are cleared.
    pub fn wires(&mut self) -> Links<Wire<'_>>
        ensures { seen result ≡ wired_media self.old }
    {
        Links {
            source: Wire::new(&mut self.source),
            sink: Wire::new(&mut self.sink),
            trace: Wire::new(&mut self.trace),
        }
    }
}
