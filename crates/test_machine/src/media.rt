//! The devices of a run.

use crate::asserts::unwrap;
use std::alloc::Global;
use std::process::Abort;
use tp_link::{Links, Medium, Wire};

/// The media of three wires.
#[derive(Drop)]
pub(crate) struct Media {
    pub(crate) source: Medium,
    pub(crate) sink: Medium,
    pub(crate) trace: Medium,
}

/// With room enough.
pub(crate) fn make_media(rt: &impl Abort, alloc: Global) -> Media {
    media_with_sink_room(rt, alloc, 256)
}

/// The same, but for the room of the sink.
pub(crate) fn media_with_sink_room(rt: &impl Abort, alloc: Global, sink_room: usize) -> Media {
    Media {
        source: unwrap(rt, Medium::new(alloc, 256)),
        sink: unwrap(rt, Medium::new(alloc, sink_room)),
        trace: unwrap(rt, Medium::new(alloc, 512)),
    }
}

pub(crate) fn wires(media: &mut Media) -> Links<Wire<'_>> {
    Links {
        source: Wire::new(&mut media.source),
        sink: Wire::new(&mut media.sink),
        trace: Wire::new(&mut media.trace),
    }
}
