//! Where a run sets its error flag.

use crate::run::{MAX_INSTRUCTIONS, ROOM};
use crate::stepper::Stepper;
use std::alloc::{AllocError, Global};
use tp_image::Image;
use tp_link::{LinkDevice, Media};
use tpw_machine::Turn;

/// The address of the instruction by which a packet's run of an image first sets the error flag, if it does.
pub fn flag_set_at(alloc: Global, image: Image, packet: &[u8]) -> Result<Option<i64>, AllocError> {
    let mut media = Media::with_rooms(alloc, packet.len(), ROOM, ROOM)?;
    let mut links = media.wires();
    let _ = links.source.send(packet);
    let mut stepper = Stepper::new(image);
    for _ in 0..MAX_INSTRUCTIONS {
        let at = stepper.registers().iptr;
        match stepper.next(&mut links) {
            Some(Turn::Made) if stepper.registers().error => return Ok(Some(at)),
            Some(Turn::Made) => {}
            _ => return Ok(None),
        }
    }
    Ok(None)
}
