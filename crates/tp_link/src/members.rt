//! Many members.

ghost use Rattle.std.specs.Prelude.{◌≡◌, All, IfOk, length, map, vec_len};
ghost use Rattle.tp_link.specs.Wired.{empty_media, seen_in_boxes, wired_media};

use crate::links::Links;
use crate::media::Media;
use crate::wire::Wire;
use std::alloc::{AllocError, Global};

/// The media of this many members, each empty and with the same room in bytes.
pub fn media_of(alloc: Global, members: usize, room: usize) -> Result<Vec<Media>, AllocError>
    ensures count { IfOk result (λ media. vec_len media ≡ members) }
    ensures empty { IfOk result (λ media. All (λ one. one ≡ empty_media room room room) media.items) }
{
    let mut media = Vec::new(alloc);
    for _ in 0..members {
        media.push(Media::new(alloc, room)?)?;
    }
    Ok(media)
}

/// Boxes of wires to these media, a member for each, in their order.
pub fn boxed(alloc: Global, media: &mut [Media]) -> Result<Vec<Links<Box<Wire<'_>>>>, AllocError>
    ensures count { IfOk result (λ links. vec_len links ≡ length media.old) }
    ensures wires { IfOk result (λ links. map seen_in_boxes links.items ≡ map wired_media media.old) }
{
    let mut links = Vec::new(alloc);
    for one in media.iter_mut() {
        let Links {
            source,
            sink,
            trace,
        } = one.wires();
        links.push(Links {
            source: Box::new(alloc, source)?,
            sink: Box::new(alloc, sink)?,
            trace: Box::new(alloc, trace)?,
        })?;
    }
    Ok(links)
}
