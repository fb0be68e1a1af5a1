//! How texts are read.

ghost use Rattle.tp_decode.specs.Cutting.{IsCutting};

use std::process::Abort;
use tp_decode::{Listing, decode};
use tp_image::{Image, read_image};

/// The image of a text, and the listing of its code.
pub(crate) fn read(rt: &(impl Abort + AllocGlobal), bytes: &[u8]) -> (Image, Listing)
    ensures { IsCutting result.0.code result.1 }
{
    let image = read_image(rt.alloc(), bytes).expect(rt, "an image");
    let listing = decode(rt.alloc(), &image.code).expect(rt, "a listing");
    (image, listing)
}
