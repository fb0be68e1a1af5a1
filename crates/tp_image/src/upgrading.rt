//! From version 1 to version 2.

ghost use Rattle.std.specs.Prelude.{◌≡◌, IfOk, IfErr};
ghost use Rattle.tp_image.specs.Upgrade.{upgraded};

use crate::fault::ImageFault;
use crate::image::{Image, Version};
use std::alloc::Global;

/// The image as version 2, with no initial words where it was version 1. A version 2 image is
/// given as it is.
pub fn upgrade(alloc: Global, image: &Image) -> Result<Image, ImageFault>
    ensures image { IfOk result (λ found. found ≡ upgraded image.now) }
    ensures memory { IfErr result (λ fault. fault ≡ ImageFault.Memory) }
{
    Ok(Image {
        version: Version::Two,
        workspace: image.workspace,
        start: image.start,
        packet: image.packet,
        result: image.result,
        loops: Vec::from_slice(alloc, &image.loops)?,
        initial: Vec::from_slice(alloc, &image.initial)?,
        code: Vec::from_slice(alloc, &image.code)?,
    })
}
