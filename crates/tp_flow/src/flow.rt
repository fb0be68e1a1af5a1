//! The judgement of a code's flow.

ghost use Rattle.std.specs.Prelude.{◌≡◌, IfOk, IfErr, OnOk, None, Some};
ghost use Rattle.tp_decode.specs.Cutting.{IsCutting};
ghost use Rattle.tp_flow.specs.NestRanges.{ranges};
ghost use Rattle.tp_flow.specs.FlowFaults.{first_flow_fault};
ghost use Rattle.tp_flow.specs.NestKept.{KeepsNest};

use crate::fault::{FlowCode, FlowFault};
use crate::jumps::instruction_fault;
use crate::nest::Nest;
use crate::rows::bad_row;
use tp_decode::Listing;
use tp_image::Image;

/// The nest of an image's loops, where its code keeps the rules of flow; otherwise the first fault. The
/// loop rows are judged first, then the instructions by rising address. It takes no memory.
#[tactic(auto, unfolding(crate::specs::FlowFaults::first_flow_fault))]
pub fn check_flow(image: &Image, listing: &Listing) -> Result<Nest, FlowFault>
    requires { IsCutting image.now.code listing.now }
    ensures nest { IfOk result (λ nest. nest ≡ ranges image.now.loops) }
    ensures kept { OnOk result (KeepsNest image.now.loops image.now.workspace listing.now) }
    ensures passed { OnOk result (first_flow_fault image.now listing.now ≡ None) }
    ensures refused { IfErr result (λ fault. first_flow_fault image.now listing.now ≡ Some fault) }
{
    let nest = Nest::of(&image.loops);
    if let Some(place) = bad_row(image, listing, &nest) {
        return Err(FlowFault {
            code: FlowCode::J6,
            place,
        });
    }
    match instruction_fault(image, listing, &nest) {
        Some(fault) => Err(fault),
        None => Ok(nest),
    }
}
