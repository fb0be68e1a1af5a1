//! The costs of a code, and its budget.

ghost use Rattle.std.specs.Prelude.{◌≡◌, ◌≢◌, ◌≤◌, ◌<◌, IfOk, OnOk, IfErr};
ghost use Rattle.tp_decode.specs.Cutting.{IsCutting};
ghost use Rattle.tp_accept.specs.Bound.{bound};
ghost use Rattle.tp_accept.specs.Capped.{AreCounted};
ghost use Rattle.tp_accept.specs.Limits.{most_budget};
ghost use Rattle.tp_accept.specs.declared.refusal.Refusal.TheVariants as refusal;
ghost use Rattle.tp_accept.specs.Refusals.{too_long};

use crate::counting::{Counted, cost_of, whole_at};
use crate::limits::MAX_BUDGET;
use crate::refusal::{Refusal, RefusalCode};
use std::alloc::{AllocError, Global};
use tp_decode::Listing;
use tp_image::Image;

/// The costs of a code: for each of its bytes, that of the instruction which begins there, or nothing. They are worked
/// out once, from the highest address down, in one table.
pub fn costs(alloc: Global, image: &Image, listing: &Listing) -> Result<Vec<Counted>, AllocError>
    requires { IsCutting image.now.code listing.now }
    ensures { IfOk result (λ costs. AreCounted image.now.loops listing.now costs.items) }
{
    let mut costs = vec![in alloc; Counted::NOTHING; image.code.len()]?;
    for i in (0..listing.len()).rev() {
        let placed = listing.get(i).unwrap();
        costs[placed.at] = cost_of(image, listing, &costs, placed);
    }
    Ok(costs)
}

/// The bound on the instruction bytes of a run of an image's code, where it is within the limit; otherwise B1.
pub(crate) fn budget(alloc: Global, image: &Image, listing: &Listing) -> Result<u32, Refusal>
    requires { IsCutting image.now.code listing.now }
    ensures value { IfOk result (λ budget. budget ≡ bound image.now.loops listing.now) }
    ensures within { OnOk result (bound image.now.loops listing.now ≤ most_budget) }
    ensures refused { IfErr result
        (λ e. e ≢ refusal.Memory → (e ≡ too_long) × (most_budget < bound image.now.loops listing.now)) }
{
    let costs = costs(alloc, image, listing)?;
    let bytes = whole_at(&costs, Some(0));
    if u64::from(MAX_BUDGET) < bytes {
        return Err(Refusal::Refused {
            code: RefusalCode::B1,
            place: 0,
        });
    }
    Ok(bytes as u32)
}
