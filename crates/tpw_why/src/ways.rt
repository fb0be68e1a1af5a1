//! The edges that the passes have taken.

use crate::passes::edges_of_code;
use crate::refusal::FirstRefusal;
use std::alloc::{AllocError, Global};
use tp_check::state_at;
use tp_decode::{Listing, Placed};
use tp_flow::{Edge, Nest};

/// An edge that was taken, and where it leads.
#[derive(Clone, Copy)]
pub(crate) struct Way {
    pub(crate) from: Placed,
    pub(crate) edge: Edge,
    pub(crate) to: usize,
}

/// The edges that the passes have taken up to their first refusal: there is a state before the instruction. The first
/// pass has taken none from the refused edge on.
pub(crate) fn ways_of(
    alloc: Global,
    listing: &Listing,
    nest: &Nest,
    found: &FirstRefusal,
) -> Result<Vec<Way>, AllocError> {
    let mut ways = Vec::new(alloc);
    let refused = &found.refusal;
    for (from, edge) in &edges_of_code(alloc, listing)? {
        if found.passes == 0 && *from == refused.instruction && *edge == refused.edge {
            return Ok(ways);
        }
        if state_at(&found.table, from.at).is_some() {
            if let Some(to) = nest.target(from.at, from.next, from.instr, *edge) {
                ways.push(Way {
                    from: *from,
                    edge: *edge,
                    to,
                })?;
            }
        }
    }
    Ok(ways)
}

/// The one edge that leads to an address, if there is but one.
pub(crate) fn lone_way(ways: &[Way], to: usize) -> Option<Way> {
    let mut found = None;
    for way in ways {
        if way.to == to {
            if found.is_some() {
                return None;
            }
            found = Some(*way);
        }
    }
    found
}
