//! The loop table.

ghost use Rattle.std.specs.Prelude.{◌≡◌, ◌-◌, ◌≤◌, ◌<◌, ◌^◌, map, length, None, false, All, IfOk};
ghost use Rattle.tp_image.specs.Image.{IsRow};
ghost use Rattle.tpw_asm.specs.Faults.{is_behind, is_row_behind, first_row};
ghost use Rattle.tpw_asm.specs.Assembly.{address_of, row_of};
ghost use Rattle.tpw_asm.specs.Outcome.{AreAddresses};

use crate::program::{Loop, Spot};
use std::alloc::{AllocError, Global};
use tp_image::LoopRow;

/// The address of a spot, where places have these.
fn address_of(addresses: &[u32], spot: Spot) -> u32
    requires addresses { AreAddresses addresses.now }
    requires sound { is_behind (length addresses.now - 1) spot ≡ false }
    ensures address { result ≡ address_of addresses.now spot }
    ensures small { result < 2 ^ 16 }
{
    match spot {
        Spot::Place(place) => addresses[place],
        Spot::Address(address) => u32::from(address),
    }
}

/// The row of a loop.
fn row_of(addresses: &[u32], row: &Loop) -> LoopRow
    requires addresses { AreAddresses addresses.now }
    requires sound { is_row_behind (length addresses.now - 1) row.now ≡ false }
    ensures row { result ≡ row_of addresses.now row.now }
    ensures in_range { IsRow result }
{
    LoopRow {
        head: address_of(addresses, row.head),
        lend: address_of(addresses, row.lend),
        control: u32::from(row.control),
        count: u32::from(row.count),
        start: row.start,
    }
}

/// The rows of loops.
pub fn rows_of(alloc: Global, addresses: &[u32], loops: &[Loop]) -> Result<Vec<LoopRow>, AllocError>
    requires addresses { AreAddresses addresses.now }
    requires sound { first_row (length addresses.now - 1) 0 loops.now ≡ None }
    ensures rows { IfOk result (λ rows. rows.items ≡ map (row_of addresses.now) loops.now) }
    ensures in_range { IfOk result (λ rows. All IsRow rows.items) }
{
    let mut rows = Vec::with_capacity(alloc, loops.len())?;
    for row in loops {
        rows.push(row_of(addresses, row))?;
    }
    Ok(rows)
}
