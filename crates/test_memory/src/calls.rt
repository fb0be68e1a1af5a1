//! The calls.

use crate::batch::batch;
use arrayvec::ArrayVec;
use std::alloc::Global;
use std::sync::Wait;
use std::thread::Threads;
use test_samples::answers::{Answer, Tally, same_if};
use test_samples::{INCREMENT, STORES_BY_TWO_WAYS};
use tp_accept::{Refusal, accept};
use tp_board::{Board, BoardFault, Core, Event, Reply};
use tp_check::check_states;
use tp_collect::Collector;
use tp_decode::{DecodeFault, Instr, Listing, decode};
use tp_flow::check_flow;
use tp_image::{Image, ImageFault, read_image, upgrade, write_image};
use tp_link::{LinkDevice, Medium, OwnedWire, Wire};
use tp_state::{Cell, StateFault};

/// Makes every call, and counts the answers.
pub fn all<R: Threads + Wait + Sync>(rt: &R, alloc: Global) -> Tally {
    let mut tally = Tally::new();
    listings(alloc, &mut tally);
    images(alloc, &mut tally);
    tally.add(verified(alloc));
    tally.add(accepted(alloc));
    devices(alloc, &mut tally);
    core(alloc, &mut tally);
    tally.add(board(alloc));
    tally.add(batch(rt, alloc));
    tally
}

/// Cutting a code, and the text of an instruction.
fn listings(alloc: Global, tally: &mut Tally) {
    match decode(alloc, &[0x60, 0x4F, 0x24, 0xF2, 0x24, 0xF2]) {
        Ok(listing) => {
            tally.add(same_if(listing.at(2) == Some(Instr::Mint) && listing.starts().len() == 3));
            tally.add(text(alloc, &listing));
        }
        Err(DecodeFault::Memory) => tally.add(Answer::Memory),
        Err(_) => tally.add(Answer::Other),
    }
}

fn text(alloc: Global, listing: &Listing) -> Answer {
    if listing.starts().is_empty() {
        return Answer::Other;
    }
    match listing.text(alloc, 0) {
        Ok(text) => same_if(text.as_str() == "0 604f ldc -1"),
        Err(_) => Answer::Memory,
    }
}

/// An image of version 2 with a loop row and an initial word.
const IMAGE: &[u8] = b"TPW2\x02\x00\x08\x00\x05\x00\x01\x00\x01\x00\x01\x00\x01\x00\
    \x01\x00\x02\x00\x03\x00\x04\x00\x05\x00\x00\x00\x2A\x00\x00\x00\x21\xF5";

/// Reading, writing and upgrading an image.
fn images(alloc: Global, tally: &mut Tally) {
    match read_image(alloc, IMAGE) {
        Ok(image) => {
            tally.add(same_if(is_read(&image)));
            tally.add(written(alloc, &image));
            tally.add(collected(alloc, &image));
            tally.add(match upgrade(alloc, &image) {
                Ok(same) => same_if(is_read(&same)),
                Err(ImageFault::Memory) => Answer::Memory,
                Err(_) => Answer::Other,
            });
        }
        Err(ImageFault::Memory) => tally.add(Answer::Memory),
        Err(_) => tally.add(Answer::Other),
    }
}

fn is_read(image: &Image) -> bool {
    let rows = image.loops.as_slice();
    image.version() == 2
        && rows.len() == 1
        && rows.iter().all(|row| row.lend == 2 && row.start == 5)
        && image.initial.as_slice() == [42].as_slice()
        && image.code.as_slice() == [0x21, 0xF5].as_slice()
}

fn written(alloc: Global, image: &Image) -> Answer {
    match write_image(alloc, image) {
        Ok(bytes) => same_if(bytes.as_slice() == IMAGE),
        Err(ImageFault::Memory) => Answer::Memory,
        Err(_) => Answer::Other,
    }
}

/// Making a collector, of packets whose bytes it does not look at.
fn collected(alloc: Global, image: &Image) -> Answer {
    let packets = [ArrayVec::new(), ArrayVec::new(), ArrayVec::new()];
    match Collector::new(alloc, 7, image, &packets) {
        Ok(collector) => same_if(collector.finish().entries.len() == 3),
        Err(_) => Answer::Memory,
    }
}

/// Accepting an image.
fn accepted(alloc: Global) -> Answer {
    let Ok(text) = Vec::from_slice(alloc, INCREMENT) else {
        return Answer::Memory;
    };
    match accept(alloc, text) {
        Ok(accepted) => same_if(accepted.budget() == 16 && accepted.code().len() == 16),
        Err(Refusal::Memory) => Answer::Memory,
        Err(_) => Answer::Other,
    }
}

/// The verifier's table of a worker.
fn verified(alloc: Global) -> Answer {
    let image = match read_image(alloc, STORES_BY_TWO_WAYS) {
        Ok(image) => image,
        Err(ImageFault::Memory) => return Answer::Memory,
        Err(_) => return Answer::Other,
    };
    let listing = match decode(alloc, &image.code) {
        Ok(listing) => listing,
        Err(DecodeFault::Memory) => return Answer::Memory,
        Err(_) => return Answer::Other,
    };
    let Ok(nest) = check_flow(&image, &listing) else {
        return Answer::Other;
    };
    match check_states(alloc, &image, &listing, &nest) {
        Ok(table) => same_if(
            table
                .states
                .iter()
                .any(|(at, state)| *at == 13 && state.cells.get(9) == Cell::Any),
        ),
        Err(StateFault::Memory) => Answer::Memory,
        Err(_) => Answer::Other,
    }
}

/// Making a medium, and a wire that owns it.
fn devices(alloc: Global, tally: &mut Tally) {
    let Ok(mut medium) = Medium::new(alloc, 16) else {
        tally.add(Answer::Memory);
        return;
    };
    let mut wire = Wire::new(&mut medium);
    tally.add(same_if(wire.room() == 16 && wire.send(&[7; 16]).is_ok()));
    drop(wire);
    tally.add(match OwnedWire::new(alloc, medium) {
        Ok((wire, place)) => same_if(wire.held() == 16 && place.get().is_none()),
        Err(_) => Answer::Memory,
    });
}

/// A farm core, and events on it.
fn core(alloc: Global, tally: &mut Tally) {
    let Ok(mut core) = Core::new(alloc, 2, 2) else {
        tally.add(Answer::Memory);
        return;
    };
    let events = [
        (0, Event::Claim),
        (1, Event::Claim),
        (0, Event::Finish),
        (1, Event::Abandon),
    ];
    let wanted = [
        Reply::Number(0),
        Reply::Number(1),
        Reply::Number(0),
        Reply::Number(1),
    ];
    tally.add(match core.play(alloc, &events) {
        Ok(replies) => same_if(replies.as_slice() == wanted.as_slice()),
        Err(_) => Answer::Memory,
    });
}

/// A board, closed as it is.
fn board(alloc: Global) -> Answer {
    match Board::new(alloc, 4, 2) {
        Ok((board, seats)) => match board.close(seats) {
            Ok(ledger) => same_if(ledger.drawn == 0 && ledger.in_hand == 0),
            Err(_) => Answer::Other,
        },
        Err(BoardFault::Memory) => Answer::Memory,
        Err(_) => Answer::Other,
    }
}
