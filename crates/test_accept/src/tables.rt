//! Tables and refusals of whole workers.

ghost use Rattle.std.specs.Prelude.{◌≡◌, ◌<◌, IfSome};
ghost use Rattle.std.specs.Option.{option_copied};
ghost use Rattle.tp_flow.specs.NestRanges.{ranges};
ghost use Rattle.tp_state.specs.Conditions.{HasGoodLoops, IsPlaced};
ghost use Rattle.tp_check.specs.StatesThere.{AreStatesThere};

use crate::asserts::assert_same;
use crate::images::*;
use crate::reading::read;
use crate::states::refused;
use crate::texts::{NINE_HUNDRED, many_jumps};
use std::alloc::Global;
use std::process::Abort;
use test_samples::*;
use tp_check::{Table, check_states};
use tp_decode::{Instr, Listing};
use tp_flow::{Edge, Nest, check_flow};
use tp_image::Image;
use tp_state::{Cell, Kind, State, StateCode, StateFault, after};

/// The verdict of the passes.
fn verdict(rt: &(impl Abort + AllocGlobal), bytes: &[u8]) -> Result<Table, StateFault> {
    let (image, listing) = read(rt, bytes);
    let nest = check_flow(&image, &listing).expect(rt, "a nest");
    check_states(rt.alloc(), &image, &listing, &nest)
}

/// The increment with another byte in its code.
fn increment_with(at: usize, byte: u8) -> [u8; 32]
    requires { at < 16 }
{
    let mut bytes = [0; 32];
    bytes.copy_from_slice(INCREMENT);
    bytes[16 + at] = byte;
    bytes
}

/// That the passes refuse a worker so, or find a table.
fn assert_refusal(rt: &(impl Abort + AllocGlobal), bytes: &[u8], refusal: Option<StateFault>) {
    assert_same(rt, &verdict(rt, bytes).err(), &refusal);
}

/// That the passes refuse a worker so.
fn assert_refused(rt: &(impl Abort + AllocGlobal), bytes: &[u8], code: StateCode, place: usize) {
    assert_refusal(rt, bytes, refused(code, place));
}

#[test]
fn refuses_with_code_and_place(rt: HostRuntime) {
    let workers: [(&[u8], StateCode, usize); 9] = [
        (READS_AFTER_JUMP, StateCode::S1, 8),
        (RECEIVES_TWO_WORDS, StateCode::S7, 5),
        (SENDS_TWICE, StateCode::S9, 15),
        (LOADS_ANY_WORD, StateCode::S3, 8),
        (READS_BELOW_WPTR, StateCode::S4, 6),
        (STORES_INTO_COUNT, StateCode::S5, 15),
        (MOVES_IN_VERSION_1, StateCode::S11, 10),
        (MOVES_ONTO_ITSELF, StateCode::S3, 9),
        (SHIFTS_BY_ITS_PACKET, StateCode::S10, 8),
    ];
    for (bytes, code, place) in workers {
        assert_refused(&rt, bytes, code, place);
    }
}

#[test]
fn refuses_changes_of_one_byte(rt: HostRuntime) {
    assert_refused(&rt, &increment_with(0, 0xB8), StateCode::S6, 0);
    assert_refused(&rt, &increment_with(0, 0x40), StateCode::S2, 5);
    assert_refused(&rt, &increment_with(3, 0x53), StateCode::S8, 5);
}

#[test]
fn passes_whole_workers(rt: HostRuntime) {
    assert_refusal(&rt, INCREMENT, None);
    assert_refusal(&rt, PICKS_A_WORD, None);
}

/// A table that the passes find.
fn found(rt: &(impl Abort + AllocGlobal), bytes: &[u8]) -> Table {
    verdict(rt, bytes).expect(rt, "a table")
}

/// The state that a table keeps at an address.
fn kept_at(table: &Table, at: u32) -> Option<&State> {
    for (place, state) in &table.states {
        if *place == at {
            return Some(state);
        }
    }
    None
}

/// That in the state that is kept at an address these words are known so.
fn assert_cells(rt: &impl Abort, table: &Table, at: u32, cells: &[(usize, Cell)]) {
    let state = kept_at(table, at).expect(rt, "a state");
    for (word, cell) in cells {
        assert_eq!(rt; state.cells.get(*word), *cell, "word {word} at {at}");
    }
}

/// That a table keeps states at these addresses, and at no other.
fn assert_kept(rt: &(impl Abort + AllocGlobal), bytes: &[u8], places: &[u32]) {
    let table = found(rt, bytes);
    assert_same(rt, &table.kept(), &places.len());
    for place in places {
        assert!(rt; kept_at(&table, *place).is_some(), "a state at {place}");
    }
}

/// States are kept at the first instruction, where two ways meet, and at heads.
#[test]
fn keeps_states_where_edges_join(rt: HostRuntime) {
    assert_kept(&rt, INCREMENT, &[0]);
    assert_kept(&rt, SUM_TO_TEN, &[0, 12]);
    assert_kept(&rt, SUM_TO_TEN_THOUSAND, &[0, 15]);
    assert_kept(&rt, STORES_BY_TWO_WAYS, &[0, 13]);
    let jumps = many_jumps(&rt, rt.alloc(), NINE_HUNDRED, 900);
    let table = found(&rt, &jumps);
    assert_same(&rt, &table.kept(), &901);
}

/// They are in order of address.
#[test]
fn tables_rise(rt: HostRuntime) {
    let jumps = many_jumps(&rt, rt.alloc(), NINE_HUNDRED, 900);
    let mut last = None;
    for (at, _) in &found(&rt, &jumps).states {
        assert!(rt; last < Some(*at), "a higher address than the one before");
        last = Some(*at);
    }
}

#[test]
fn finds_a_table(rt: HostRuntime) {
    let table = found(&rt, STORES_BY_TWO_WAYS);
    assert_cells(&rt, &table, 13, &[(9, Cell::Any)]);
}

/// A state without its cells: Wptr, the phase, Areg and Breg.
type Registers = (u32, u8, Kind, Kind);

/// The same: it is a state of the image's worker.
fn placed_at<'a>(image: &Image, table: &'a Table, at: u32) -> Option<&'a State>
    requires { AreStatesThere image.now table.now.states.items }
    ensures { IfSome (option_copied result) (IsPlaced image.now) }
{
    image.law_is_in_range();
    for i in 0..table.states.len() {
        if table.states[i].0 == at {
            return Some(&table.states[i].1);
        }
    }
    None
}

/// The state at an address, from the one at an address before it: control falls from instruction to instruction,
/// and out of loops.
fn carried_to(
    rt: &(impl Abort + AllocGlobal),
    image: &Image,
    listing: &Listing,
    nest: &Nest,
    state: State,
    from: usize,
    to: usize,
) -> State
    requires good { HasGoodLoops image.now }
    requires nest { nest.now ≡ ranges image.now.loops }
    requires placed { IsPlaced image.now state }
{
    let mut state = state;
    for at in from..to {
        if let (Some(instr), Some(next)) = (listing.at(at), listing.next(at)) {
            let edge = match instr {
                Instr::Lend => Edge::Out,
                _ => Edge::Next,
            };
            state = after(rt.alloc(), &state, at, next, instr, edge, image, nest).expect(
                rt, "a state",
            );
        }
    }
    state
}

/// The states along a loop, from the one that is kept at its head: before the sum, before the lend,
/// behind the loop, and at the end.
#[test]
fn knows_the_registers_along_a_loop(rt: HostRuntime) {
    let (image, listing) = read(&rt, SUM_TO_TEN_THOUSAND);
    let nest = check_flow(&image, &listing).expect(&rt, "a nest");
    let table = check_states(rt.alloc(), &image, &listing, &nest).expect(&rt, "a table");
    let any = Kind::Int(i32::MIN, i32::MAX);
    let states: [(usize, Registers); 5] = [
        (15, (8, 1, Kind::Undef, Kind::Undef)),
        (17, (8, 1, Kind::Int(0, 9999), any)),
        (21, (8, 1, Kind::Int(8, 8), Kind::Ptr(10, 10))),
        (23, (8, 1, Kind::Undef, Kind::Undef)),
        (28, (8, 2, Kind::Undef, Kind::Undef)),
    ];
    for (at, registers) in states {
        let head = placed_at(&image, &table, 15).expect(&rt, "a state");
        let head = head.copy_of(rt.alloc()).expect(&rt, "a copy");
        let state = carried_to(&rt, &image, &listing, &nest, head, 15, at);
        assert_known(&rt, &state, at, registers);
    }
}

/// These registers are known at an address; and behind the loop, the cells of the workspace.
fn assert_known(rt: &impl Abort, state: &State, at: usize, registers: Registers) {
    assert_same(rt, &(state.wptr, state.phase, state.a, state.b), &registers);
    for (word, cell) in LEFT_BY_THE_LOOP {
        if at >= 23 {
            assert_eq!(rt; state.cells.get(word), cell, "word {word} at {at}");
        }
    }
}

/// The cells of the workspace behind the loop, up to the end.
const LEFT_BY_THE_LOOP: [(usize, Cell); 3] = [(9, Cell::Any), (10, Cell::Undef), (11, Cell::Undef)];

/// The cells of the workspace at the head.
const CELLS_AT_THE_HEAD: [(usize, Cell); 6] = [
    (2, Cell::Known(0)),
    (3, Cell::Undef),
    (8, Cell::Any),
    (9, Cell::Any),
    (10, Cell::Index(0)),
    (11, Cell::Count(0)),
];

#[test]
fn knows_what_stands_at_a_head(rt: HostRuntime) {
    let table = found(&rt, SUM_TO_TEN_THOUSAND);
    assert_cells(&rt, &table, 15, &CELLS_AT_THE_HEAD);
}
