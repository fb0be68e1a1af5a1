//! How many instructions a second the verifier's rules take in place: `State::transfer` over ldl, adc, stl. And how long
//! `State::join` and `State::is_below` take for two states of 512 words, all known and alike.
//!
//! Makes a thousand rounds; timed, millions, with the time that they took.

ghost use Rattle.std.specs.Prelude.{◌≡◌, length};
ghost use Rattle.tp_decode.specs.Cutting.{IsCutting};
ghost use Rattle.tp_flow.specs.NestRanges.{ranges};
ghost use Rattle.tp_state.specs.Conditions.{IsPlaced, HasGoodLoops};

use anyhow::{Result, anyhow, bail};
use std::alloc::Global;
use std::rt::Runtime;
use std::time::Instant;
use test_samples::took::Took;
use test_samples::{INCREMENT, LARGEST_WORKSPACE};
use tp_decode::{Instr, Listing, decode};
use tp_flow::{Edge, Nest, check_flow};
use tp_image::{Image, read_image};
use tp_state::State;

const FEW_ROUNDS: u32 = 1_000;

const TIMED_ROUNDS: u32 = 10_000_000;

const TIMED_MEETINGS: u32 = 1_000_000;

pub(crate) fn measure<R: Runtime<A = Global>>(rt: &R, is_timed: bool) -> Result<()> {
    measure_rules(rt, is_timed)?;
    measure_meetings(rt, is_timed)
}

fn measure_rules<R: Runtime<A = Global>>(rt: &R, is_timed: bool) -> Result<()> {
    let image = read_image(rt.alloc(), INCREMENT)?;
    let Ok(listing) = decode(rt.alloc(), &image.code) else {
        bail!("no listing");
    };
    report_rules(rt, &image, &listing, is_timed)
}

/// Prints how many instructions pass.
fn report_rules<R: Runtime<A = Global>>(
    rt: &R,
    image: &Image,
    listing: &Listing,
    is_timed: bool,
) -> Result<()>
    requires { IsCutting image.now.code listing.now }
{
    let nest = check_flow(image, listing).map_err(|fault| anyhow!("{fault}"))?;
    report_along(rt, image, &nest, is_timed)
}

/// Prints how many instructions pass along a nest.
fn report_along<R: Runtime<A = Global>>(
    rt: &R,
    image: &Image,
    nest: &Nest,
    is_timed: bool,
) -> Result<()>
    requires good { HasGoodLoops image.now }
    requires nest { nest.now ≡ ranges image.now.loops }
{
    let mut state = State::entry(rt.alloc(), image)?;
    let (passed, took) = passed_in(rt, &mut state, image, nest, is_timed)?;
    let word = state.cells.get(8);
    Ok(println!(rt; "ldl, adc, stl: {passed} instructions passed, word 8 is {word:?}{took}")?)
}

/// How many instructions pass, and what all rounds took.
fn passed_in<R: Runtime<A = Global>>(
    rt: &R,
    state: &mut State,
    image: &Image,
    nest: &Nest,
    is_timed: bool,
) -> Result<(u64, Took)>
    requires placed { IsPlaced image.now state.old }
    requires good { HasGoodLoops image.now }
    requires nest { nest.now ≡ ranges image.now.loops }
{
    let rounds = if is_timed { TIMED_ROUNDS } else { FEW_ROUNDS };
    let start = Instant::now(rt)?;
    let passed = count_passed(state, image, nest, rounds);
    let took = Took::since(rt, start, is_timed, "all")?;
    Ok((passed, took))
}

fn measure_meetings<R: Runtime<A = Global>>(rt: &R, is_timed: bool) -> Result<()> {
    let image = read_image(rt.alloc(), LARGEST_WORKSPACE)?;
    let mut state = State::entry(rt.alloc(), &image)?;
    drop(image);
    let first = state.copy_of(rt.alloc())?;
    let second = state.copy_of(rt.alloc())?;
    report_meetings(rt, &mut state, &first, &second, is_timed)
}

/// Prints how many joins change nothing, and how many comparisons hold.
fn report_meetings<R: Runtime<A = Global>>(
    rt: &R,
    state: &mut State,
    first: &State,
    second: &State,
    is_timed: bool,
) -> Result<()>
    requires first { length first.now.cells ≡ length state.old.cells }
    requires second { length second.now.cells ≡ length first.now.cells }
{
    let rounds = if is_timed { TIMED_MEETINGS } else { FEW_ROUNDS };
    let start = Instant::now(rt)?;
    let unchanged = count_unchanged(state, first, rounds);
    let joined = Took::since(rt, start, is_timed, "joined")?;
    let start = Instant::now(rt)?;
    let below = count_below(first, second, first, rounds);
    let compared = Took::since(rt, start, is_timed, "compared")?;
    println!(rt;
        "512 words: {unchanged} joins changed nothing, {below} comparisons held{joined}{compared}"
    )?;
    Ok(())
}

/// How many instructions pass in this many rounds.
fn count_passed(state: &mut State, image: &Image, nest: &Nest, rounds: u32) -> u64
    requires placed { IsPlaced image.now state.old }
    requires good { HasGoodLoops image.now }
    requires nest { nest.now ≡ ranges image.now.loops }
{
    let mut passed = 0u64;
    for _round in 0..rounds {
        passed = passed.saturating_add(one_round(state, image, nest));
    }
    passed
}

/// How many of the three instructions pass.
fn one_round(state: &mut State, image: &Image, nest: &Nest) -> u64
    requires placed { IsPlaced image.now state.old }
    requires good { HasGoodLoops image.now }
    requires nest { nest.now ≡ ranges image.now.loops }
    ensures { IsPlaced image.now state.new }
{
    let loaded = passes(state, 6, Instr::Ldl(0), image, nest);
    let added = passes(state, 7, Instr::Adc(1), image, nest);
    let stored = passes(state, 8, Instr::Stl(0), image, nest);
    u64::from(loaded) + u64::from(added) + u64::from(stored)
}

/// Whether an instruction of one byte passes.
fn passes(state: &mut State, at: u8, instr: Instr, image: &Image, nest: &Nest) -> bool
    requires placed { IsPlaced image.now state.old }
    requires good { HasGoodLoops image.now }
    requires nest { nest.now ≡ ranges image.now.loops }
    ensures { IsPlaced image.now state.new }
{
    let at = usize::from(at);
    state
        .transfer(at, at + 1, instr, Edge::Next, image, nest)
        .is_ok()
}

/// How many joins of this many change nothing.
fn count_unchanged(state: &mut State, other: &State, rounds: u32) -> u64
    requires { length other.now.cells ≡ length state.old.cells }
{
    let mut unchanged = 0u64;
    for _round in 0..rounds {
        unchanged = unchanged.saturating_add(u64::from(is_unchanged(state, other)));
    }
    unchanged
}

/// Whether a join changes nothing.
fn is_unchanged(state: &mut State, other: &State) -> bool
    requires { length other.now.cells ≡ length state.old.cells }
    ensures { length other.now.cells ≡ length state.new.cells }
{
    state.join(other) == Ok(false)
}

/// How many times a state is below another, of this many tries. Two others take turns, and no round is like the one before.
fn count_below(state: &State, first: &State, second: &State, rounds: u32) -> u64
    requires first { length first.now.cells ≡ length state.now.cells }
    requires second { length second.now.cells ≡ length state.now.cells }
{
    let mut below = 0u64;
    for round in 0..rounds {
        let other = if round % 2 == 0 { first } else { second };
        below = below.saturating_add(u64::from(state.is_below(other)));
    }
    below
}
