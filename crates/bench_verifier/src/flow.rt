//! How long `check_flow` takes over 8,192 code bytes with 16 loops, beside plain loops over the same listing.
//!
//! Judges each code once, and prints the counts; timed, many times, with the times of all rounds.

mod plain;
mod sample;

ghost use Rattle.tp_decode.specs.Cutting.{IsCutting};

use anyhow::{Result, anyhow, bail};
use sample::{EVERY_JUMP, MIXED};
use std::alloc::Global;
use std::rt::Runtime;
use std::time::Instant;
use test_samples::took::Took;
use tp_decode::{Listing, decode};
use tp_flow::check_flow;
use tp_image::{Image, read_image};

const TIMED_ROUNDS: u32 = 2000;

pub(crate) fn measure<R: Runtime<A = Global>>(rt: &R, is_timed: bool) -> Result<()> {
    report_code(rt, "every eighth byte a cj", MIXED, is_timed)?;
    report_code(rt, "every byte a cj", EVERY_JUMP, is_timed)
}

/// Prints the counts of one code, and what all rounds took.
fn report_code<R: Runtime<A = Global>>(
    rt: &R,
    name: &str,
    fill: [u8; 8],
    is_timed: bool,
) -> Result<()> {
    let image = image_of(rt.alloc(), fill)?;
    let Ok(listing) = decode(rt.alloc(), &image.code) else {
        bail!("no listing");
    };
    report_listing(rt, name, &image, &listing, is_timed)
}

fn image_of(alloc: Global, fill: [u8; 8]) -> Result<Image> {
    let bytes = sample::image_bytes(alloc, fill)?;
    let image = read_image(alloc, bytes.as_slice());
    drop(bytes);
    Ok(image?)
}

/// Prints the counts of a listing, and what all rounds took.
fn report_listing<R: Runtime<A = Global>>(
    rt: &R,
    name: &str,
    image: &Image,
    listing: &Listing,
    is_timed: bool,
) -> Result<()>
    requires { IsCutting image.now.code listing.now }
{
    let rounds = if is_timed { TIMED_ROUNDS } else { 1 };
    let start = Instant::now(rt)?;
    let by_number = mixed_by_number(listing, rounds);
    let number = Took::since(rt, start, is_timed, "by number")?;
    let start = Instant::now(rt)?;
    let by_address = mixed_by_address(listing, rounds);
    let address = Took::since(rt, start, is_timed, "by address")?;
    let start = Instant::now(rt)?;
    let passed = passed(image, listing, rounds)?;
    let check = Took::since(rt, start, is_timed, "check_flow")?;
    let alike = by_number == by_address;
    println!(rt; "{name}: both loops alike {alike}, {passed} passed{check}{number}{address}")?;
    Ok(())
}

fn mixed_by_number(listing: &Listing, rounds: u32) -> u64 {
    let mut mix = 0u64;
    for _ in 0..rounds {
        mix = plain::mixed_by_number(listing, mix);
    }
    mix
}

fn mixed_by_address(listing: &Listing, rounds: u32) -> u64 {
    let mut mix = 0u64;
    for _ in 0..rounds {
        mix = plain::mixed_by_address(listing, mix);
    }
    mix
}

/// How many rounds of `check_flow` find the first loop. Each has to pass.
fn passed(image: &Image, listing: &Listing, rounds: u32) -> Result<u64>
    requires { IsCutting image.now.code listing.now }
{
    let mut passed = 0u64;
    for _ in 0..rounds {
        let nest = check_flow(image, listing).map_err(|fault| anyhow!("{fault}"))?;
        if nest.range(0).is_some() {
            passed = passed.wrapping_add(1);
        }
    }
    Ok(passed)
}
