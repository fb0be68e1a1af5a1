//! How many images a second are accepted, beside decoding the same code.
//!
//! One image is accepted once, and its code bytes and its budget are printed; or it is accepted many times, and what
//! that took is printed. `bench/images.py` makes the images.

use anyhow::{Result, anyhow};
use std::alloc::Global;
use std::rt::Runtime;
use std::time::Instant;
use test_samples::INCREMENT;
use test_samples::took::Took;
use tp_accept::accept;
use tp_decode::decode;
use tp_image::{Image, read_image};

/// In small: the increment, once.
pub(crate) fn measure<R: Runtime<A = Global>>(rt: &R) -> Result<()> {
    let bytes = code_bytes(rt.alloc(), INCREMENT)?;
    let budget = accept_rounds(rt.alloc(), INCREMENT, 1)?;
    println!(rt; "increment: {bytes} code bytes, budget {budget}")?;
    Ok(())
}

/// Decodes an image's code so often, and accepts it, and prints its code bytes and what all rounds took.
pub(crate) fn time<R: Runtime<A = Global>>(
    rt: &R,
    name: &str,
    text: &[u8],
    rounds: u32,
) -> Result<()> {
    let bytes = code_bytes(rt.alloc(), text)?;
    let decoding = decoding(rt, text, rounds)?;
    let start = Instant::now(rt)?;
    accept_rounds(rt.alloc(), text, rounds)?;
    let acceptance = Took::since(rt, start, true, "accepted")?;
    println!(rt; "{name}: {bytes} code bytes{acceptance}{decoding}")?;
    Ok(())
}

/// How many code bytes an image has.
fn code_bytes(alloc: Global, text: &[u8]) -> Result<usize> {
    Ok(read_image(alloc, text)?.code.len())
}

/// The time to decode the code so often.
fn decoding<R: Runtime<A = Global>>(rt: &R, text: &[u8], rounds: u32) -> Result<Took> {
    let image = read_image(rt.alloc(), text)?;
    decoding_of(rt, &image, rounds)
}

fn decoding_of<R: Runtime<A = Global>>(rt: &R, image: &Image, rounds: u32) -> Result<Took> {
    let start = Instant::now(rt)?;
    decode_rounds(rt.alloc(), image, rounds)?;
    Ok(Took::since(rt, start, true, "decoded")?)
}

/// Decodes the code, so often.
fn decode_rounds(alloc: Global, image: &Image, rounds: u32) -> Result<()> {
    for _ in 0..rounds {
        decode(alloc, &image.code).map_err(|fault| anyhow!("{fault}"))?;
    }
    Ok(())
}

/// Accepts the text, a copy of it each time. The sum of the budgets comes back.
fn accept_rounds(alloc: Global, text: &[u8], rounds: u32) -> Result<u64> {
    let mut budgets = 0u64;
    for _ in 0..rounds {
        let copy = Vec::from_slice(alloc, text)?;
        let accepted = accept(alloc, copy).map_err(|refusal| anyhow!("{refusal}"))?;
        budgets = budgets.saturating_add(u64::from(accepted.budget()));
    }
    Ok(budgets)
}
