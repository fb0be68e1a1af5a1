//! Single steps on the tested machine, from standard input; and, as tests, runs on it.
//!
//! The program reads vectors, one a line, as README.md describes them. It prints the first that does not agree (the
//! number of its line, its state, the vector's outcome and the machine's), and then how many agree.
//!
//! The tests run the table of `test_effects`, with the results that the definitions give, runs that end in a fault, and
//! runs over other devices.
#![tactic(auto)]

#[cfg(test)]
mod asserts;
#[cfg(test)]
mod faults;
#[cfg(test)]
mod media;
#[cfg(test)]
mod place;
#[cfg(test)]
mod runs;
#[cfg(test)]
mod short;
mod steps;
#[cfg(test)]
mod whole;

use anyhow::{Context, Result};
use std::io::{BufRead, BufReader};
use steps::{agrees, came};

/// Separates a vector's state from the state after it.
const MARK: &str = " > ";

fn main(rt: HostRuntime) -> Result<()> {
    let mut line_number = 0u32;
    let mut agree = 0u32;
    let mut differ = 0u32;
    for line in BufReader::new(rt.alloc(), rt.reader())?.lines(rt.alloc()) {
        let line = line?;
        line_number = line_number.saturating_add(1);
        if line.is_empty() || line.starts_with("#") {
            continue;
        }
        let (state, wanted) = line.split_once(MARK).context("no mark in a line")?;
        let came = came(rt.alloc(), state)?;
        if agrees(came.as_str(), wanted) {
            agree = agree.saturating_add(1);
            continue;
        }
        if differ == 0 {
            println!(rt; "line {line_number}: {state}\n  wanted {wanted}\n  came   {came}")?;
        }
        differ = differ.saturating_add(1);
    }
    println!(rt; "{agree} agree, {differ} do not")?;
    Ok(())
}
