//! Cases of what judges, with the answers of an independent implementation: the rules of instructions and of states
//! that meet, the flow of codes, the reading of images, listings, and whole verdicts.
//!
//! Reads cases from standard input, one a line, as README.md describes them. Prints each that does not agree, up to
//! twenty (the number of its line, the case, the answer that is wanted and the one that came), and then how many agree.
#![tactic(auto)]

mod cells;
mod fields;
mod kinds;
mod rules;
mod verdicts;

use anyhow::{Context, Result, anyhow};
use std::alloc::Global;
use std::io::{BufRead, BufReader};

/// Separates a case from its answer.
const MARK: &str = " > ";

/// How many cases that differ are printed.
const SHOWN: u32 = 20;

/// The answer to a case: its kind, its name, and what is asked.
fn answer(alloc: Global, case: &str) -> Result<String> {
    let (kind, rest) = case.split_once(" ").context("no kind")?;
    let (_, asked) = rest.split_once(" ").context("no name")?;
    match kind {
        "after" => rules::after_case(alloc, asked),
        "join" => rules::join_case(alloc, asked),
        "below" => rules::below_case(alloc, asked),
        "flow" => verdicts::flow_case(alloc, asked),
        "image" => verdicts::image_case(alloc, asked),
        "listing" => verdicts::listing_case(alloc, asked),
        "verdict" => verdicts::verdict_case(alloc, asked),
        _ => Err(anyhow!("no kind of case: {kind}")),
    }
}

fn main(rt: HostRuntime) -> Result<()> {
    let mut line_number = 0u32;
    let mut agree = 0u32;
    let mut differ = 0u32;
    for line in BufReader::new(rt.alloc(), rt.reader())?.lines(rt.alloc()) {
        let line = line?;
        line_number = line_number.saturating_add(1);
        let (case, wanted) = line.split_once(MARK).context("no mark in a line")?;
        let came = answer(rt.alloc(), case)?;
        if came.as_str() == wanted {
            agree = agree.saturating_add(1);
            continue;
        }
        if differ < SHOWN {
            println!(rt; "line {line_number}: {case}\n  wanted {wanted}\n  came   {came}")?;
        }
        differ = differ.saturating_add(1);
    }
    println!(rt; "{agree} agree, {differ} do not")?;
    Ok(())
}
