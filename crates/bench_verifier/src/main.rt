//! How fast the verifier is, beside plain code that does the same work in the same run.
//!
//! `bench_verifier WORD` measures what the word names, and prints what was counted and how long that took; the scripts
//! make rates of it. With no word each is done once, in small, and what was counted is printed, which is the same at
//! every run.
#![tactic(auto)]

mod accept;
mod check;
mod flow;
mod states;

use anyhow::{Result, anyhow, bail};
use std::alloc::Global;
use std::env;
use std::rt::Runtime;

fn main(rt: HostRuntime) -> Result<()> {
    let mut words = env::args(&rt)?;
    let Some(word) = words.nth(1) else {
        drop(words);
        return all_in_small(&rt);
    };
    match word.as_str() {
        "flow" => flow::measure(&rt, true),
        "states" => states::measure(&rt, true),
        "check" | "judge" | "accept" => {
            let (Some(name), Some(digits)) = (words.next(), words.next()) else {
                bail!(
                    "it takes the name of an image, its bytes in hexadecimal, and a number of rounds"
                );
            };
            let rounds = words.next().map_or(1, |rounds| rounds.parse().unwrap_or(1));
            measure_image(&rt, word.as_str(), name.as_str(), digits.as_str(), rounds)
        }
        _ => bail!("the words are flow, states, check, judge, accept"),
    }
}

/// Each measurement once, in small.
fn all_in_small<R: Runtime<A = Global>>(rt: &R) -> Result<()> {
    flow::measure(rt, false)?;
    states::measure(rt, false)?;
    check::measure(rt)?;
    accept::measure(rt)
}

/// Measures what a word names of an image given in hexadecimal.
fn measure_image<R: Runtime<A = Global>>(
    rt: &R,
    word: &str,
    name: &str,
    digits: &str,
    rounds: u32,
) -> Result<()> {
    let bytes = hex::decode(rt.alloc(), digits).map_err(|fault| anyhow!("{fault}"))?;
    match word {
        "check" => check::time(rt, name, &bytes),
        "judge" => check::judge(rt, name, &bytes, rounds),
        _ => accept::time(rt, name, &bytes, rounds),
    }
}
