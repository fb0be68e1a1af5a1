//! Workers in occam as texts, and packets with the answers that an interpreter of the language gives.
//!
//! Reads them from standard input, as README.md describes. Each text is compiled, the verifier accepts its image, and
//! each packet is evaluated by what the text means and run on the machine. Prints what does not agree, up to twenty
//! lines, and how many agree.
#![tactic(auto)]

mod answers;
mod workers;

use crate::workers::Compiled;
use anyhow::{Context, Result};
use std::alloc::Global;
use std::io::{BufRead, BufReader};

/// Begins a worker's text, with its name.
const WORKER: &str = "@worker ";

/// Begins a packet of the text above, with its answer behind the mark.
const PACKET: &str = "@packet ";

const MARK: &str = " > ";

/// How many packets that differ are printed.
const SHOWN: u32 = 20;

/// How many packets agree, and how many do not.
#[derive(Clone, Copy)]
struct Counts {
    agree: u32,
    differ: u32,
}

/// A text that is being read, and what it is compiled to once a packet of it comes.
#[derive(Drop)]
struct Current {
    name: String,
    text: String,
    compiled: Option<Compiled>,
}

impl Current {
    fn new(alloc: Global, name: &str) -> Result<Current> {
        Ok(Current {
            name: String::from_str(alloc, name)?,
            text: String::new(alloc),
            compiled: None,
        })
    }

    fn push_line(&mut self, line: &str) -> Result<()> {
        self.text.push_str(line)?;
        self.text.push_str("\n")?;
        Ok(())
    }

    /// The answer to a packet of this worker.
    fn answer(&mut self, alloc: Global, packet: &str) -> Result<String> {
        let compiled = match self.compiled.take() {
            Some(compiled) => compiled,
            None => workers::compile_text(alloc, self.text.as_str())?,
        };
        let answer = compiled.answer(alloc, packet);
        self.compiled = Some(compiled);
        answer
    }
}

fn main(rt: HostRuntime) -> Result<()> {
    let alloc = rt.alloc();
    let mut counts = Counts {
        agree: 0,
        differ: 0,
    };
    let mut current = Current::new(alloc, "")?;
    for line in BufReader::new(alloc, rt.reader())?.lines(alloc) {
        let line = line?;
        if let Some(name) = line.strip_prefix(WORKER) {
            current = Current::new(alloc, name)?;
        } else if let Some(case) = line.strip_prefix(PACKET) {
            let (packet, wanted) = case.split_once(MARK).context("no mark in a line")?;
            let came = match current.answer(alloc, packet) {
                Ok(came) => came,
                Err(error) => format!(in alloc; "{error}")?,
            };
            if came.as_str() == wanted {
                counts.agree = counts.agree.saturating_add(1);
                continue;
            }
            if counts.differ < SHOWN {
                let name = current.name.as_str();
                println!(rt; "{name} {packet}\n  wanted {wanted}\n  came   {came}")?;
            }
            counts.differ = counts.differ.saturating_add(1);
        } else {
            current.push_line(line.as_str())?;
        }
    }
    let Counts { agree, differ } = counts;
    println!(rt; "{agree} agree, {differ} do not")?;
    Ok(())
}
