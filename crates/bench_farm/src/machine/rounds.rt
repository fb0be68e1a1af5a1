//! Rounds of a worker on a machine.

use anyhow::{Result, anyhow};
use std::alloc::Global;
use tp_accept::Accepted;
use tp_image::Image;
use tp_link::{Link, LinkDevice, Links, Media, Wire};
use tp_outcome::Outcome;

/// The bytes of the longest packet and the longest result.
const MESSAGE_BYTES: usize = 64;

/// More steps than any of the workers makes.
const LIMIT: u32 = 16_777_216;

/// The counts of some rounds, and the last result's first word.
#[derive(Clone, Copy)]
pub(crate) struct Run {
    pub(crate) counted: u64,
    pub(crate) result_word: u32,
}

/// A machine, and what it runs.
pub(crate) trait Runs: Drop {
    fn run_once(&mut self, links: &mut Links<Wire<'_>>) -> Result<Outcome>;
}

#[derive(Drop)]
pub(crate) struct Plain<'a> {
    pub(crate) machine: tp_machine::Machine,
    pub(crate) accepted: &'a Accepted,
}

impl Runs for Plain<'_> {
    fn run_once(&mut self, links: &mut Links<Wire<'_>>) -> Result<Outcome> {
        self.machine
            .run(self.accepted, links)
            .map_err(|fault| anyhow!("{fault}"))
    }
}

#[derive(Drop)]
pub(crate) struct Tested<'a> {
    pub(crate) machine: tpw_machine::Machine,
    pub(crate) image: &'a Image,
}

impl Runs for Tested<'_> {
    fn run_once(&mut self, links: &mut Links<Wire<'_>>) -> Result<Outcome> {
        self.machine
            .run_image(self.image, links, LIMIT)
            .map_err(|fault| anyhow!("{fault}"))
    }
}

/// Runs a packet of zeros. The first word of the result comes back, and the steps.
fn round<M: Runs>(
    machine: &mut M,
    links: &mut Links<Wire<'_>>,
    packet: usize,
) -> Result<(u32, u32)> {
    links
        .source
        .send(&[0; MESSAGE_BYTES][..packet.min(MESSAGE_BYTES)])
        .map_err(|code| anyhow!("{code} at {}", Link::Source))?;
    let outcome = machine.run_once(links)?;
    let mut word = [0; 4];
    links
        .sink
        .receive(&mut word)
        .map_err(|code| anyhow!("{code} at {}", Link::Sink))?;
    Ok((u32::from_le_bytes(word), outcome.steps))
}

/// This many rounds on one machine, each with a packet of this many bytes, which are 0.
pub(crate) fn rounds<M: Runs>(
    alloc: Global,
    machine: &mut M,
    packet: usize,
    count: u32,
) -> Result<Run> {
    let mut media = Media::new(alloc, MESSAGE_BYTES)?;
    rounds_over(machine, &mut media.wires(), packet, count)
}

/// This many rounds over these wires.
fn rounds_over<M: Runs>(
    machine: &mut M,
    links: &mut Links<Wire<'_>>,
    packet: usize,
    count: u32,
) -> Result<Run> {
    let mut run = Run {
        counted: 0,
        result_word: 0,
    };
    for _ in 0..count {
        let (word, steps) = round(machine, links, packet)?;
        run.counted = run.counted.saturating_add(u64::from(steps));
        run.result_word = word;
    }
    Ok(run)
}
