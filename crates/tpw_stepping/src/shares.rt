//! A profile as lines: the steps of each line of a text, or of each instruction, and how often it is run, the most steps
//! first; and of each loop.

use crate::times::{times_at, times_of};
use std::alloc::Global;
use std::fmt;
use std::io::Write;
use tp_decode::{DecodeFault, Listing, decode};
use tp_image::{Image, LoopRow};
use tpw_debug::SourceText;
use tpw_files::Failure;
use tpw_step::Profile;

/// The columns of the longest bar.
const BAR: u64 = 30;

/// An image, the steps made on it, and its debug information.
#[derive(Clone, Copy)]
pub struct Shares<'a, 's> {
    pub image: &'a Image,
    pub profile: &'a Profile,
    pub source: SourceText<'s>,
}

impl Shares<'_, '_> {
    /// The place of the instruction at an address: the line that says it, or the address itself where no text does.
    pub fn place_at(&self, at: usize) -> usize {
        match self.source.statement_at(at) {
            Some(statement) => statement.line,
            None => at,
        }
    }
}

/// The steps of a line or an instruction, which has a place: the line, or the address.
#[derive(Clone, Copy, Debug, PartialEq, Eq)]
struct Share {
    place: usize,
    steps: u64,
}

/// Adds steps to the share of a place.
fn add(shares: &mut Vec<Share>, place: usize, steps: u64) -> Result<(), Failure> {
    for share in shares.iter_mut() {
        if share.place == place {
            share.steps = share.steps.saturating_add(steps);
            return Ok(());
        }
    }
    shares.push(Share { place, steps })?;
    Ok(())
}

/// The shares by line, or by address where no text says the code.
fn shares_of(alloc: Global, shares: Shares<'_, '_>) -> Result<Vec<Share>, Failure> {
    let mut found = Vec::new(alloc);
    for (at, steps) in shares.profile.counts.iter().enumerate() {
        if *steps != 0 {
            add(&mut found, shares.place_at(at), *steps)?;
        }
    }
    found.sort_by_key(|share| u64::MAX - share.steps)?;
    Ok(found)
}

/// A part of all steps: its percentage with one digit behind the point, the steps, how often it is run, and a bar beside
/// the most of any part.
#[derive(Clone, Copy)]
struct Part {
    steps: u64,
    times: u64,
    all: u64,
    most: u64,
}

impl fmt::Display for Part {
    fn fmt<W: fmt::Write>(&self, f: &mut fmt::Formatter<W>) -> fmt::Result {
        let steps = self.steps;
        let share = steps.saturating_mul(1000) / self.all.max(1);
        let whole = share / 10;
        let tenth = share % 10;
        let times = self.times;
        write!(f, "{whole:>3}.{tenth}%  {steps:>12}  {times:>10}x  ")?;
        let bar = steps.saturating_mul(BAR) / self.most.max(1);
        for column in 0..BAR {
            f.write_str(if column < bar { "#" } else { " " })?;
        }
        Ok(())
    }
}

/// Writes the share of a line with its text, or of an instruction.
fn write_share<W: Write>(
    shares: Shares<'_, '_>,
    listing: &Listing,
    share: Share,
    part: Part,
    writer: &mut W,
) -> Result<(), Failure> {
    let place = share.place;
    let lines = shares.source.statements;
    let written = match lines.iter().find(|statement| statement.line == place) {
        Some(statement) => {
            let text = statement.text;
            writeln!(writer, "{part}  line {place}: {text}")
        }
        None => match listing.at(place) {
            Some(instr) => writeln!(writer, "{part}  {place} {instr}"),
            None => writeln!(writer, "{part}  {place}"),
        },
    };
    written.map_err(|_| Failure::Write)
}

/// The steps of the addresses from a loop's head to the instruction of its lend.
fn steps_within(profile: &Profile, row: &LoopRow) -> u64 {
    let mut steps: u64 = 0;
    for at in row.head..row.lend.saturating_add(1) {
        if let Some(count) = profile.counts.get(at as usize) {
            steps = steps.saturating_add(*count);
        }
    }
    steps
}

/// Writes the share of each loop, in the order of rows.
fn write_loops<W: Write>(shares: Shares<'_, '_>, writer: &mut W) -> Result<(), Failure> {
    let image = shares.image;
    let all = shares.profile.steps;
    for (number, row) in image.loops.iter().enumerate() {
        let part = Part {
            steps: steps_within(shares.profile, row),
            times: shares.profile.times(image, row.lend as usize),
            all,
            most: all,
        };
        let name = shares.source.loop_name(number, row);
        let head = row.head;
        let lend = row.lend;
        writeln!(writer, "{part}  loop {name}, {head} to {lend}").map_err(|_| Failure::Write)?;
    }
    Ok(())
}

/// The instructions of an image, if its code is cut into such.
fn listing_of(alloc: Global, image: &Image) -> Result<Option<Listing>, Failure> {
    match decode(alloc, &image.code) {
        Ok(listing) => Ok(Some(listing)),
        Err(DecodeFault::Memory) => Err(Failure::Memory),
        Err(DecodeFault::Refused { .. }) => Ok(None),
    }
}

/// Writes a profile: all steps, the shares of lines or instructions, and those of loops.
pub fn write_shares<W: Write>(
    alloc: Global,
    shares: Shares<'_, '_>,
    writer: &mut W,
) -> Result<(), Failure> {
    let all = shares.profile.steps;
    writeln!(writer, "steps {all}").map_err(|_| Failure::Write)?;
    let found = shares_of(alloc, shares)?;
    let most = match found.first() {
        Some(first) => first.steps,
        None => 0,
    };
    if let Some(listing) = listing_of(alloc, shares.image)? {
        let times = times_of(alloc, shares, &listing)?;
        for share in &found {
            let part = Part {
                steps: share.steps,
                times: times_at(&times, share.place),
                all,
                most,
            };
            write_share(shares, &listing, *share, part, writer)?;
        }
    }
    write_loops(shares, writer)
}
