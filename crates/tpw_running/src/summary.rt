//! The last line of what is made of packets.

use std::io::{self, Write};
use tpw_files::Failure;
use tpw_runs::{Form, StepRange, Tally};

/// How many of the results that are expected are of no packet, and how many packets have no result that is expected.
#[derive(Clone, Copy)]
struct Unmatched {
    results: usize,
    packets: usize,
}

impl Unmatched {
    /// That of packets shown in a form. Where no results are expected, none are missing.
    fn of(form: Form<'_>, packets: usize) -> Unmatched {
        match form {
            Form::Differences(_, expected) => Unmatched {
                results: expected.len().saturating_sub(packets),
                packets: packets.saturating_sub(expected.len()),
            },
            Form::Lines(_) | Form::Raw => Unmatched {
                results: 0,
                packets: 0,
            },
        }
    }
}

/// Writes how many packets have another result than the one that is expected, and which side is short.
fn write_differing<W: Write>(
    writer: &mut W,
    tally: &Tally,
    unmatched: Unmatched,
) -> Result<(), io::Error> {
    let Unmatched { results, packets } = unmatched;
    let differing = tally
        .other
        .saturating_add(tally.lost)
        .saturating_add(results);
    write!(writer, ", differing {differing}")?;
    if results > 0 {
        write!(writer, ", expected results without a packet {results}")?;
    }
    if packets > 0 {
        write!(writer, ", packets without an expected result {packets}")?;
    }
    Ok(())
}

/// Writes the steps of packets, of a budget.
fn write_steps<W: Write>(
    writer: &mut W,
    budget: u32,
    steps: Option<StepRange>,
) -> Result<(), io::Error> {
    match steps {
        Some(StepRange { least, most }) => {
            write!(writer, ", steps {least} to {most} of {budget}")
        }
        None => write!(writer, ", steps at most {budget}"),
    }
}

/// Writes how many packets there were, how many of them were lost, their steps where there is a budget, and what
/// differs where results are expected.
fn write_counts<W: Write>(
    writer: &mut W,
    budget: Option<u32>,
    tally: &Tally,
    form: Form<'_>,
) -> Result<(), io::Error> {
    let lost = tally.lost;
    let packets = tally.packets();
    write!(writer, "packets {packets}, lost {lost}")?;
    if let Some(budget) = budget {
        write_steps(writer, budget, tally.steps)?;
    }
    if let Form::Differences(_, _) = form {
        write_differing(writer, tally, Unmatched::of(form, packets))?;
    }
    writer.write_all(b"\n")?;
    writer.flush()
}

/// Writes the last line, and flushes it.
pub fn write_summary<W: Write>(
    writer: &mut W,
    budget: Option<u32>,
    tally: &Tally,
    form: Form<'_>,
) -> Result<(), Failure> {
    match write_counts(writer, budget, tally, form) {
        Ok(()) => Ok(()),
        Err(_) => Err(Failure::Write),
    }
}

/// Whether each packet has a result, the one that is expected, and each result that is expected a packet.
pub fn is_as_expected(tally: &Tally, form: Form<'_>) -> bool {
    let unmatched = Unmatched::of(form, tally.packets());
    tally.lost == 0 && tally.other == 0 && unmatched.results == 0
}
