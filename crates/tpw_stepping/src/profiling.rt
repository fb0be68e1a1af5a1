//! Where the steps of packets' runs go.

ghost use Rattle.std.specs.Prelude.{◌≡◌, ◌≤◌, All, IfOk, length};
ghost use Rattle.tp_image.specs.Text.{IsTextOf};
ghost use Rattle.tpw_step.specs.Profiles.{AddsUp};

use crate::shares::{Shares, write_shares};
use std::alloc::{AllocError, Global};
use std::io::{Eprint, Write};
use std::thread;
use std::thread::Threads;
use std::time::Clock;
use tp_collect::LostCause;
use tp_farm::members_for;
use tp_image::{Image, ImageFault, read_image};
use tpw_debug::SourceText;
use tpw_files::{Failure, Outcome, Terminal};
use tpw_runs::{LONG_TRACE, Progress, write_loss};
use tpw_step::{Profile, RunEnd, Stepper, count_run};

/// A profile, prepared: packets of an image, whose runs are counted.
#[derive(Drop)]
pub struct Counted {
    pub image: Image,
    pub packets: Vec<Vec<u8>>,
}

/// How the run of a packet has ended whose worker did not stop.
#[derive(Clone, Copy, Debug, PartialEq, Eq)]
struct Unstopped {
    number: usize,
    end: RunEnd,
}

/// The counts of a member.
#[derive(Drop)]
struct Share {
    profile: Profile,
    unstopped: Vec<Unstopped>,
}

/// Writes how the run of a packet has ended whose worker did not stop.
fn note_end<E: Write>(errors: &mut E, number: usize, end: RunEnd) {
    let _ = match end {
        RunEnd::Stopped => Ok(()),
        RunEnd::Stuck(at) => write!(errors, "tpw: packet {number} is stuck at {at}\n"),
        RunEnd::Refused(fault) if LostCause::Link(fault) == LONG_TRACE => {
            write_loss(errors, number, LONG_TRACE);
            Ok(())
        }
        RunEnd::Refused(fault) => write!(errors, "tpw: packet {number} is refused: {fault}\n"),
        RunEnd::Unended => write!(errors, "tpw: packet {number} does not end\n"),
    };
}

/// Runs packets of an image, the first of which has a number, and counts their steps.
fn count_packets<R: Clock + Eprint>(
    alloc: Global,
    stepper: &mut Stepper,
    first: usize,
    packets: &[Vec<u8>],
    profile: &mut Profile,
    progress: &Progress<'_, R>,
) -> Result<Vec<Unstopped>, AllocError>
    requires { AddsUp profile.old }
    ensures adds_up { AddsUp profile.new }
    ensures long { length profile.new.counts.items ≡ length profile.old.counts.items }
{
    let mut unstopped = Vec::new(alloc);
    for (i, packet) in packets.iter().enumerate() {
        let end = count_run(alloc, stepper, packet, profile)?;
        if end != RunEnd::Stopped {
            let number = first.saturating_add(i);
            unstopped.push(Unstopped { number, end })?;
        }
        progress.add();
    }
    Ok(unstopped)
}

/// Counts a member's packets, the first of which has a number, on the image that bytes say.
fn count_share<R: Clock + Eprint>(
    alloc: Global,
    bytes: &[u8],
    image: &Image,
    first: usize,
    packets: &[Vec<u8>],
    progress: &Progress<'_, R>,
) -> Result<Share, ImageFault>
    requires { IsTextOf bytes.now image.now }
    ensures adds_up { IfOk result (λ share. AddsUp share.profile) }
    ensures long { IfOk result (λ share. length share.profile.counts.items ≡ length image.now.code) }
{
    let mut profile = Profile::new(alloc, image)?;
    let mut stepper = Stepper::new(read_image(alloc, bytes)?);
    let unstopped = count_packets(alloc, &mut stepper, first, packets, &mut profile, progress)?;
    Ok(Share { profile, unstopped })
}

/// Counts packets on the image that bytes say, on members: each has as many packets as the others, in order.
fn count_shares<T: Threads + Clock + Eprint + Sync>(
    rt: &T,
    alloc: Global,
    bytes: &[u8],
    image: &Image,
    packets: &[Vec<u8>],
    members: usize,
    progress: &Progress<'_, T>,
) -> Result<Vec<Result<Share, ImageFault>>, AllocError>
    requires text { IsTextOf bytes.now image.now }
    requires members { 1 ≤ members }
    ensures adds_up { IfOk result (λ shares. All (λ share. IfOk share (λ s. AddsUp s.profile)) shares.items) }
    ensures long { IfOk result (λ shares. All (λ share. IfOk share
        (λ s. length s.profile.counts.items ≡ length image.now.code)) shares.items) }
{
    let each = packets.len().div_ceil(members).max(1);
    thread::map_chunks(
        rt,
        alloc,
        packets,
        each,
        &|first, part| count_share(alloc, bytes, image, first, part, progress),
    )
}

/// Adds up what members have counted, and writes how the runs have ended whose workers did not stop. Returns all steps,
/// and whether each worker stopped.
fn added<E: Write>(
    alloc: Global,
    image: &Image,
    shares: &[Result<Share, ImageFault>],
    errors: &mut E,
) -> Result<(Profile, bool), Failure>
    requires adds_up { All (λ share. IfOk share (λ s. AddsUp s.profile)) shares.now }
    requires long { All (λ share. IfOk share (λ s. length s.profile.counts.items ≡ length image.now.code)) shares.now }
    ensures { IfOk result (λ counted. AddsUp counted.0) }
{
    let mut profile = Profile::new(alloc, image)?;
    let mut all = true;
    for share in shares {
        match share {
            Ok(share) => {
                profile.add(&share.profile);
                for Unstopped { number, end } in &share.unstopped {
                    note_end(errors, *number, *end);
                    all = false;
                }
            }
            Err(fault) => return Err(Failure::from(*fault)),
        }
    }
    Ok((profile, all))
}

/// Counts the steps of packets' runs on the image that bytes say, on members of those that are asked for, and writes
/// where they go: by the lines of its text, if it has one.
pub fn write_profile<T: Threads + Clock + Eprint + Sync, W: Write, E: Write>(
    rt: &T,
    alloc: Global,
    bytes: &[u8],
    counted: &Counted,
    members: usize,
    source: SourceText<'_>,
    writer: &mut W,
    terminal: &mut Terminal<'_, E>,
) -> Result<Outcome, Failure>
    requires { IsTextOf bytes.now counted.now.image }
{
    let Counted { image, packets } = counted;
    let progress = Progress::new(rt, packets.len(), terminal.is_terminal);
    let members = members_for(members, packets.len());
    let shares = count_shares(rt, alloc, bytes, image, packets, members, &progress);
    progress.clear();
    let (profile, all) = added(alloc, image, &shares?, terminal.errors)?;
    let shares = Shares {
        image,
        profile: &profile,
        source,
    };
    write_shares(alloc, shares, writer)?;
    match writer.flush() {
        Ok(()) => Ok(Outcome::of(all)),
        Err(_) => Err(Failure::Write),
    }
}
