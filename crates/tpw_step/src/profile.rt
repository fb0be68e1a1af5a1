//! Where the steps of runs go.

ghost use Rattle.std.specs.Prelude.{◌≡◌, ◌≤◌, ◌+◌, ◌<◌, ◌^◌, ℕ, IfOk, length, slice_get, slice_index_or};
ghost use Rattle.std.specs.Option.{unwrap_or};
ghost use Rattle.tpw_step.specs.Profiles.{AddsUp, sums};

use crate::prefixes::prefixes_at;
use crate::run::{MAX_INSTRUCTIONS, ROOM};
use crate::stepper::Stepper;
use std::alloc::{AllocError, Global};
use tp_image::Image;
use tp_link::{LinkDevice, LinkFault, Links, Media};
use tpw_machine::Turn;

/// The steps made in runs.
#[derive(Drop)]
pub struct Profile {
    /// By the address of the instruction.
    pub counts: Vec<u64>,
    /// All of them.
    pub steps: u64,
}

/// How a run that is counted has ended.
#[derive(Clone, Copy, Debug, PartialEq, Eq)]
pub enum RunEnd {
    /// The worker stopped.
    Stopped,
    /// No step exists, at this address.
    Stuck(i64),
    /// A device refused a call, as the trace does beyond the bytes that a farm keeps of a packet.
    Refused(LinkFault),
    /// The most instructions were run.
    Unended,
}

/// Adds each of some numbers to that at its place.
fn add_each(counts: &mut [u64], more: &[u64])
    requires long { length more.now ≡ length counts.old }
    requires fits { (i : ℕ) → i < length counts.old
        → slice_index_or counts.old i 0 + slice_index_or more.now i 0 < 2 ^ 64 }
    ensures { counts.new ≡ sums counts.old more.now }
{
    for i in 0..counts.len() {
        counts[i] += more[i];
    }
}

impl Profile {
    /// No steps of an image.
    pub fn new(alloc: Global, image: &Image) -> Result<Profile, AllocError>
        ensures adds_up { IfOk result AddsUp }
        ensures long { IfOk result (λ profile. length profile.counts.items ≡ length image.now.code) }
    {
        Ok(Profile {
            counts: vec![in alloc; 0; image.code.len()]?,
            steps: 0,
        })
    }

    /// How often the instruction of an image at an address was made: each time makes its prefixes' steps and one more.
    #[tactic(auto, using(crate::proofs::Times::part_of))]
    pub fn times(&self, image: &Image, at: usize) -> u64
        ensures { result ≤ unwrap_or (slice_get self.now.counts.items at) 0 }
    {
        let Ok(place) = i64::try_from(at) else {
            return 0;
        };
        let steps = (prefixes_at(&image.code, place) as u64).saturating_add(1);
        self.counts.get(at).copied().unwrap_or(0) / steps
    }

    /// Counts steps of the instruction at an address.
    #[tactic(auto, using(crate::proofs::Counting::counted_more))]
    fn count(&mut self, at: usize, steps: u64)
        requires { AddsUp self.old }
        ensures adds_up { AddsUp self.new }
        ensures long { length self.new.counts.items ≡ length self.old.counts.items }
    {
        let Some(count) = self.counts.get(at).copied() else {
            return;
        };
        let (Some(more), Some(all)) = (count.checked_add(steps), self.steps.checked_add(steps))
        else {
            return;
        };
        self.counts[at] = more;
        self.steps = all;
    }

    /// Adds the steps of another profile of the same image. If the two have 2^64 steps or more, nothing is added.
    pub fn add(&mut self, other: &Profile)
        requires mine { AddsUp self.old }
        requires others { AddsUp other.now }
        requires long { length other.now.counts.items ≡ length self.old.counts.items }
        ensures adds_up { AddsUp self.new }
        ensures long { length self.new.counts.items ≡ length self.old.counts.items }
        ensures counts { self.old.steps + other.now.steps < 2 ^ 64
            → self.new.counts.items ≡ sums self.old.counts.items other.now.counts.items }
        ensures steps { self.old.steps + other.now.steps < 2 ^ 64 → self.new.steps ≡ self.old.steps + other.now.steps }
    {
        if let Some(steps) = self.steps.checked_add(other.steps) {
            add_each(&mut self.counts, &other.counts);
            self.steps = steps;
        }
    }
}

/// Makes one instruction, and counts its steps. How the run has ended comes back, if it has.
fn count_one<D: LinkDevice>(
    stepper: &mut Stepper,
    links: &mut Links<D>,
    profile: &mut Profile,
) -> Option<RunEnd>
    requires { AddsUp profile.old }
    ensures adds_up { AddsUp profile.new }
    ensures long { length profile.new.counts.items ≡ length profile.old.counts.items }
    ensures image { stepper.new.image ≡ stepper.old.image }
{
    let at = stepper.registers().iptr;
    match stepper.next(links) {
        None => return Some(RunEnd::Stopped),
        Some(Turn::Stuck) => return Some(RunEnd::Stuck(at)),
        Some(Turn::Refused(fault)) => return Some(RunEnd::Refused(fault)),
        Some(Turn::Made) => {}
    }
    let bytes = (prefixes_at(&stepper.image().code, at) as u64).saturating_add(1);
    if let Ok(at) = usize::try_from(at) {
        profile.count(at, bytes);
    }
    None
}

/// Runs a packet from the image's start, and counts the steps made: each instruction's at its address.
pub fn count_run(
    alloc: Global,
    stepper: &mut Stepper,
    packet: &[u8],
    profile: &mut Profile,
) -> Result<RunEnd, AllocError>
    requires { AddsUp profile.old }
    ensures adds_up { AddsUp profile.new }
    ensures long { length profile.new.counts.items ≡ length profile.old.counts.items }
    ensures image { stepper.new.image ≡ stepper.old.image }
{
    let mut media = Media::with_rooms(alloc, packet.len(), ROOM, ROOM)?;
    let mut links = media.wires();
    let _ = links.source.send(packet);
    stepper.restart();
    for _ in 0..MAX_INSTRUCTIONS {
        if let Some(end) = count_one(stepper, &mut links, profile) {
            return Ok(end);
        }
    }
    Ok(RunEnd::Unended)
}
