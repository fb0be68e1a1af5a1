//! The time of the verifier's passes, beside `check_flow` of the same image in the same run.
//!
//! One image is judged once, and it is printed how many states are kept; or its times are printed with that; or it is
//! judged so often, for the processor time that it takes. `bench/images.py` makes the images.

ghost use Rattle.tp_decode.specs.Cutting.{IsCutting};

use anyhow::{Result, anyhow, bail};
use std::alloc::Global;
use std::fmt;
use std::rt::Runtime;
use std::time::Instant;
use test_samples::INCREMENT;
use test_samples::took::Took;
use tp_check::check_states;
use tp_decode::{Listing, decode};
use tp_flow::check_flow;
use tp_image::{Image, read_image};
use tp_state::StateFault;

/// How often check_flow is made where it is timed: it is quick.
const FLOW_ROUNDS: u32 = 100;

/// In small: what is found of the increment.
pub(crate) fn measure<R: Runtime<A = Global>>(rt: &R) -> Result<()> {
    judge(rt, "increment", INCREMENT, 1)
}

/// Judges an image, and prints how long it took.
pub(crate) fn time<R: Runtime<A = Global>>(rt: &R, name: &str, bytes: &[u8]) -> Result<()> {
    let image = read_image(rt.alloc(), bytes)?;
    let Ok(listing) = decode(rt.alloc(), &image.code) else {
        bail!("no listing");
    };
    timed(rt, name, &image, &listing)
}

/// Judges one image so often, and nothing else: what is printed is what was found, and the processor time that was
/// taken is for the caller to see. With no rounds the image is made and its flow checked, and that is all.
pub(crate) fn judge<R: Runtime<A = Global>>(
    rt: &R,
    name: &str,
    bytes: &[u8],
    rounds: u32,
) -> Result<()> {
    let image = read_image(rt.alloc(), bytes)?;
    let Ok(listing) = decode(rt.alloc(), &image.code) else {
        bail!("no listing");
    };
    judge_often(rt, name, &image, &listing, rounds)
}

/// Prints what is found of an image that is judged so often.
fn judge_often<R: Runtime<A = Global>>(
    rt: &R,
    name: &str,
    image: &Image,
    listing: &Listing,
    rounds: u32,
) -> Result<()>
    requires { IsCutting image.now.code listing.now }
{
    check_flow(image, listing).map_err(|fault| anyhow!("{fault}"))?;
    for _ in 1..rounds {
        judged(rt.alloc(), image, listing);
    }
    if rounds > 0
        && let Some(found) = judged(rt.alloc(), image, listing)
    {
        println!(rt; "{name}: {found}")?;
    }
    Ok(())
}

/// How many states are kept, or the refusal.
#[derive(Clone, Copy)]
struct Found {
    states: Result<usize, StateFault>,
}

impl fmt::Display for Found {
    fn fmt<W: fmt::Write>(&self, f: &mut fmt::Formatter<W>) -> fmt::Result {
        match self.states {
            Ok(kept) => write!(f, "{kept} states kept"),
            Err(fault) => write!(f, "refused, {fault}"),
        }
    }
}

/// The verdict of the passes, where the flow passes.
fn judged(alloc: Global, image: &Image, listing: &Listing) -> Option<Found>
    requires { IsCutting image.now.code listing.now }
{
    let Ok(nest) = check_flow(image, listing) else {
        return None;
    };
    let states = match check_states(alloc, image, listing, &nest) {
        Ok(table) => Ok(table.kept()),
        Err(fault) => Err(fault),
    };
    Some(Found { states })
}

/// Prints what is found, and what `check_flow` and the passes took.
fn timed<R: Runtime<A = Global>>(rt: &R, name: &str, image: &Image, listing: &Listing) -> Result<()>
    requires { IsCutting image.now.code listing.now }
{
    let start = Instant::now(rt)?;
    for _ in 0..FLOW_ROUNDS {
        check_flow(image, listing).map_err(|fault| anyhow!("{fault}"))?;
    }
    let flow = Took::since(rt, start, true, "check_flow 100 times")?;
    let start = Instant::now(rt)?;
    let Some(found) = judged(rt.alloc(), image, listing) else {
        bail!("no nest");
    };
    let both = Took::since(rt, start, true, "judged")?;
    println!(rt; "{name}: {found}{both}{flow}")?;
    Ok(())
}
