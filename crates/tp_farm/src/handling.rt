//! The handling of one packet.

ghost use Rattle.std.specs.Prelude.{◌≡◌, ℕ, ◌*◌, ◌+◌, ◌≤◌, ◌<◌, List, length, [], take, slice_get, OnOk, IfOk, IfErr};
ghost use Rattle.std.specs.Prelude.{Ok, Err, Some};
ghost use Rattle.tp_link.specs.Device.{failures};
ghost use Rattle.tp_image.specs.Image.{ImageValue};
ghost use Rattle.tp_outcome.specs.Devices.{devices_of};
ghost use Rattle.tp_collect.specs.Collected.{IsResult};
ghost use Rattle.tp_collect.specs.DoneValue.{most_message_bytes, most_trace};
ghost use Rattle.tp_farm.specs.Settings.{SameDevice, SameSettings};
ghost use Rattle.tp_farm.specs.Losses.{HasCause};
ghost use Rattle.tp_farm.specs.Stages.{IsReady, HasGiven, HasTraced};
ghost use Rattle.tp_farm.specs.Jobs.{value_of_job};
ghost use Rattle.tp_farm.specs.Handled.{on_link, HasReason, RisesIn};

use crate::job::Job;
use tp_accept::Accepted;
use tp_collect::Done;
use tp_collect::limits::MAX_MESSAGE;
use tp_link::{DeviceFault, Link, LinkDevice, LinkFault, Links};
use tp_machine::{Machine, Outcome};
use tp_stream::Packet;

/// A device's refusal, with its link.
fn of_link<T>(link: Link, answer: Result<T, DeviceFault>) -> Result<T, LinkFault>
    ensures { result ≡ on_link link answer }
{
    match answer {
        Ok(x) => Ok(x),
        Err(code) => Err(LinkFault { link, code }),
    }
}

/// Receives all that a device holds, and throws it away.
#[inline(never)]
fn drain<D: LinkDevice>(device: &mut D) -> Result<(), DeviceFault>
    ensures settings { SameDevice (D.state device.old) (D.state device.new) }
    ensures rises { (D.state device.new).faults ≡ (D.state device.old).faults + failures result }
    ensures emptied { OnOk result ((D.state device.new).held ≡ []) }
    ensures cause { IfErr result (HasCause (D.state device.old) ⊥) }
{
    let mut scratch = [0u8; MAX_MESSAGE];
    while device.held() > 0 {
        let n = device.held().min(MAX_MESSAGE);
        device.receive(&mut scratch[..n])?;
    }
    Ok(())
}

/// Leaves a device with nothing. Mostly it holds nothing, and no room for bytes is cleared.
fn empty<D: LinkDevice>(device: &mut D) -> Result<(), DeviceFault>
    ensures settings { SameDevice (D.state device.old) (D.state device.new) }
    ensures rises { (D.state device.new).faults ≡ (D.state device.old).faults + failures result }
    ensures emptied { OnOk result ((D.state device.new).held ≡ []) }
    ensures cause { IfErr result (HasCause (D.state device.old) ⊥) }
{
    if device.held() == 0 {
        return Ok(());
    }
    drain(device)
}

/// Empties the three devices, and sends a packet to the source.
fn prepare<D: LinkDevice>(packet: &Packet, links: &mut Links<D>) -> Result<(), LinkFault>
    ensures settings { SameSettings (devices_of D.state links.old) (devices_of D.state links.new) }
    ensures rises { RisesIn result (devices_of D.state links.old) (devices_of D.state links.new) }
    ensures ready { OnOk result (IsReady packet.now.items (devices_of D.state links.new)) }
    ensures reason { (image : ImageValue) → length packet.now.items ≡ 4 * image.packet →
        IfErr result (HasReason image packet.now.items (devices_of D.state links.old)) }
{
    of_link(Link::Source, empty(&mut links.source))?;
    of_link(Link::Sink, empty(&mut links.sink))?;
    of_link(Link::Trace, empty(&mut links.trace))?;
    of_link(Link::Source, links.source.send(packet.as_slice()))
}

/// Runs the worker on the packet that the source holds, where the others hold nothing.
fn run_on<D: LinkDevice>(
    machine: &mut Machine,
    accepted: &Accepted,
    links: &mut Links<D>,
) -> Result<Outcome, LinkFault>
    requires ready { (packet : List ℕ) × IsReady packet (devices_of D.state links.old)
        × (length packet ≡ 4 * accepted.now.image.packet) }
    ensures settings { SameSettings (devices_of D.state links.old) (devices_of D.state links.new) }
    ensures rises { RisesIn result (devices_of D.state links.old) (devices_of D.state links.new) }
    ensures given { (packet : List ℕ) → IsReady packet (devices_of D.state links.old) →
        length packet ≡ 4 * accepted.now.image.packet →
        IfOk result (λ o. HasGiven accepted.now.image packet o (devices_of D.state links.new)) }
    ensures reason { (packet : List ℕ) → IsReady packet (devices_of D.state links.old) →
        length packet ≡ 4 * accepted.now.image.packet →
        IfErr result (HasReason accepted.now.image packet (devices_of D.state links.old)) }
{
    machine.run(accepted, links)
}

/// Where a member receives results and traces, packet after packet: it is not cleared between them.
#[derive(Drop)]
pub(crate) struct Received {
    pub(crate) result: [u8; MAX_MESSAGE],
    pub(crate) trace: [u8; MAX_MESSAGE],
}

impl Received {
    pub(crate) fn new() -> Received {
        Received {
            result: [0; MAX_MESSAGE],
            trace: [0; MAX_MESSAGE],
        }
    }
}

/// Receives the n bytes that a device holds.
fn receive_held<D: LinkDevice>(
    device: &mut D,
    n: usize,
    into: &mut [u8; MAX_MESSAGE],
) -> Result<(), DeviceFault>
    requires count { n ≡ length (D.state device.old).held }
    requires most { n ≤ most_message_bytes }
    ensures settings { SameDevice (D.state device.old) (D.state device.new) }
    ensures rises { (D.state device.new).faults ≡ (D.state device.old).faults + failures result }
    ensures bytes { OnOk result (take n into.new ≡ (D.state device.old).held) }
    ensures cause { IfErr result (HasCause (D.state device.old) ⊥) }
{
    if n == 0 {
        return Ok(());
    }
    device.receive(&mut into[..n])
}

/// Receives the trace of a packet that was run, where that is no more than a trace may have: of this many bytes.
fn receive_trace<D: LinkDevice>(
    links: &mut Links<D>,
    into: &mut [u8; MAX_MESSAGE],
) -> Result<usize, LinkFault>
    ensures settings { SameSettings (devices_of D.state links.old) (devices_of D.state links.new) }
    ensures rises { RisesIn result (devices_of D.state links.old) (devices_of D.state links.new) }
    ensures bytes { IfOk result (λ n. take n into.new ≡ (D.state links.old.trace).held) }
    ensures most { IfOk result (λ n. n ≤ most_trace) }
    ensures reason { (image : ImageValue) (packet : List ℕ) → HasTraced image packet (D.state links.old.trace).held →
        IfErr result (HasReason image packet (devices_of D.state links.old)) }
{
    let n = links.trace.held();
    if n > MAX_MESSAGE {
        return Err(LinkFault {
            link: Link::Trace,
            code: DeviceFault::Full,
        });
    }
    of_link(Link::Trace, receive_held(&mut links.trace, n, into))?;
    Ok(n)
}

/// Runs the worker on the packet of a number, over the member's devices: they are emptied, the packet is sent to the
/// source, the worker runs, and the result and the trace are received. The first refusal ends it. A trace of more than
/// 256 bytes is refused as K2 of the trace.
// Inlined, as what makes a `Done` is: else each packet's result is copied on its way to where it is filed.
#[tactic(auto, using(crate::proofs::Refusals::same_reason))]
#[inline(always)]
pub(crate) fn handle<D: LinkDevice>(
    machine: &mut Machine,
    job: &Job<'_>,
    number: u32,
    packet: &Packet,
    links: &mut Links<D>,
    received: &mut Received,
) -> Result<Done, LinkFault>
    requires packet { slice_get (value_of_job job.now).packets number ≡ Some packet.now.items }
    requires length { length packet.now.items ≡ 4 * job.now.image.now.image.packet }
    ensures settings { SameSettings (devices_of D.state links.old) (devices_of D.state links.new) }
    ensures rises { RisesIn result (devices_of D.state links.old) (devices_of D.state links.new) }
    ensures done { IfOk result (IsResult (value_of_job job.now) number) }
    ensures reason { IfErr result (HasReason job.now.image.now.image packet.now.items (devices_of D.state links.old)) }
{
    prepare(packet, links)?;
    let outcome = run_on(machine, job.image, links)?;
    let n = job.image.result_bytes();
    let answer = receive_held(&mut links.sink, n, &mut received.result);
    of_link(Link::Sink, answer)?;
    let traced = receive_trace(links, &mut received.trace)?;
    Ok(Done::from_slices(
        job.batch,
        job.image.image(),
        number,
        packet,
        &received.result[..n],
        outcome.error,
        outcome.steps,
        &received.trace[..traced],
    ))
}
