//! The instructions that move messages, and the end: each effect is that of the instruction table.
#![tactic(auto, using(tp_words::proofs::Casts::casts), unfolding(tp_step::specs::Effects::effect))]

ghost use Rattle.std.specs.Prelude.{◌≡◌, ◌+◌, ◌-◌, ◌*◌, ◌==◌, ◌≤◌, ◌<◌, ◌&&◌, true, if◌then◌else◌, Some, None, Ok};
ghost use Rattle.std.specs.Prelude.{take, drop, MatchResult};
ghost use Rattle.tp_decode.specs.declared.instr.Instr.TheVariants.{Input, Output, MoveBytes};
ghost use Rattle.tp_link.specs.Device.{after_receive, MayAnswerReceive};
ghost use Rattle.tp_step.specs.Memory.{bytes_at, with_bytes};
ghost use Rattle.tp_step.specs.State.{mem_start};
ghost use Rattle.tp_step.specs.Effects.{effect, is_trace, link0_output, link0_input, may_move, has_move};
ghost use Rattle.tp_outcome.specs.Devices.{devices_of};
ghost use Rattle.tpw_machine.specs.Phases.{phase_number};

use crate::machine::Machine;
use crate::phase::Phase;
use crate::places::in_workspace;
use crate::turn::Turn;
use tp_image::Image;
use tp_link::{DeviceFault, Link, LinkDevice, LinkFault, Links};
use tp_step::profile::{
    LINK0_INPUT, LINK0_OUTPUT, LINK1_OUTPUT, MAX_MOVE_BYTES, MAX_TRACE_BYTES, MEM_START, has_move,
};

/// Whether these are the channel and the length of a trace message.
fn is_trace(channel: u32, n: u32) -> bool
    ensures value { result ≡ is_trace channel n }
    ensures some { result ≡ true → 0 < n }
{
    channel == LINK1_OUTPUT && n % 4 == 0 && 4 <= n && n <= MAX_TRACE_BYTES
}

/// Whether these are the channel and the length of the packet, in its phase.
fn is_packet(image: &Image, channel: u32, n: u32, phase: Phase) -> bool
    ensures value { result ≡ ((channel == link0_input) && (n == 4 * image.now.packet) && (phase_number phase == 0)) }
    ensures some { result ≡ true → 0 < n }
{
    channel == LINK0_INPUT
        && u64::from(n) == 4 * u64::from(image.packet)
        && phase == Phase::BeforePacket
}

/// Whether these are the channel and the length of the result, in its phase.
fn is_result(image: &Image, channel: u32, n: u32, phase: Phase) -> bool
    ensures value { result ≡ ((channel == link0_output) && (n == 4 * image.now.result) && (phase_number phase == 1)) }
    ensures some { result ≡ true → 0 < n }
{
    channel == LINK0_OUTPUT
        && u64::from(n) == 4 * u64::from(image.result)
        && phase == Phase::BeforeResult
}

/// Whether n bytes may be moved.
fn may_move(image: &Image, n: u32, target: u32, source: u32) -> bool
    ensures value { result ≡ (has_move image.now.version && may_move image.now n target source) }
    ensures target_low { result ≡ true → mem_start ≤ target }
    ensures target_high { result ≡ true → target + n ≤ mem_start + 2048 }
    ensures source_low { result ≡ true → mem_start ≤ source }
    ensures source_high { result ≡ true → source + n ≤ mem_start + 2048 }
{
    has_move(image)
        && n % 4 == 0
        && 4 <= n
        && n <= MAX_MOVE_BYTES
        && in_workspace(image, target, n)
        && in_workspace(image, source, n)
        && (target + n <= source || source + n <= target)
}

/// A call of this link's device was refused.
fn refused(link: Link, code: DeviceFault) -> Turn
    ensures { result ≡ Turn.Refused record { link = link; code = code } }
{
    Turn::Refused(LinkFault { link, code })
}

impl Machine {
    ghost use Rattle.tpw_machine.specs.Meaning.{state_of, Made, Turned, memory_in};

    /// Whether the n bytes from an address of the workspace on are all defined.
    pub(crate) fn is_defined(&self, a: u32, n: u32) -> bool
        requires low { mem_start ≤ a }
        requires high { a + n ≤ mem_start + 2048 }
        ensures { bytes_at (memory_in self.now) a n ≡
            (if result then Some (take n (drop (a - mem_start) self.now.bytes)) else None) }
    {
        let i = (a - MEM_START) as usize;
        let tags = &self.defined[i..i + n as usize];
        for tag in tags {
            if !*tag {
                return false;
            }
        }
        true
    }

    /// Receives n bytes into the workspace, from an address on.
    pub(crate) fn receive<D: LinkDevice>(
        &mut self,
        device: &mut D,
        a: u32,
        n: u32,
    ) -> Result<(), DeviceFault>
        requires low { mem_start ≤ a }
        requires high { a + n ≤ mem_start + 2048 }
        ensures rest { self.new ≡ record self.old { bytes = self.new.bytes; defined = self.new.defined } }
        ensures device { D.state device.new ≡ after_receive (D.state device.old) n result }
        ensures answer { MayAnswerReceive (D.state device.old) n result }
        ensures memory { MatchResult result
            (λ _. memory_in self.new ≡ with_bytes (memory_in self.old) a (take n (D.state device.old).held))
            (λ _. memory_in self.new ≡ memory_in self.old) }
    {
        let i = (a - MEM_START) as usize;
        let end = i + n as usize;
        device.receive(&mut self.bytes[i..end])?;
        self.defined[i..end].fill(true);
        Ok(())
    }

    /// move, move message
    pub(crate) fn move_bytes(&mut self, image: &Image) -> bool
        ensures { Made (effect image.now MoveBytes) (state_of self.old) (state_of self.new) result }
    {
        let (Some(n), Some(target), Some(source)) = (self.areg, self.breg, self.creg) else {
            return false;
        };
        if !may_move(image, n, target, source) || !self.is_defined(source, n) {
            return false;
        }
        self.copy(target, source, n);
        self.lose_registers();
        true
    }

    /// Copies n bytes of the workspace.
    fn copy(&mut self, target: u32, source: u32, n: u32)
        requires target_low { mem_start ≤ target }
        requires target_high { target + n ≤ mem_start + 2048 }
        requires source_low { mem_start ≤ source }
        requires source_high { source + n ≤ mem_start + 2048 }
        ensures rest { self.new ≡ record self.old { bytes = self.new.bytes; defined = self.new.defined } }
        ensures memory { memory_in self.new ≡
            with_bytes (memory_in self.old) target (take n (drop (source - mem_start) self.old.bytes)) }
    {
        let from = (source - MEM_START) as usize;
        let to = (target - MEM_START) as usize;
        let n = n as usize;
        self.bytes.copy_within(from..from + n, to);
        self.defined[to..to + n].fill(true);
    }

    /// in, input message
    pub(crate) fn input<D: LinkDevice>(
        &mut self,
        image: &Image,
        links: &mut Links<D>,
        phase: &mut Phase,
    ) -> Turn
        ensures { Turned image.now (effect image.now Input) (state_of self.old) (state_of self.new) phase.old phase.new
            (devices_of D.state links.old)
            (devices_of D.state links.new) result }
    {
        let (Some(n), Some(channel), Some(target)) = (self.areg, self.breg, self.creg) else {
            return Turn::Stuck;
        };
        if !is_packet(image, channel, n, *phase)
            || !in_workspace(image, target, n)
            || !self.may_deschedule(image)
        {
            return Turn::Stuck;
        }
        match self.receive(&mut links.source, target, n) {
            Ok(()) => {
                self.lose_below();
                *phase = Phase::BeforeResult;
                Turn::Made
            }
            Err(code) => refused(Link::Source, code),
        }
    }

    /// out, output message
    pub(crate) fn output<D: LinkDevice>(
        &mut self,
        image: &Image,
        links: &mut Links<D>,
        phase: &mut Phase,
    ) -> Turn
        ensures { Turned image.now (effect image.now Output) (state_of self.old) (state_of self.new) phase.old phase.new
            (devices_of D.state links.old)
            (devices_of D.state links.new) result }
    {
        let (Some(n), Some(channel), Some(source)) = (self.areg, self.breg, self.creg) else {
            return Turn::Stuck;
        };
        if !in_workspace(image, source, n)
            || !self.deschedule(image)
            || !self.is_defined(source, n)
        {
            return Turn::Stuck;
        }
        let i = (source - MEM_START) as usize;
        let message = &self.bytes[i..i + n as usize];
        if is_result(image, channel, n, *phase) {
            return match links.sink.send(message) {
                Ok(()) => {
                    *phase = Phase::AfterResult;
                    Turn::Made
                }
                Err(code) => refused(Link::Sink, code),
            };
        }
        if !is_trace(channel, n) {
            return Turn::Stuck;
        }
        match links.trace.send(message) {
            Ok(()) => Turn::Made,
            Err(code) => refused(Link::Trace, code),
        }
    }
}
