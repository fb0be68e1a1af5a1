//! Messages.

ghost use Rattle.std.specs.Prelude.{◌≡◌, ◌+◌, ◌-◌, ◌≤◌, ◌⊎◌, MatchResult, take, drop};
ghost use Rattle.tp_decode.specs.declared.instr.Instr.TheVariants.{Input, Output, MoveBytes};
ghost use Rattle.tp_link.specs.Device.{after_receive, MayAnswerReceive};
ghost use Rattle.tp_outcome.specs.Devices.{devices_of};
ghost use Rattle.tp_step.specs.Effects.{effect};
ghost use Rattle.tp_step.specs.State.{mem_start};
ghost use Rattle.tp_machine.specs.Bytes.{put};
ghost use Rattle.tp_machine.specs.Representation.{HasEffect, Simulates};
ghost use Rattle.tp_machine.specs.Turning.{CanTurn, Turned};

use crate::registers::Registers;
use crate::turn::Turn;
use tp_link::{DeviceFault, Link, LinkDevice, LinkFault, Links};
use tp_step::profile::{LINK0_OUTPUT, MEM_START};

/// Receives n bytes into the workspace, from an address on.
fn receive<D: LinkDevice>(
    workspace: &mut [u8; 2048],
    device: &mut D,
    a: u32,
    n: u32,
) -> Result<(), DeviceFault>
    requires low { mem_start ≤ a }
    requires high { a + n ≤ mem_start + 2048 }
    ensures device { D.state device.new ≡ after_receive (D.state device.old) n result }
    ensures answer { MayAnswerReceive (D.state device.old) n result }
    ensures bytes { MatchResult result
        (λ _. workspace.new ≡ put workspace.old (a - mem_start) (take n (D.state device.old).held))
        (λ _. workspace.new ≡ workspace.old) }
{
    let i = (a - MEM_START) as usize;
    device.receive(&mut workspace[i..i + n as usize])
}

/// The n bytes from an address on.
fn message(workspace: &[u8; 2048], a: u32, n: u32) -> &[u8]
    requires low { mem_start ≤ a }
    requires high { a + n ≤ mem_start + 2048 }
    ensures { result.now ≡ take n (drop (a - mem_start) workspace.now) }
{
    let i = (a - MEM_START) as usize;
    &workspace[i..i + n as usize]
}

/// Copies n bytes of the workspace to others that lie apart from them.
#[inline(never)]
fn copy(workspace: &mut [u8; 2048], target: u32, source: u32, n: u32)
    requires target_low { mem_start ≤ target }
    requires target_high { target + n ≤ mem_start + 2048 }
    requires source_low { mem_start ≤ source }
    requires source_high { source + n ≤ mem_start + 2048 }
    requires apart { (target + n ≤ source) ⊎ (source + n ≤ target) }
    ensures { workspace.new ≡
        put workspace.old (target - mem_start) (take n (drop (source - mem_start) workspace.old)) }
{
    let from = (source - MEM_START) as usize;
    let to = (target - MEM_START) as usize;
    let count = n as usize;
    if to < from {
        let (low, high) = workspace.split_at_mut(from);
        low[to..to + count].copy_from_slice(&high[..count]);
    } else {
        let (low, high) = workspace.split_at_mut(to);
        high[..count].copy_from_slice(&low[from..from + count]);
    }
}

impl Registers {
    /// move, move message
    #[inline(always)]
    pub(crate) fn move_bytes(self, workspace: &mut [u8; 2048])
        requires { HasEffect MoveBytes self workspace.old }
        ensures { Simulates MoveBytes self self workspace.old workspace.new }
    {
        copy(workspace, self.b, self.c, self.a);
    }

    /// in, input message
    #[inline(never)]
    pub(crate) fn input<D: LinkDevice>(
        self,
        workspace: &mut [u8; 2048],
        links: &mut Links<D>,
    ) -> Turn
        requires { CanTurn (λ image. effect image Input) self workspace.old }
        ensures { Turned (λ image. effect image Input) self self workspace.old workspace.new
            (devices_of D.state links.old)
            (devices_of D.state links.new) result }
    {
        match receive(workspace, &mut links.source, self.c, self.a) {
            Ok(()) => Turn::Made,
            Err(code) => Turn::Refused(LinkFault {
                link: Link::Source,
                code,
            }),
        }
    }

    /// out, output message
    #[inline(never)]
    pub(crate) fn output<D: LinkDevice>(self, workspace: &[u8; 2048], links: &mut Links<D>) -> Turn
        requires { CanTurn (λ image. effect image Output) self workspace.now }
        ensures { Turned (λ image. effect image Output) self self workspace.now workspace.now
            (devices_of D.state links.old)
            (devices_of D.state links.new) result }
    {
        let message = message(workspace, self.c, self.a);
        if self.b == LINK0_OUTPUT {
            match links.sink.send(message) {
                Ok(()) => Turn::Made,
                Err(code) => Turn::Refused(LinkFault {
                    link: Link::Sink,
                    code,
                }),
            }
        } else {
            match links.trace.send(message) {
                Ok(()) => Turn::Made,
                Err(code) => Turn::Refused(LinkFault {
                    link: Link::Trace,
                    code,
                }),
            }
        }
    }
}
