//! Runs.

ghost use Rattle.tp_outcome.specs.Devices.{devices_of};
ghost use Rattle.tpw_machine.specs.Answers.{Answered};
ghost use Rattle.tpw_machine.specs.Resuming.{nothing_sent, Resumed, LeavesMachine};

use crate::fault::RunFault;
use crate::machine::Machine;
use crate::phase::Phase;
use crate::turn::Turn;
use crate::words::low_address;
use tp_image::Image;
use tp_link::{LinkDevice, Links};
use tp_outcome::Outcome;

impl Machine {
    ghost use Rattle.tpw_machine.specs.Meaning.{state_of};

    /// Runs one packet, from the image's start, whatever ran before, to the worker's end.
    ///
    /// The packet is received from the source; a message on link 0 is sent to the sink, and one on link 1 to the trace.
    /// Where a device refuses a call the run ends with that fault, and earlier messages stay sent. No more than `limit`
    /// instruction bytes are executed. After an outcome, and at the limit, the machine is where the steps have led.
    pub fn run_image<D: LinkDevice>(
        &mut self,
        image: &Image,
        links: &mut Links<D>,
        limit: u32,
    ) -> Result<Outcome, RunFault>
        ensures answered { Answered image.now limit
            (devices_of D.state links.old)
            (devices_of D.state links.new) result }
        ensures stands { LeavesMachine image.now limit
            (devices_of D.state links.old)
            (devices_of D.state links.new) self.new result }
    {
        self.start(image);
        let mut phase = Phase::BeforePacket;
        self.resume(image, links, &mut phase, limit)
    }

    /// Goes on from where the machine is, with the worker in this phase. A debugger or a test uses it, which has set
    /// the registers and the workspace; [`Machine::run_image`] is this from an image's start.
    ///
    /// Devices, faults and the limit are as in [`Machine::run_image`], counted from here. After an
    /// outcome, and at the limit, the machine and the phase are where the steps have led. After another fault they are
    /// left between two states.
    pub fn resume<D: LinkDevice>(
        &mut self,
        image: &Image,
        links: &mut Links<D>,
        phase: &mut Phase,
        limit: u32,
    ) -> Result<Outcome, RunFault>
        ensures { Resumed image.now
            (state_of self.old (nothing_sent image.now phase.old (D.state links.old.source))) limit
            (devices_of D.state links.old)
            (devices_of D.state links.new)
            self.new phase.new result }
    {
        for steps in 0..limit {
            if let Phase::Stopped = *phase {
                return Ok(Outcome {
                    error: self.error,
                    steps,
                });
            }
            let at = self.iptr;
            match self.step(image, links, phase) {
                Turn::Made => {}
                Turn::Stuck => return Err(RunFault::Stuck(low_address(at))),
                Turn::Refused(fault) => return Err(RunFault::Link(fault)),
            }
        }
        if let Phase::Stopped = *phase {
            Ok(Outcome {
                error: self.error,
                steps: limit,
            })
        } else {
            Err(RunFault::Limit)
        }
    }
}
