ghost use Rattle.std.specs.Prelude.{◌≡◌};
ghost use Rattle.tp_link.specs.Medium.{wired, unwired};

use crate::device::{DeviceFault, LinkDevice};
use crate::medium::Medium;

/// A device that leads to a medium, which it borrows, and never fails.
pub struct Wire<'a> {
    medium: &'a mut Medium,
}

impl<'a> Wire<'a> {
    ghost use Rattle.tp_link.specs.Wire.{medium_of, loan_of};

    /// An open wire. The medium keeps its bytes, and its end mark is cleared.
    pub fn new(medium: &'a mut Medium) -> Wire<'a>
        ensures medium { medium_of result ≡ wired medium.old }
        ensures same_loan { loan_of result ≡ medium.entry.ghost_name }
    {
        medium.attach();
        Wire { medium }
    }
}

impl<'a> Drop for Wire<'a> {
    ghost use Rattle.tp_link.specs.Wire.{medium_of};

    fn drop(self)
        ensures { self.exit.0.now ≡ unwired (medium_of self.entry) }
    {
        let Wire { medium } = self;
        medium.end();
    }
}

impl<'a> LinkDevice for Wire<'a> {
    ghost use Rattle.std.specs.Prelude.{length};
    ghost use Rattle.tp_link.specs.Device.{after_send, after_receive, after_close, received, MayAnswerSend};
    ghost use Rattle.tp_link.specs.Device.{MayAnswerReceive};
    ghost use Rattle.tp_link.specs.Wire.{device_of, loan_of};

    ghost state = { device_of };

    fn send(&mut self, bytes: &[u8]) -> Result<(), DeviceFault>
        ensures state { device_of self.new ≡ after_send (device_of self.old) bytes.now result }
        ensures answer { MayAnswerSend (device_of self.old) bytes.now result }
        ensures same_loan { loan_of self.new ≡ loan_of self.old }
    {
        self.medium.send(bytes)
    }

    fn receive(&mut self, into: &mut [u8]) -> Result<(), DeviceFault>
        ensures state { device_of self.new ≡ after_receive (device_of self.old) (length into.old) result }
        ensures into { into.new ≡ received (device_of self.old) into.old result }
        ensures answer { MayAnswerReceive (device_of self.old) (length into.old) result }
        ensures same_loan { loan_of self.new ≡ loan_of self.old }
    {
        self.medium.receive(into)
    }

    fn held(&self) -> usize {
        self.medium.held()
    }

    fn room(&self) -> usize {
        self.medium.room()
    }

    fn is_open(&self) -> bool {
        self.medium.is_open()
    }

    fn faults(&self) -> u64 {
        0
    }

    fn close(&mut self)
        ensures state { device_of self.new ≡ after_close (device_of self.old) }
        ensures same_loan { loan_of self.new ≡ loan_of self.old }
    {
        self.medium.close();
    }
}
