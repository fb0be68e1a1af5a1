ghost use Rattle.std.specs.Prelude.{◌≡◌, ◌≤◌};
ghost use Rattle.tp_link.specs.Medium.{wired, unwired};

use crate::device::{DeviceFault, LinkDevice};
use crate::medium::Medium;

/// A wire that fails once: in a given call of send or receive.
pub struct FaultyWire<'a> {
    medium: &'a mut Medium,
    failing_call: u64,
    calls: u64,
    ghost counted: { calls ≤ failing_call },
}

impl<'a> FaultyWire<'a> {
    ghost use Rattle.tp_link.specs.FaultyWire.{medium_of, loan_of, plan_of, new_plan, fails_next, after_call};

    /// An open wire that fails in its call number `failing_call` of send or receive, counted from
    /// 1 over both, and in no call where that is 0. The medium keeps its bytes, and its end mark is
    /// cleared.
    pub fn new(medium: &'a mut Medium, failing_call: u64) -> FaultyWire<'a>
        ensures medium { medium_of result ≡ wired medium.old }
        ensures plan { plan_of result ≡ new_plan failing_call }
        ensures same_loan { loan_of result ≡ medium.entry.ghost_name }
    {
        medium.attach();
        FaultyWire {
            medium,
            failing_call,
            calls: 0,
        }
    }

    /// Counts a call, no further than the failing one, and says whether it is that one.
    fn count_call(&mut self) -> bool
        ensures failing { result ≡ fails_next (plan_of self.old) }
        ensures plan { plan_of self.new ≡ after_call (plan_of self.old) }
        ensures medium { medium_of self.new ≡ medium_of self.old }
        ensures same_loan { loan_of self.new ≡ loan_of self.old }
    {
        if self.calls < self.failing_call {
            self.calls += 1;
            return self.calls == self.failing_call;
        }
        false
    }
}

impl<'a> Drop for FaultyWire<'a> {
    ghost use Rattle.tp_link.specs.FaultyWire.{medium_of};

    fn drop(self)
        ensures { self.exit.0.now ≡ unwired (medium_of self.entry) }
    {
        let FaultyWire {
            medium,
            failing_call: _,
            calls: _,
        } = self;
        medium.end();
    }
}

impl<'a> LinkDevice for FaultyWire<'a> {
    ghost use Rattle.std.specs.Prelude.{length};
    ghost use Rattle.tp_link.specs.Device.{after_send, after_receive, after_close, received, MayAnswerSend};
    ghost use Rattle.tp_link.specs.Device.{MayAnswerReceive};
    ghost use Rattle.tp_link.specs.FaultyWire.{device_of, loan_of, plan_of, FollowsPlan};

    ghost state = { device_of };

    fn send(&mut self, bytes: &[u8]) -> Result<(), DeviceFault>
        ensures state { device_of self.new ≡ after_send (device_of self.old) bytes.now result }
        ensures answer { MayAnswerSend (device_of self.old) bytes.now result }
        ensures plan { FollowsPlan (plan_of self.old) result (plan_of self.new) }
        ensures same_loan { loan_of self.new ≡ loan_of self.old }
    {
        if self.count_call() {
            return Err(DeviceFault::Failed);
        }
        self.medium.send(bytes)
    }

    fn receive(&mut self, into: &mut [u8]) -> Result<(), DeviceFault>
        ensures state { device_of self.new ≡ after_receive (device_of self.old) (length into.old) result }
        ensures into { into.new ≡ received (device_of self.old) into.old result }
        ensures answer { MayAnswerReceive (device_of self.old) (length into.old) result }
        ensures plan { FollowsPlan (plan_of self.old) result (plan_of self.new) }
        ensures same_loan { loan_of self.new ≡ loan_of self.old }
    {
        if self.count_call() {
            return Err(DeviceFault::Failed);
        }
        self.medium.receive(into)
    }

    fn held(&self) -> usize {
        self.medium.held()
    }

    fn room(&self) -> usize {
        self.medium.room()
    }

    fn is_open(&self) -> bool {
        self.medium.is_open()
    }

    fn faults(&self) -> u64 {
        if self.failing_call != 0 && self.calls == self.failing_call {
            1
        } else {
            0
        }
    }

    fn close(&mut self)
        ensures state { device_of self.new ≡ after_close (device_of self.old) }
        ensures plan { plan_of self.new ≡ plan_of self.old }
        ensures same_loan { loan_of self.new ≡ loan_of self.old }
    {
        self.medium.close();
    }
}
