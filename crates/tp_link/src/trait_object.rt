//! A box of any device that borrows nothing is that device.
use crate::device::{DeviceFault, LinkDevice};

impl LinkDevice for Box<dyn LinkDevice + Send> {
    ghost state = { λ b. (LinkDevice-box b).state b.value };

    fn send(&mut self, bytes: &[u8]) -> Result<(), DeviceFault> {
        (**self).send(bytes)
    }

    fn receive(&mut self, into: &mut [u8]) -> Result<(), DeviceFault> {
        (**self).receive(into)
    }

    fn held(&self) -> usize {
        (**self).held()
    }

    fn room(&self) -> usize {
        (**self).room()
    }

    fn is_open(&self) -> bool {
        (**self).is_open()
    }

    fn faults(&self) -> u64 {
        (**self).faults()
    }

    fn close(&mut self) {
        (**self).close();
    }
}
