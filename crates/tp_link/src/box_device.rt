//! A box of a device is that device.
use crate::device::{DeviceFault, LinkDevice};

impl<D: LinkDevice> LinkDevice for Box<D> {
    ghost state = { λ b. D.state b.value };

    fn send(&mut self, bytes: &[u8]) -> Result<(), DeviceFault> {
        (**self).send(bytes)
    }

    fn receive(&mut self, into: &mut [u8]) -> Result<(), DeviceFault> {
        (**self).receive(into)
    }

    fn held(&self) -> usize {
        (**self).held()
    }

    fn room(&self) -> usize {
        (**self).room()
    }

    fn is_open(&self) -> bool {
        (**self).is_open()
    }

    fn faults(&self) -> u64 {
        (**self).faults()
    }

    fn close(&mut self) {
        (**self).close();
    }
}
