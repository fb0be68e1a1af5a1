//! An example of a device, such as an author outside `tp_link` would write it.

use tp_link::{DeviceFault, LinkDevice};

/// A device that holds one byte at most. While it is jammed it fails in each call, until it can
/// count no more failures.
#[derive(Drop)]
pub struct Latch {
    pub byte: Option<u8>,
    pub opened: bool,
    pub jammed: bool,
    pub faults: u64,
}

impl LinkDevice for Latch {
    ghost use Rattle.std.specs.Prelude.{[], ◌∷◌, true};
    ghost use Rattle.std.specs.Option.{option_map_or};

    ghost state = { λ d. record {
      held = option_map_or (λ b. b ∷ []) d.byte [];
      room = 1;
      opened = d.opened;
      faults = d.faults;
      fallible = true;
    } };

    fn send(&mut self, bytes: &[u8]) -> Result<(), DeviceFault> {
        if self.faults < u64::MAX && self.jammed {
            self.faults += 1;
            return Err(DeviceFault::Failed);
        }
        if !self.opened {
            return Err(DeviceFault::Closed);
        }
        match bytes {
            [] => Ok(()),
            [byte] if self.byte.is_none() => {
                self.byte = Some(*byte);
                Ok(())
            }
            _ => Err(DeviceFault::Full),
        }
    }

    fn receive(&mut self, into: &mut [u8]) -> Result<(), DeviceFault> {
        if self.faults < u64::MAX && self.jammed {
            self.faults += 1;
            return Err(DeviceFault::Failed);
        }
        if !self.opened {
            return Err(DeviceFault::Closed);
        }
        if into.is_empty() {
            return Ok(());
        }
        match self.byte {
            Some(byte) if into.len() == 1 => {
                into[0] = byte;
                self.byte = None;
                Ok(())
            }
            _ => Err(DeviceFault::Short),
        }
    }

    fn held(&self) -> usize {
        match self.byte {
            Some(_byte) => 1,
            None => 0,
        }
    }

    fn room(&self) -> usize {
        1
    }

    fn is_open(&self) -> bool {
        self.opened
    }

    fn faults(&self) -> u64 {
        self.faults
    }

    fn close(&mut self) {
        self.opened = false;
    }
}
