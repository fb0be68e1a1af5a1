ghost use Rattle.std.specs.Prelude.{◌≡◌, IfSome, IfOk, true, false};
ghost use Rattle.tp_link.specs.Medium.{wired, unwired};

use crate::device::{DeviceFault, LinkDevice};
use crate::medium::Medium;
use std::alloc::{AllocError, Global};
use std::sync::{Arc, OnceLock};

/// A medium whose wire has ended.
#[derive(Drop)]
struct Unwired {
    medium: Medium,
    ghost closed: { medium.opened ≡ false },
    ghost ended: { medium.ended ≡ true },
}

fn unwire(mut medium: Medium) -> Unwired
    ensures { result.medium ≡ unwired medium }
{
    medium.end();
    Unwired { medium }
}

/// Where the medium of an owned wire lies once the wire has ended.
#[derive(Drop)]
pub struct EndedMedium {
    place: Arc<OnceLock<Unwired>>,
}

impl EndedMedium {
    /// The medium, or `None` while its wire lives.
    pub fn get(&self) -> Option<&Medium>
        ensures closed { IfSome result (λ m. m.now.opened ≡ false) }
        ensures ended { IfSome result (λ m. m.now.ended ≡ true) }
    {
        match self.place.get() {
            Some(unwired) => Some(&unwired.medium),
            None => None,
        }
    }
}

/// A device that leads to a medium of its own and never fails.
///
/// It borrows nothing, so a `Box<dyn LinkDevice + Send>` may hold it.
pub struct OwnedWire {
    medium: Medium,
    place: Arc<OnceLock<Unwired>>,
}

impl OwnedWire {
    ghost use Rattle.tp_link.specs.OwnedWire.{medium_of};

    /// An open wire, and the place that its medium goes to when it ends. The medium keeps its
    /// bytes, and its end mark is cleared. Where memory is refused, the medium is dropped.
    pub fn new(alloc: Global, mut medium: Medium) -> Result<(OwnedWire, EndedMedium), AllocError>
        ensures { IfOk result (λ made. medium_of made.0 ≡ wired medium) }
    {
        let place = Arc::new(alloc, OnceLock::new())?;
        let ended = EndedMedium {
            place: Arc::try_clone(&place)?,
        };
        medium.attach();
        Ok((OwnedWire { medium, place }, ended))
    }
}

impl Drop for OwnedWire {
    fn drop(self) {
        let OwnedWire { medium, place } = self;
        let _ = place.try_set(unwire(medium));
    }
}

impl LinkDevice for OwnedWire {
    ghost use Rattle.tp_link.specs.OwnedWire.{device_of};

    ghost state = { device_of };

    fn send(&mut self, bytes: &[u8]) -> Result<(), DeviceFault> {
        self.medium.send(bytes)
    }

    fn receive(&mut self, into: &mut [u8]) -> Result<(), DeviceFault> {
        self.medium.receive(into)
    }

    fn held(&self) -> usize {
        self.medium.held()
    }

    fn room(&self) -> usize {
        self.medium.room()
    }

    fn is_open(&self) -> bool {
        self.medium.is_open()
    }

    fn faults(&self) -> u64 {
        0
    }

    fn close(&mut self) {
        self.medium.close();
    }
}
