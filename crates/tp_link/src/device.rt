//! Link devices, and what their author keeps.
//!
//! To its callers a device is a `DeviceState` (`specs/Device.antt`): the bytes that it holds,
//! oldest first, its room in bytes, whether it is open, how often it has failed, and whether it can fail.
//! The ghost member `state` of an impl reads this meaning from the device's own fields. The clauses
//! of [`LinkDevice`] say what each call does to the meaning and what it answers, and the check
//! proves them of each impl. So the author keeps these rules, and a caller needs no others:
//!
//! - The room and whether the device can fail are settled when it is made. It never holds more
//!   bytes than its room. To contracts its bytes are numbers, each below 256, as `held` says.
//! - `send` and `receive` refuse in this order: a failure ([`DeviceFault::Failed`]), a closed
//!   device ([`DeviceFault::Closed`]), and then bytes above the room ([`DeviceFault::Full`]) or
//!   fewer bytes held than asked for ([`DeviceFault::Short`]). Else they succeed.
//! - A failure adds one to the count of faults, and nothing else changes the count. A device whose
//!   count is 2^64 - 1 fails no more, and one that cannot fail never does.
//! - A refused call leaves the held bytes and the caller's buffer as they were: no part of a
//!   message is moved.
//! - `close` keeps the held bytes, and nothing opens the device again.
//! - No call takes memory. A device reserves what it needs when it is made, as a
//!   [`Medium`](crate::Medium) does.
//!
//! One rule no clause of the trait can state, since a device is gone after its `drop`: the `drop`
//! leaves what the device leads to closed, marked as ended, and with the bytes that were held.
//! Where a clause of the `drop` can see that, it says so, as that of [`Wire`](crate::Wire) does.
//!
//! An example is a latch, which holds one byte at most. While it is jammed it fails in each call,
//! until its count can rise no further. (`test_base/src/latch.rt` has the whole of it.)
//!
//! ```text
//! impl LinkDevice for Latch {
//!     ghost state = {
//!         λ d. record {
//!             held = option_map_or (λ b. b ∷ []) d.byte [];
//!             room = 1;
//!             opened = d.opened;
//!             faults = d.faults;
//!             fallible = true
//!         }
//!     };
//!
//!     fn send(&mut self, bytes: &[u8]) -> Result<(), DeviceFault> {
//!         if self.faults < u64::MAX && self.jammed {
//!             self.faults += 1;
//!             return Err(DeviceFault::Failed);
//!         }
//!         if !self.opened {
//!             return Err(DeviceFault::Closed);
//!         }
//!         match bytes {
//!             [] => Ok(()),
//!             [byte] if self.byte.is_none() => {
//!                 self.byte = Some(*byte);
//!                 Ok(())
//!             }
//!             _ => Err(DeviceFault::Full),
//!         }
//!     }
//!     ..
//! }
//! ```
ghost use Rattle.std.specs.Prelude.{◌≡◌, ◌≤◌, ◌<◌, length, All};
ghost use Rattle.tp_link.specs.Device.{DeviceState, after_send, after_receive, after_close, received};
ghost use Rattle.tp_link.specs.Device.{MayAnswerSend, MayAnswerReceive};

use thiserror::Error;

/// Why a device refused a send or a receive: the first that holds of K4, K1, and K2 or K3. It prints as that code.
#[derive(Clone, Copy, Debug, PartialEq, Eq, Error)]
pub enum DeviceFault {
    /// K1: the device is closed.
    #[error("K1")]
    Closed,
    /// K2: the bytes that it holds and those to be sent are more than its room.
    #[error("K2")]
    Full,
    /// K3: it holds fewer bytes than were asked for.
    #[error("K3")]
    Short,
    /// K4: it failed in this call.
    #[error("K4")]
    Failed,
}

/// A place that bytes are sent to and received from, first in first out.
pub trait LinkDevice: Drop {
    // What the device means to its callers, read from its own fields.
    ghost state: { Self → DeviceState };

    /// Appends all bytes to those that are held, or none.
    fn send(&mut self, bytes: &[u8]) -> Result<(), DeviceFault>
        ensures state { state self.new ≡ after_send (state self.old) bytes.now result }
        ensures answer { MayAnswerSend (state self.old) bytes.now result };

    /// Moves the first held bytes into `into` and fills it, or moves none.
    fn receive(&mut self, into: &mut [u8]) -> Result<(), DeviceFault>
        ensures state { state self.new ≡ after_receive (state self.old) (length into.old) result }
        ensures into { into.new ≡ received (state self.old) into.old result }
        ensures answer { MayAnswerReceive (state self.old) (length into.old) result };

    /// The number of bytes held.
    fn held(&self) -> usize
        ensures count { result ≡ length (state self.now).held }
        ensures within { result ≤ (state self.now).room }
        ensures bytes { All (λ byte. byte < 256) (state self.now).held };

    /// The most bytes that it can hold, the same for as long as it lives.
    fn room(&self) -> usize
        ensures { result ≡ (state self.now).room };

    /// Whether it is open. A closed device refuses each send and receive.
    fn is_open(&self) -> bool
        ensures { result ≡ (state self.now).opened };

    /// How often it has failed, from 0 to 2^64 - 1.
    fn faults(&self) -> u64
        ensures { result ≡ (state self.now).faults };

    /// Closes the device for good. What it holds stays.
    fn close(&mut self)
        ensures { state self.new ≡ after_close (state self.old) };
}
