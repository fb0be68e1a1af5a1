ghost use Rattle.std.specs.Prelude.{◌≡◌, ◌≤◌, ◌<◌, length, drop, vec_len, vec_capacity, All, IfOk, false};
ghost use Rattle.tp_link.specs.Device.{plain_send, plain_receive, held_after_send, held_after_receive, received};
ghost use Rattle.tp_link.specs.Medium.{empty_medium, with_bytes, wired, unwired, faultless_device};

use crate::device::DeviceFault;
use std::alloc::{AllocError, Global};
use std::marker::Model;

/// The far end of a device: bytes, first in first out, up to a room in bytes.
///
/// It also keeps whether the device to it is open and, as its end mark, whether that device has
/// ended: both can be seen after the device.
#[derive(Drop)]
pub struct Medium {
    bytes: Vec<u8>,
    room: usize,
    opened: bool,
    ended: bool,
}

impl Model for Medium {
    ghost use Rattle.std.specs.Prelude.{◌≤◌, vec_len, vec_capacity};
    ghost use Rattle.tp_link.specs.Medium.{MediumState};

    ghost Value = { MediumState };

    ghost view = { λ m. record { bytes = m.bytes.items; room = m.room; opened = m.opened; ended = m.ended } };

    ghost invariant = { λ m. (vec_len m.bytes ≤ m.room) × (m.room ≤ vec_capacity m.bytes) };
}

/// Takes out the first n bytes. Mostly these are all, and then none is moved.
fn take_out(bytes: &mut Vec<u8>, n: usize)
    requires { n ≤ vec_len bytes.old }
    ensures bytes { bytes.new.items ≡ drop n bytes.old.items }
    ensures capacity { vec_capacity bytes.new ≡ vec_capacity bytes.old }
{
    if n == bytes.len() {
        bytes.clear();
    } else {
        bytes.drain(..n);
    }
}

impl Medium {
    /// An empty medium that no device leads to yet. It reserves `room` bytes, so that no device
    /// needs memory for them.
    pub fn new(alloc: Global, room: usize) -> Result<Medium, AllocError>
        ensures { IfOk result (λ m. m ≡ empty_medium room) }
    {
        let bytes = Vec::with_capacity(alloc, room)?;
        Ok(Medium {
            bytes,
            room,
            opened: false,
            ended: false,
        })
    }

    /// The bytes that it holds, oldest first.
    pub fn bytes(&self) -> &[u8]
        ensures { result.now ≡ self.now.bytes }
    {
        self.bytes.as_slice()
    }

    /// Its end mark: whether the last device to it has ended.
    pub fn ended(&self) -> bool
        ensures { result ≡ self.now.ended }
    {
        self.ended
    }

    pub(crate) fn held(&self) -> usize
        ensures count { result ≡ length self.now.bytes }
        ensures within { result ≤ self.now.room }
        ensures bytes { All (λ byte. byte < 256) self.now.bytes }
    {
        let bytes = self.bytes.as_slice();
        bytes.len()
    }

    pub(crate) fn room(&self) -> usize
        ensures { result ≡ self.now.room }
    {
        self.room
    }

    pub(crate) fn is_open(&self) -> bool
        ensures { result ≡ self.now.opened }
    {
        self.opened
    }

    /// A new device leads to the medium.
    pub(crate) fn attach(&mut self)
        ensures { self.new ≡ wired self.old }
    {
        self.opened = true;
        self.ended = false;
    }

    pub(crate) fn close(&mut self)
        ensures { self.new ≡ record self.old { opened = false } }
    {
        self.opened = false;
    }

    /// The device to the medium ends.
    pub(crate) fn end(&mut self)
        ensures { self.new ≡ unwired self.old }
    {
        self.close();
        self.ended = true;
    }

    /// A send by a device that does not fail in it.
    pub(crate) fn send(&mut self, more: &[u8]) -> Result<(), DeviceFault>
        ensures medium { self.new ≡ with_bytes self.old (held_after_send result self.old.bytes more.now) }
        ensures answer { result ≡ plain_send (faultless_device self.old) more.now }
    {
        if !self.opened {
            return Err(DeviceFault::Closed);
        }
        if self.room - self.bytes.len() < more.len() {
            return Err(DeviceFault::Full);
        }
        self.bytes.extend_from_slice(more).unwrap();
        Ok(())
    }

    /// A receive by a device that does not fail in it.
    pub(crate) fn receive(&mut self, into: &mut [u8]) -> Result<(), DeviceFault>
        ensures medium { self.new
            ≡ with_bytes self.old (held_after_receive result self.old.bytes (length into.old)) }
        ensures into { into.new ≡ received (faultless_device self.old) into.old result }
        ensures answer { result ≡ plain_receive (faultless_device self.old) (length into.old) }
    {
        if !self.opened {
            return Err(DeviceFault::Closed);
        }
        if self.bytes.len() < into.len() {
            return Err(DeviceFault::Short);
        }
        into.copy_from_slice(&self.bytes[..into.len()]);
        take_out(&mut self.bytes, into.len());
        Ok(())
    }
}
