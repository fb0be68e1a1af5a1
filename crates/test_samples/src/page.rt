//! A writer on the stack.

use std::io;
use std::io::Write;

/// A writer that takes no memory. It takes no more than 4096 bytes.
#[derive(Drop)]
pub struct Page {
    bytes: [u8; 4096],
    taken: usize,
}

impl Page {
    /// An empty page.
    pub fn new() -> Page {
        Page {
            bytes: [0; 4096],
            taken: 0,
        }
    }

    /// Takes as much of some bytes as it has room for.
    pub fn push(&mut self, bytes: &[u8]) {
        let _ = self.write(bytes);
    }

    /// Takes the digits of some bytes, in small letters; nothing where it has no room for them.
    pub fn push_digits(&mut self, bytes: &[u8]) {
        let end = self.taken.saturating_add(bytes.len().saturating_mul(2));
        if let Some(room) = self.bytes.get_mut(self.taken..end)
            && hex::encode_to_slice(bytes, room).is_ok()
        {
            self.taken = end;
        }
    }

    /// The bytes written.
    pub fn written(&self) -> &[u8] {
        self.bytes.get(..self.taken).unwrap_or(&[])
    }
}

impl Write for Page {
    fn write(&mut self, buf: &[u8]) -> io::Result<usize> {
        let room = self.bytes.get_mut(self.taken..).unwrap_or(&mut []);
        let count = buf.len().min(room.len());
        room[..count].copy_from_slice(&buf[..count]);
        self.taken = self.taken.saturating_add(count);
        Ok(count)
    }

    fn flush(&mut self) -> io::Result<()> {
        Ok(())
    }
}
