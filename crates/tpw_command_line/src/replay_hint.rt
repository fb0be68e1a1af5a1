//! The command that follows a packet's run, ready to be copied.

use crate::packet_source::{Origin, PacketSource};
use std::fmt;
use tpw_files::{Input, Language};
use tpw_runs::Notation;

/// A word of a shell's command line, quoted where it has to be.
#[derive(Clone, Copy)]
struct Quoted<'a>(&'a str);

/// Whether a shell takes a byte as it is.
fn is_plain(byte: u8) -> bool {
    byte.is_ascii_alphanumeric() || matches!(byte, b'_' | b'.' | b'/' | b'=' | b'+' | b'-')
}

impl fmt::Display for Quoted<'_> {
    fn fmt<W: fmt::Write>(&self, f: &mut fmt::Formatter<W>) -> fmt::Result {
        if !self.0.is_empty() && self.0.bytes().all(|byte| is_plain(byte)) {
            return f.write_str(self.0);
        }
        f.write_str("'")?;
        for (i, part) in self.0.split('\'').enumerate() {
            if i > 0 {
                f.write_str("'\\''")?;
            }
            f.write_str(part)?;
        }
        f.write_str("'")
    }
}

/// The command that follows the packet of a number, of those that are asked for, on the worker of an input.
#[derive(Clone, Copy)]
pub struct ReplayHint<'a> {
    pub source: &'a PacketSource,
    pub input: &'a Input,
    pub language: Language,
    pub number: usize,
    pub packets: usize,
}

impl fmt::Display for ReplayHint<'_> {
    fn fmt<W: fmt::Write>(&self, f: &mut fmt::Formatter<W>) -> fmt::Result {
        f.write_str("tpw step")?;
        if self.source.notation == Notation::Hexadecimal {
            f.write_str(" --hex-packets")?;
        }
        match self.source.origin(self.number, self.packets) {
            Some(Origin::Words(words)) => {
                let words = Quoted(words);
                write!(f, " --words {words}")?;
            }
            Some(Origin::File(name, number)) => {
                let name = Quoted(name);
                write!(f, " --packets {name} --number {number}")?;
            }
            None => {}
        }
        if self.language != Language::of(self.input) {
            f.write_str(" --occam")?;
        }
        match self.input {
            Input::File(name) => {
                let name = Quoted(name.as_str());
                write!(f, " {name}")
            }
            Input::Standard => Ok(()),
        }
    }
}
