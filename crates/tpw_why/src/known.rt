//! Abstract values of registers and words, as text.

use std::fmt;
use tp_image::LoopRow;
use tp_state::{Cell, Kind};

/// The abstract value of a register.
#[derive(Clone, Copy, Debug, PartialEq, Eq)]
pub struct KnownRegister(pub Kind);

impl fmt::Display for KnownRegister {
    fn fmt<W: fmt::Write>(&self, f: &mut fmt::Formatter<W>) -> fmt::Result {
        match self.0 {
            Kind::Undef => f.write_str("may be undefined"),
            Kind::Int(i32::MIN, i32::MAX) => f.write_str("any number"),
            Kind::Int(low, high) if low == high => write!(f, "the number {low}"),
            Kind::Int(low, high) => write!(f, "a number, {low} to {high}"),
            Kind::Ptr(first, last) if first == last => write!(f, "the address of word {first}"),
            Kind::Ptr(first, last) => write!(f, "the address of a word, {first} to {last}"),
            Kind::BytePtr(first, last) if first == last => write!(f, "the address of byte {first}"),
            Kind::BytePtr(first, last) => write!(f, "the address of a byte, {first} to {last}"),
        }
    }
}

/// The abstract value of a word.
#[derive(Clone, Copy, Debug, PartialEq, Eq)]
pub struct KnownWord(pub Cell);

impl fmt::Display for KnownWord {
    fn fmt<W: fmt::Write>(&self, f: &mut fmt::Formatter<W>) -> fmt::Result {
        match self.0 {
            Cell::Undef => f.write_str("may be undefined"),
            Cell::Any => f.write_str("any number"),
            Cell::Known(value) => write!(f, "{value}"),
            Cell::Index(row) => write!(f, "the index of the loop of row {row}"),
            Cell::Count(row) => write!(f, "the count of the loop of row {row}"),
        }
    }
}

/// The phase of a worker.
#[derive(Clone, Copy, Debug, PartialEq, Eq)]
pub struct KnownPhase(pub u8);

impl fmt::Display for KnownPhase {
    fn fmt<W: fmt::Write>(&self, f: &mut fmt::Formatter<W>) -> fmt::Result {
        f.write_str(match self.0 {
            0 => "phase 0, the packet is not received",
            1 => "phase 1, the packet is received and the result not sent",
            _ => "phase 2, the result is sent",
        })
    }
}

/// A loop row.
#[derive(Clone, Copy, Debug, PartialEq, Eq)]
pub struct ShownRow(pub LoopRow);

impl fmt::Display for ShownRow {
    fn fmt<W: fmt::Write>(&self, f: &mut fmt::Formatter<W>) -> fmt::Result {
        let LoopRow {
            head,
            lend,
            control,
            count,
            start,
        } = self.0;
        write!(
            f,
            "{head} to {lend}, control word {control}, {count} turns from {start}"
        )
    }
}
