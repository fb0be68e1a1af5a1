//! Workers.

use crate::kind::Kind;
use crate::process::{Message, Process};

/// An array at first.
#[derive(Drop)]
pub enum Storage {
    /// This many bytes, which are 0.
    Zeros(u32),
    /// These bytes: a table.
    Table(Vec<u8>),
}

impl Storage {
    /// How many bytes there are. More than a number of 32 bits can say are taken for the most that it can.
    pub fn bytes(&self) -> u32 {
        match self {
            Storage::Zeros(count) => *count,
            Storage::Table(bytes) => u32::try_from(bytes.len()).unwrap_or(u32::MAX),
        }
    }
}

/// Where the packet goes.
#[derive(Clone, Copy, Debug, PartialEq, Eq)]
pub enum Place {
    Variable(usize),
    Array(usize),
}

/// A worker: the kind of each variable, by its number, each array likewise, and what is done.
#[derive(Drop)]
pub struct Worker {
    pub variables: Vec<Kind>,
    pub arrays: Vec<Storage>,
    /// The variables that are declared for the whole worker.
    pub global_variables: Vec<usize>,
    /// The arrays that are declared for the whole worker, tables among them.
    pub global_arrays: Vec<usize>,
    pub receive: Place,
    pub body: Process,
    pub send: Message,
    /// The line of the text that receives the packet.
    pub receive_line: u32,
    /// The line of the text that sends the result.
    pub send_line: u32,
}
