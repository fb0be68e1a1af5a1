//! Why nothing is filed.

use std::error::Error;
use std::fmt;

/// Why a collector does not file what it is given: the first that holds of C3, C2, C1.
#[derive(Clone, Copy, Debug, PartialEq, Eq)]
pub enum PutFault {
    /// C1: something is filed under the number.
    Filed,
    /// C2: the batch has no packet of the number.
    NoPacket,
    /// C3: it is a result of another batch.
    OtherBatch,
}

impl fmt::Display for PutFault {
    ghost use Rattle.std.specs.Prelude.{Some};
    ghost use Rattle.tp_collect.specs.Faults.{put_fault_text};

    ghost output = { λ fault. Some (put_fault_text fault) };

    fn fmt<W: fmt::Write>(&self, f: &mut fmt::Formatter<W>) -> fmt::Result {
        f.write_str(match self {
            PutFault::Filed => "C1: the number has an entry",
            PutFault::NoPacket => "C2: no packet has the number",
            PutFault::OtherBatch => "C3: another batch",
        })
    }
}

impl Error for PutFault {}
