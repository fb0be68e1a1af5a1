//! The verdict on the bytes of an image.

ghost use Rattle.std.specs.Prelude.{◌≡◌, IfOk};
ghost use Rattle.tpw_why.specs.Verdicts.{IsVerdictOn, IsExactOn, is_accepted};

use std::alloc::{AllocError, Global};
use tp_accept::{Accepted, Refusal, RefusalCode, accept};

/// The verdict on the bytes of an image.
#[derive(Debug, Drop)]
pub enum Verdict {
    /// They are an image that may be run.
    Accepted(Accepted),
    /// The first refusal.
    Refused { code: RefusalCode, place: usize },
}

impl Verdict {
    /// Whether the image may be run.
    pub fn is_accepted(&self) -> bool
        ensures { result ≡ is_accepted self.now }
    {
        match self {
            Verdict::Accepted(_) => true,
            Verdict::Refused { .. } => false,
        }
    }
}

/// Judges the bytes of an image, as farmd does.
pub fn judge(alloc: Global, bytes: &[u8]) -> Result<Verdict, AllocError>
    ensures verdict { IfOk result (IsVerdictOn bytes.now) }
    ensures exact { IfOk result (IsExactOn bytes.now) }
{
    let copy = Vec::from_slice(alloc, bytes)?;
    match accept(alloc, copy) {
        Ok(accepted) => Ok(Verdict::Accepted(accepted)),
        Err(Refusal::Memory) => Err(AllocError),
        Err(Refusal::Refused { code, place }) => Ok(Verdict::Refused { code, place }),
    }
}
