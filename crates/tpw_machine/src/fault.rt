use thiserror::Error;
use tp_link::LinkFault;

/// Why a run did not end.
#[derive(Clone, Copy, Debug, PartialEq, Eq, Error)]
pub enum RunFault {
    /// A device refused a call. Earlier messages stay sent.
    #[error("{0}")]
    Link(LinkFault),
    /// No step exists, with Iptr at this address. An address below code byte 0 is wrapped.
    #[error("stuck at {0}")]
    Stuck(u32),
    /// As many steps as the limit were made before the end.
    #[error("not ended within the limit")]
    Limit,
}
