use tp_link::LinkFault;

/// The end of an instruction.
#[derive(Clone, Copy)]
pub(crate) enum Turn {
    /// It had its effect, and the worker runs on.
    Made,
    /// It had its effect, and the worker has stopped.
    Ended,
    /// A device refused its call.
    Refused(LinkFault),
}
