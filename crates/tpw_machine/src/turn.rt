use tp_link::LinkFault;

/// The outcome of an instruction byte.
#[derive(Clone, Copy, Debug, PartialEq, Eq)]
pub enum Turn {
    /// The step was made.
    Made,
    /// There is no step.
    Stuck,
    /// A device refused the call that the step makes.
    Refused(LinkFault),
}
