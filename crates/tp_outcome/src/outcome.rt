/// How a run ended.
#[derive(Clone, Copy, Debug, PartialEq, Eq)]
pub struct Outcome {
    /// The error flag.
    pub error: bool,
    /// How many instruction bytes were executed.
    pub steps: u32,
}
