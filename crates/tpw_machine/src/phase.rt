/// How far a worker is.
#[derive(Clone, Copy, Debug, PartialEq, Eq)]
pub enum Phase {
    /// It has not received its packet.
    BeforePacket,
    /// It has its packet, and has not sent its result.
    BeforeResult,
    /// It has sent its result.
    AfterResult,
    /// It has stopped, after its result.
    Stopped,
}
