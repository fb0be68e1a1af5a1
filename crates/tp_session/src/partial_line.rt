ghost use Rattle.std.specs.Prelude.{◌≤◌, vec_len};

/// How far the reading of lines has come.
#[derive(Drop)]
pub(crate) struct PartialLine {
    /// The number of the line that is being read, from 1.
    pub(crate) number: u64,
    /// The beginning of the line, at most [`MAX_LINE`](crate::MAX_LINE) bytes.
    pub(crate) line: Vec<u8>,
    /// Whether more than that has come.
    pub(crate) long: bool,
    /// Room for the text of an answer, which lasts from one line to the next.
    pub(crate) room: Vec<u8>,
    ghost within: { vec_len line ≤ 32768 },
}
