//! A bound: the most bytes of a run, and those of a turn of each loop.

use crate::costs::LoopCost;
use std::fmt;
use std::io::Write;
use tp_image::Image;
use tpw_debug::{ShowFault, SourceText};

/// A count of bytes; the greatest number of 64 bits stands for each that is not below it.
#[derive(Clone, Copy)]
struct Bytes(u64);

impl fmt::Display for Bytes {
    fn fmt<W: fmt::Write>(&self, f: &mut fmt::Formatter<W>) -> fmt::Result {
        let bytes = self.0;
        if bytes == u64::MAX {
            write!(f, "{bytes} or more")
        } else {
            write!(f, "{bytes}")
        }
    }
}

/// Writes the most bytes of a run behind a name of eight columns, and those of a turn of each loop, the last
/// row's first: of a text, outer loops before inner ones.
pub(crate) fn write_bound<W: Write>(
    source: SourceText<'_>,
    image: &Image,
    name: &str,
    bytes: u64,
    loops: &[LoopCost],
    writer: &mut W,
) -> Result<(), ShowFault> {
    let all = Bytes(bytes);
    write!(writer, "{name} {all}").map_err(|_| ShowFault::Write)?;
    let mut between = ":";
    for number in (0..image.loops.len()).rev() {
        if let (Some(row), Some(cost)) = (image.loops.get(number), loops.get(number)) {
            let turn = Bytes(cost.turn);
            let turns = cost.turns;
            let head = source.loop_name(number, row);
            write!(writer, "{between} {turn} a turn of {head}, {turns} turns").map_err(
                |_| ShowFault::Write,
            )?;
            between = "\n        ";
        }
    }
    writeln!(writer).map_err(|_| ShowFault::Write)
}
