//! Serving an input.

ghost use Rattle.std.specs.Prelude.{◌≡◌, ◌⊎◌, OnOk};
ghost use Rattle.tp_session.specs.Served.{ServesAll, ServesRead, ServesBefore, ServesSome};
ghost use Rattle.tp_session.specs.Fitness.{AreFit};

use crate::farm::Farm;
use crate::fault::ServeFault;
use crate::reading::{begin, feed, finish};
use crate::service::Service;
use std::alloc::Global;
use std::io::{Read, Write};
use std::sync::Wait;
use std::thread::Threads;
use tp_link::LinkDevice;

/// The most bytes that one call of the reader is asked for.
const READ_SIZE: usize = 4096;

/// Answers each line of an input, until the reader ends or fails.
///
/// A line is the bytes up to a line feed; a carriage return just before it is dropped, and a rest at the end of the
/// input that is not empty is a line. The answer to a line is built whole, then written and flushed. Where a growth or
/// a thread is refused, or the reader or the writer fails, serving ends with that fault. It waits for its members while
/// packets are run.
///
/// ```
/// let mut media = media_of(alloc, 1, 256)?;
/// let farm = Farm::new(boxed(alloc, &mut media)?, false);
/// let mut reader = b"LIST 604F\nHELLO\n".as_slice();
/// let mut writer = Vec::new(alloc);
/// serve(&rt, alloc, &mut reader, &mut writer, farm)?;
/// assert_eq!(writer.as_slice(), b"0 604f ldc -1\nDONE 1\nNO E1 2\n");
/// ```
pub fn serve<T: Threads + Wait + Sync, D: LinkDevice + Send, R: Read, W: Write>(
    rt: &T,
    alloc: Global,
    reader: &mut R,
    writer: &mut W,
    farm: Farm<D>,
) -> Result<(), ServeFault>
    ensures all { AreFit D.state farm.links.items → OnOk result (ServesAll farm.trace
        (R.remaining reader.old) (R.remaining reader.new) (W.contents writer.old) (W.contents writer.new)) }
    ensures read { AreFit D.state farm.links.items → result ≡ Err ServeFault.Read → ServesRead farm.trace
        (R.remaining reader.old) (R.remaining reader.new) (W.contents writer.old) (W.contents writer.new) }
    ensures want { AreFit D.state farm.links.items → (result ≡ Err ServeFault.Memory) ⊎ (result ≡ Err ServeFault.Thread)
        →
        ServesBefore farm.trace (R.remaining reader.old) (R.remaining reader.new) (W.contents writer.old)
        (W.contents writer.new) }
    ensures write { AreFit D.state farm.links.items → result ≡ Err ServeFault.Write → ServesSome farm.trace
        (R.remaining reader.old) (W.contents writer.old) (W.contents writer.new) }
{
    let mut service = Service::new(alloc, farm.links, farm.trace);
    let mut partial = begin(alloc);
    let mut buffer = [0; READ_SIZE];
    for _ in rt.forever() {
        let Ok(count) = reader.read(&mut buffer) else {
            return Err(ServeFault::Read);
        };
        if count == 0 {
            return finish(&mut partial, &mut service, rt, alloc, writer);
        }
        feed(
            &mut partial,
            &mut service,
            rt,
            alloc,
            writer,
            &buffer[..count],
        )?;
    }
    unreachable!()
}
