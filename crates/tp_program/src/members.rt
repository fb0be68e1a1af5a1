//! The members of the farm.

ghost use Rattle.std.specs.Prelude.{◌≡◌, ◌≤◌, ◌⊎◌, All, IfOk, OnOk, length, vec_len};
ghost use Rattle.tp_link.specs.Wire.{device_of};
ghost use Rattle.tp_session.specs.Fitness.{AreFit};
ghost use Rattle.tp_session.specs.Served.{ServesAll, ServesRead, ServesBefore, ServesSome};
ghost use Rattle.tp_program.specs.Media.{HaveRoom};
ghost use Rattle.tp_program.specs.Asked.{IsAsked};

use crate::chosen::Options;
use std::alloc::{AllocError, Global};
use std::io::{Read, Write};
use std::sync::Wait;
use std::thread::Threads;
use tp_collect::limits::MAX_MESSAGE;
use tp_link::{LinkDevice, Links, Media, Wire};
use tp_session::{Farm, ServeFault, serve};

/// Media for each member.
fn media_of(alloc: Global, members: usize) -> Result<Vec<Media>, AllocError>
    ensures count { IfOk result (λ media. vec_len media ≡ members) }
    ensures room { IfOk result (λ media. All HaveRoom media.items) }
{
    let media = tp_link::media_of(alloc, members, MAX_MESSAGE)?;
    Ok(media)
}

/// Boxes of wires to these media, a member for each.
fn boxed(alloc: Global, media: &mut [Media]) -> Result<Vec<Links<Box<Wire<'_>>>>, AllocError>
    requires { All HaveRoom media.old }
    ensures count { IfOk result (λ links. vec_len links ≡ length media.old) }
    ensures fit { IfOk result (λ links. AreFit (λ b. device_of b.value) links.items) }
{
    let links = tp_link::boxed(alloc, media)?;
    Ok(links)
}

/// Serves an input on the farm that is asked for: each of its members serves.
fn serve_as_asked<T: Threads + Wait + Sync, D: LinkDevice + Send, R: Read, W: Write>(
    rt: &T,
    alloc: Global,
    reader: &mut R,
    writer: &mut W,
    farm: Farm<D>,
    _asked: Options,
) -> Result<(), ServeFault>
    requires asked { IsAsked _asked farm }
    requires fit { AreFit D.state farm.links.items }
    ensures all { OnOk result (ServesAll _asked.trace
        (R.remaining reader.old) (R.remaining reader.new) (W.contents writer.old) (W.contents writer.new)) }
    ensures read { result ≡ Err ServeFault.Read → ServesRead _asked.trace
        (R.remaining reader.old) (R.remaining reader.new) (W.contents writer.old) (W.contents writer.new) }
    ensures want { (result ≡ Err ServeFault.Memory) ⊎ (result ≡ Err ServeFault.Thread) → ServesBefore _asked.trace
        (R.remaining reader.old) (R.remaining reader.new) (W.contents writer.old) (W.contents writer.new) }
    ensures write { result ≡ Err ServeFault.Write → ServesSome _asked.trace
        (R.remaining reader.old) (W.contents writer.old) (W.contents writer.new) }
{
    serve(rt, alloc, reader, writer, farm)
}

/// Serves an input on 1 to 64 members of its own, as many as are asked for.
pub fn serve_members<T: Threads + Wait + Sync, R: Read, W: Write>(
    rt: &T,
    alloc: Global,
    reader: &mut R,
    writer: &mut W,
    asked: Options,
) -> Result<(), ServeFault>
    requires least { 1 ≤ asked.members }
    requires most { asked.members ≤ 64 }
    ensures all { OnOk result (ServesAll asked.trace
        (R.remaining reader.old) (R.remaining reader.new) (W.contents writer.old) (W.contents writer.new)) }
    ensures read { result ≡ Err ServeFault.Read → ServesRead asked.trace
        (R.remaining reader.old) (R.remaining reader.new) (W.contents writer.old) (W.contents writer.new) }
    ensures want { (result ≡ Err ServeFault.Memory) ⊎ (result ≡ Err ServeFault.Thread) → ServesBefore asked.trace
        (R.remaining reader.old) (R.remaining reader.new) (W.contents writer.old) (W.contents writer.new) }
    ensures write { result ≡ Err ServeFault.Write → ServesSome asked.trace
        (R.remaining reader.old) (W.contents writer.old) (W.contents writer.new) }
{
    let mut media = media_of(alloc, asked.members)?;
    let links = boxed(alloc, &mut media)?;
    let farm = Farm::new(links, asked.trace);
    serve_as_asked(rt, alloc, reader, writer, farm, asked)
}
