//! Streams of packets.

mod examples;
mod single;
mod threads;
