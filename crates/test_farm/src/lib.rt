//! Batches that were worked out by hand: packets, devices that fail or are closed, gates, and what becomes of each
//! packet. There is no code here but tests.
#![tactic(auto)]

#[cfg(test)]
mod asserts;
#[cfg(test)]
mod batches;
#[cfg(test)]
mod examples;
#[cfg(test)]
mod failing;
#[cfg(test)]
mod members;
#[cfg(test)]
mod noticing;
#[cfg(test)]
mod recording;
#[cfg(test)]
mod refusing;
#[cfg(test)]
mod returning;
#[cfg(test)]
mod stopping;
#[cfg(test)]
mod streaming;
#[cfg(test)]
mod tracing;
