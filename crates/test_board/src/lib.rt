//! Lists of events, boards, sources of packets and streams, with the answers that were worked out by hand. There is no
//! code here but tests.
#![tactic(auto)]

#[cfg(test)]
mod asserts;
#[cfg(test)]
mod boards;
#[cfg(test)]
mod events;
#[cfg(test)]
mod sources;
#[cfg(test)]
mod streams;
#[cfg(test)]
mod threads;
