//! Codes judged by hand: their flow, what is known along them, and the tables of whole workers. Texts that are accepted
//! or refused, and runs of the accepted ones, worked out by hand; runs on a machine whatever it held before
//! (`machine`); the media of members. There is no code here but tests.
#![tactic(auto)]

#[cfg(test)]
mod answers;
#[cfg(test)]
mod asserts;
#[cfg(test)]
mod changed;
#[cfg(test)]
mod examples;
#[cfg(test)]
mod flow;
#[cfg(test)]
mod images;
#[cfg(test)]
mod machine;
#[cfg(test)]
mod media;
#[cfg(test)]
mod reading;
#[cfg(test)]
mod runs;
#[cfg(test)]
mod states;
#[cfg(test)]
mod tables;
#[cfg(test)]
mod texts;
