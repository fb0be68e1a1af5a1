//! Sessions that were worked out by hand: lines in, answers out, through the whole service. There is no code here but
//! tests.
#![tactic(auto)]

#[cfg(test)]
mod asserts;
#[cfg(test)]
mod cases;
#[cfg(test)]
mod examples;
#[cfg(test)]
mod farms;
#[cfg(test)]
mod full_size;
#[cfg(test)]
mod listings;
#[cfg(test)]
mod members;
#[cfg(test)]
mod names;
#[cfg(test)]
mod runs;
#[cfg(test)]
mod sessions;
#[cfg(test)]
mod streams;
