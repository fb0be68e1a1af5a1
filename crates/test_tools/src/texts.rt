//! Assembly text: what it says, the places of its lines, large texts, and images that come back from their text.

mod initial;
mod large;
mod places;
mod samples;
