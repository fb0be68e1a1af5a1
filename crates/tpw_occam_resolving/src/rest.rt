//! The rest behind declarations.

use crate::calls::Place;
use tpw_occam_meaning::{Process, ValueProcess};

/// The rest behind a declaration, or the body that a call enters.
#[derive(Clone, Copy)]
pub(crate) enum Rest<'r, 't, 'a> {
    Process(&'t Process<'a>),
    /// The body of a FUNCTION, whose results go to these places.
    Valued(&'t ValueProcess<'a>, &'r [Place<'r>]),
}
