//! The rest behind declarations.

use tpw_occam_meaning::{Declarations, Process};

/// The rest behind a declaration: in a worker its process, and in a text further declarations.
#[derive(Clone, Copy)]
pub(crate) enum Rest<'t, 'a> {
    Body(&'t Process<'a>),
    Text(&'t Declarations<'a>),
}
