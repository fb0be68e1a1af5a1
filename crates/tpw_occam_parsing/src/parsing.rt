//! From the lines of a text to a draft of its tree.

use crate::draft::Draft;
use crate::processes::Parser;
use crate::rows::{Rows, rows_of};
use std::alloc::{AllocError, Global};
use tpw_occam_lexing::Line;
use tpw_occam_terms::Fault;

/// The draft of a text's tree.
#[derive(Drop)]
pub struct Drafted<'a> {
    pub draft: Draft<'a>,
    /// In the order of their places, at most [`MAX_FAULTS`](tpw_occam_terms::MAX_FAULTS).
    pub faults: Vec<Fault>,
    /// Whether each line's indentation is right. Else it is not known what stands below what.
    pub is_laid_out: bool,
}

/// Reads lines. What has a fault is left out or `Wrong`, and all else is read; a fault that another one explains is not
/// told.
pub fn draft_of<'a>(alloc: Global, lines: &[Line<'a>]) -> Result<Drafted<'a>, AllocError> {
    let Rows {
        rows,
        parts,
        faults,
        is_laid_out,
    } = rows_of(alloc, lines)?;
    let mut parser = Parser {
        draft: Draft::new(alloc),
        parts: &parts,
        faults,
        is_laid_out,
    };
    parser.outermost(&rows)?;
    let Parser { draft, faults, .. } = parser;
    Ok(Drafted {
        draft,
        faults: faults.into_vec(),
        is_laid_out,
    })
}
