//! The guards of IF, and the constants of CASE.

use crate::branches::Guard;
use crate::limits::MAX_GUARDS;
use tpw_occam_faults::{FaultKind, Interrupt, Limit};
use tpw_occam_meaning::{Expression as Tree, Expressions, Monadic};
use tpw_occam_terms::{Primitive, Span};
use tpw_occam_typing::{Checker, Constness, Frame, Root, bare, levels_within, span_of};

/// The selector of a CASE: its type, and whether a name is bound for it.
#[derive(Clone, Copy)]
pub(crate) struct Selector {
    pub(crate) of: Primitive,
    pub(crate) is_bound: bool,
    /// Its value, where that is a constant.
    word: Option<u32>,
}

impl Selector {
    /// Whether it is a constant, and one of those that were seen.
    pub(crate) fn is_among(self, seen: &[Seen]) -> bool {
        match self.word {
            Some(word) => seen.iter().any(|one| one.word == word),
            None => false,
        }
    }
}

/// A constant of a CASE, and where it stands.
#[derive(Clone, Copy)]
pub(crate) struct Seen {
    word: u32,
    span: Span,
}

/// Whether a guard is a name alone, or NOT of one. A constant of such a name turns a part of a worker on or off.
fn is_switch(e: &Tree<'_>) -> bool {
    match bare(e) {
        Tree::Name(_) => true,
        Tree::Monadic {
            operator: Monadic::Not,
            operand,
            ..
        } => matches!(bare(operand), Tree::Name(_)),
        _ => false,
    }
}

/// The constness of the guard of a choice.
pub(crate) fn guard<'t, 'a>(
    checker: &mut Checker<'t, 'a>,
    frame: Frame,
    e: &'t Tree<'a>,
    depth: u32,
) -> Result<Guard, Interrupt> {
    let before = checker.per_call.point();
    let value = checker.expression(frame, e, Some(Primitive::Bool), depth)?;
    let truth = match value.constness {
        Constness::Constant(word) => Some(word != 0),
        _ => None,
    };
    let is_odd = checker.per_call.point() == before && !is_switch(e);
    Ok(Guard { truth, is_odd })
}

/// The selector of a CASE.
pub(crate) fn chosen_by<'t, 'a>(
    checker: &mut Checker<'t, 'a>,
    frame: Frame,
    e: &'t Tree<'a>,
    depth: u32,
) -> Result<Selector, Interrupt> {
    let value = checker.expression(frame, e, None, depth)?;
    let of = value.of;
    let is_bound = match (value.constness, value.root) {
        (Constness::Constant(_), _) => false,
        (_, Root::Named) => false,
        (_, Root::Variable(_)) => false,
        (_, Root::Made) => true,
    };
    let word = match value.constness {
        Constness::Constant(word) => Some(word),
        _ => None,
    };
    Ok(Selector { of, is_bound, word })
}

/// A constant of a CASE, which stands in it once.
fn case_constant<'t, 'a>(
    checker: &mut Checker<'t, 'a>,
    frame: Frame,
    e: &'t Tree<'a>,
    of: Primitive,
    seen: &mut Vec<Seen>,
) -> Result<(), Interrupt> {
    let word = checker.constant(frame, e, of)?;
    let span = span_of(e);
    if seen.len() >= MAX_GUARDS {
        return Err(checker.limit(frame, span, Limit::Guards));
    }
    if let Some(first) = seen.iter().find(|other| other.word == word).copied() {
        return Err(checker.fault(span, FaultKind::CaseTwice { first: first.span }));
    }
    seen.push(Seen { word, span })?;
    Ok(())
}

/// How many of the constants of a choice of a CASE are without a fault.
fn case_constants<'t, 'a>(
    checker: &mut Checker<'t, 'a>,
    frame: Frame,
    list: &'t Expressions<'a>,
    of: Primitive,
    seen: &mut Vec<Seen>,
) -> Result<usize, Interrupt> {
    let mut count: usize = 0;
    let mut rest = list;
    while let Expressions::More(e, more) = rest {
        match case_constant(checker, frame, e, of, seen) {
            Ok(()) => count = count.saturating_add(1),
            Err(Interrupt::Reported) => {}
            Err(stop) => return Err(stop),
        }
        rest = more;
    }
    Ok(count)
}

/// The constants of a choice of a CASE, of which each is compared within the comparison of those behind it.
pub(crate) fn case_guard<'t, 'a>(
    checker: &mut Checker<'t, 'a>,
    frame: Frame,
    constants: &'t Expressions<'a>,
    of: Primitive,
    seen: &mut Vec<Seen>,
    depth: u32,
) -> Result<(), Interrupt> {
    let count = case_constants(checker, frame, constants, of, seen)?;
    let Expressions::More(first, _) = constants else {
        return Err(Interrupt::Reported);
    };
    if levels_within(depth, count) == 0 {
        return Err(checker.limit(frame, span_of(first), Limit::Depth));
    }
    Ok(())
}
