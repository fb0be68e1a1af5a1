//! FUNCTIONs with a body, which are called alone behind `:=`.

use crate::assignments::{assignment, target};
use crate::declarations::{Declared, Level, declare};
use crate::processes::process;
use crate::trees::{first_type, only, types_of};
use tpw_occam_faults::{FaultKind, Interrupt, Use};
use tpw_occam_meaning::{Expression as Tree, Expressions, Primitives, ValueProcess};
use tpw_occam_terms::{Name, Primitive, Span};
use tpw_occam_typing::{
    Checker, Entry, Frame, Meaning, bare, count_of, levels_within, name_of, recovered, span_of,
};

/// The call that stands alone behind `:=`, and what is passed in it.
fn call_alone<'t, 'a>(values: &'t Expressions<'a>) -> Option<(Name<'a>, &'t Expressions<'a>)> {
    match bare(only(values)?) {
        Tree::Call { name, arguments } => Some((*name, arguments)),
        _ => None,
    }
}

/// Reports a call that gives one result, where there are so many variables.
fn one_result<'t, 'a>(
    checker: &mut Checker<'t, 'a>,
    frame: Frame,
    name: Name<'a>,
    wanted: usize,
) -> Result<(), Interrupt> {
    let entry = checker.find(frame.scope, name)?;
    match entry.meaning {
        Meaning::Function { .. } => {
            let kind = FaultKind::Results {
                name: name.text,
                declared: entry.name.span,
                wanted,
                found: 1,
            };
            Err(checker.fault(name.span, kind))
        }
        _ => Err(checker.not_a(name, entry, Use::Function)),
    }
}

/// A variable or an element that takes a result of a type; returns how many names are bound around the body for it.
fn taker<'t, 'a>(
    checker: &mut Checker<'t, 'a>,
    frame: Frame,
    e: &'t Tree<'a>,
    of: Primitive,
    depth: u32,
) -> Result<usize, Interrupt> {
    let found = target(checker, frame, e, depth)?;
    checker.check_type(name_of(e), found, of, span_of(e))?;
    match bare(e) {
        Tree::Element { .. } => Ok(1),
        _ => Ok(0),
    }
}

/// The variables and elements that take the results, of which there are as many; returns how many names are bound around
/// the body for them, where all are right.
fn takers<'t, 'a>(
    checker: &mut Checker<'t, 'a>,
    frame: Frame,
    targets: &'t Expressions<'a>,
    of: &'t Primitives,
    depth: u32,
) -> Result<Option<usize>, Interrupt> {
    let mut names = Some(0usize);
    let mut types = Some(of);
    let mut rest = targets;
    while let Expressions::More(e, more) = rest {
        let Some(of) = types else {
            break;
        };
        let (of, others) = first_type(of);
        let made = taker(checker, frame, e, of, depth);
        names = match (names, recovered(made)?) {
            (Some(names), Some(more)) => Some(names.saturating_add(more)),
            _ => None,
        };
        types = others;
        rest = more;
    }
    Ok(names)
}

/// The expressions behind RESULT, of which there are as many as types.
fn results<'t, 'a>(
    checker: &mut Checker<'t, 'a>,
    frame: Frame,
    list: &'t Expressions<'a>,
    of: &'t Primitives,
    span: Span,
    depth: u32,
) -> Result<(), Interrupt> {
    let (wanted, found) = (types_of(of), count_of(list));
    if wanted != found {
        return Err(checker.fault(span, FaultKind::ResultCount { wanted, found }));
    }
    let mut is_whole = true;
    let mut types = Some(of);
    let mut rest = list;
    while let Expressions::More(e, more) = rest {
        let Some(of) = types else {
            break;
        };
        let (of, others) = first_type(of);
        let made = checker.expression(frame, e, Some(of), depth);
        is_whole = recovered(made)?.is_some() && is_whole;
        types = others;
        rest = more;
    }
    if is_whole {
        Ok(())
    } else {
        Err(Interrupt::Reported)
    }
}

/// The body of a FUNCTION, in a frame of its own.
#[cycle(process)]
pub(crate) fn valued<'t, 'a>(
    checker: &mut Checker<'t, 'a>,
    frame: Frame,
    body: &'t ValueProcess<'a>,
    of: &'t Primitives,
    depth: u32,
) -> Result<(), Interrupt> {
    let mut declared = Declared::new(frame, depth);
    let mut rest = body;
    while let ValueProcess::Declared { declaration, body } = rest {
        declared = declare(checker, declared, declaration, Level::Process)?;
        rest = body;
    }
    let ValueProcess::ValOf {
        process: p,
        results: list,
        span,
    } = rest
    else {
        return Err(Interrupt::Reported);
    };
    let depth = levels_within(depth, declared.names.saturating_add(1));
    let made = process(checker, declared.frame, p, depth);
    let made = recovered(made)?;
    results(checker, declared.frame, list, of, *span, depth)?;
    match made {
        Some(()) => Ok(()),
        None => Err(Interrupt::Reported),
    }
}

/// A call of a FUNCTION with a body, whose results the targets take.
#[cycle(process)]
fn taken<'t, 'a>(
    checker: &mut Checker<'t, 'a>,
    frame: Frame,
    name: Name<'a>,
    entry: Entry<'t, 'a>,
    arguments: &'t Expressions<'a>,
    targets: &'t Expressions<'a>,
    depth: u32,
) -> Result<(), Interrupt> {
    let Meaning::Routine {
        of,
        signature,
        body,
        scope,
    } = entry.meaning
    else {
        return Err(Interrupt::Reported);
    };
    let (wanted, found) = (count_of(targets), types_of(of));
    if wanted != found {
        let kind = FaultKind::Results {
            name: name.text,
            declared: entry.name.span,
            wanted,
            found,
        };
        return Err(checker.fault(name.span, kind));
    }
    let names = takers(checker, frame, targets, of, depth)?;
    let depth = levels_within(depth, names.unwrap_or(0));
    let inlined = checker.inline(frame, name, entry, signature, arguments, scope, depth)?;
    let within = inlined.frame.in_function(checker.cells.count());
    valued(checker, within, body, of, inlined.depth)?;
    match names {
        Some(_) => Ok(()),
        None => Err(Interrupt::Reported),
    }
}

/// `x, a[e] := f, g`, `a := b`, or a call of a FUNCTION with a body.
#[cycle(process)]
pub(crate) fn assigned<'t, 'a>(
    checker: &mut Checker<'t, 'a>,
    frame: Frame,
    targets: &'t Expressions<'a>,
    values: &'t Expressions<'a>,
    depth: u32,
) -> Result<(), Interrupt> {
    let Some((name, arguments)) = call_alone(values) else {
        return assignment(checker, frame, targets, values, depth.saturating_add(1));
    };
    if checker.routine(frame.scope, name).is_some() {
        let entry = checker.find(frame.scope, name)?;
        return taken(checker, frame, name, entry, arguments, targets, depth);
    }
    let wanted = count_of(targets);
    if wanted != 1 {
        return one_result(checker, frame, name, wanted);
    }
    assignment(checker, frame, targets, values, depth.saturating_add(1))
}
