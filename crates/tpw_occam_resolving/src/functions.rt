//! FUNCTIONs with a body, whose results go to targets.

ghost use Rattle.std.specs.Prelude.{◌≡◌, ◌∷◌, ◌++◌, [], None, Some, IfOk, MatchOption, map};
ghost use Rattle.tpw_occam_meaning.specs.Assignments as assignments;
ghost use Rattle.tpw_occam_meaning.specs.Calls as text;
ghost use Rattle.tpw_occam_meaning.specs.Names.{Is, OfVariable};
ghost use Rattle.tpw_occam_meaning.specs.Processes as processes;
ghost use Rattle.tpw_occam_meaning.specs.Types.{all_types};
ghost use Rattle.tpw_occam_names.specs.Scopes.{names_of, form_of};
ghost use Rattle.tpw_occam_scoped.specs.Made.{target_made, effect_of, effect_of_all};
ghost use Rattle.tpw_occam_resolving.specs.Behind.{given_to};
ghost use Rattle.tpw_occam_resolving.specs.Passing.{place_of};

use crate::calls::{Place, referred};
use crate::declarations::with_form;
use crate::depths::depth_behind;
use crate::expressions::value;
use crate::lines::{at, line_of};
use crate::processes::{declared, entered, process};
use crate::rest::Rest;
use crate::targets::{Typed, assignment, element_target, variable_target};
use crate::values::word_value;
use std::alloc::Global;
use tpw_occam_meaning::{Expression, Expressions, Parameters, Primitives, ValueProcess};
use tpw_occam_names::{Fault, Form, Meaning, Scope, look_up};
use tpw_occam_scoped::{Assignment, Process, assigning, no_assignments};
use tpw_occam_terms::Name;

/// A FUNCTION with a body that is called: the names of its declaration, its parameters and its body, and what is passed.
#[derive(Clone, Copy)]
pub(crate) struct Call<'r, 't, 'a> {
    pub(crate) own: &'r Scope<'r, 't, 'a>,
    pub(crate) forms: &'r [Form],
    pub(crate) takes: &'t Parameters<'a>,
    pub(crate) body: &'t ValueProcess<'a>,
    pub(crate) arguments: &'r Expressions<'a>,
}

/// The call that an expression is, and what is passed in it.
fn call_in<'r, 'a>(e: &'r Expression<'a>) -> Option<(Name<'a>, &'r Expressions<'a>)>
    ensures { MatchOption result (text.call_in e.now ≡ None) (λ call. text.call_in e.now ≡ Some (call.0, call.1.now)) }
{
    match e {
        Expression::Call { name, arguments } => Some((*name, &**arguments)),
        Expression::Bracketed { within, .. } => call_in(within),
        _ => None,
    }
}

/// The call that stands alone behind `:=`.
fn call_alone<'r, 'a>(values: &'r Expressions<'a>) -> Option<(Name<'a>, &'r Expressions<'a>)>
    ensures { MatchOption result (text.call_alone values.now ≡ None)
        (λ call. text.call_alone values.now ≡ Some (call.0, call.1.now)) }
{
    match values {
        Expressions::More(e, more) => match &**more {
            Expressions::End => call_in(e),
            Expressions::More(_, _) => None,
        },
        Expressions::End => None,
    }
}

/// The forms that the targets of results have to have.
fn result_forms(alloc: Global, types: &Primitives) -> Result<Vec<Form>, Fault>
    ensures { IfOk result (λ forms. map form_of forms.items ≡ map OfVariable (all_types types.now)) }
{
    match types {
        Primitives::One(of) => with_form(Form::OfVariable(*of), Vec::new(alloc)),
        Primitives::More(of, more) => {
            let more = result_forms(alloc, more)?;
            with_form(Form::OfVariable(*of), more)
        }
    }
}

/// Places, and one more behind them.
fn with_place<'s>(
    alloc: Global,
    places: &[Place<'s>],
    place: Place<'s>,
) -> Result<Vec<Place<'s>>, Fault>
    ensures { IfOk result (λ all. map place_of all.items ≡ map place_of places.now ++ (place_of place.entry ∷ [])) }
{
    let mut all = Vec::from_slice(alloc, places)?;
    all.push(place)?;
    Ok(all)
}

/// The target of a result that goes to a place.
fn place_target(alloc: Global, place: Place<'_>) -> Result<Typed, Fault>
    ensures { IfOk result (λ t. assignments.target_in (Is (place_of place.entry)) ≡ Some (target_made t.of t.target)) }
{
    match place {
        Place::Variable(of, cell) => Ok(variable_target(of, cell)),
        Place::Element(view, i) => element_target(alloc, view, word_value(i)),
    }
}

/// The results of a body, each of which goes to a place; the last is written first.
fn given<'t, 'a>(
    alloc: Global,
    scope: &Scope<'_, 't, 'a>,
    d: usize,
    places: &[Place<'_>],
    results: &Expressions<'a>,
    room: u32,
) -> Result<Vec<Assignment>, Fault>
    ensures { IfOk result (λ all. effect_of_all all.items
        ≡ assignments.results_given (map place_of places.now) results.now (names_of scope.now) d) }
{
    let Some((place, places)) = places.split_first() else {
        return match results {
            Expressions::End => Ok(no_assignments(alloc)),
            Expressions::More(_, _) => Err(Fault::Wrong),
        };
    };
    match results {
        Expressions::End => Err(Fault::Wrong),
        Expressions::More(e, results) => {
            let to = place_target(alloc, *place)?;
            let value = value(alloc, scope, d, e, to.of, room)?;
            let others = given(alloc, scope, d, places, results, room)?;
            Ok(assigning(alloc, to.of, to.target, value, others)?)
        }
    }
}

/// The body of a FUNCTION, whose results go to places.
#[cycle(process)]
pub(crate) fn valued<'t, 'a>(
    alloc: Global,
    scope: &Scope<'_, 't, 'a>,
    d: usize,
    body: &'t ValueProcess<'a>,
    places: &[Place<'_>],
    room: u32,
) -> Result<Process, Fault>
    ensures { IfOk result (λ made.
        effect_of made ≡ processes.valued body.now (map place_of places.now) (names_of scope.now) d) }
{
    if room == 0 {
        return Err(Fault::Deep);
    }
    match body {
        ValueProcess::Declared { declaration, body } => declared(
            alloc,
            scope,
            d,
            declaration,
            Rest::Valued(body, places),
            room - 1,
        ),
        ValueProcess::ValOf {
            process: p,
            results,
            span,
        } => {
            let first = process(alloc, scope, d, p, room - 1)?;
            let list = given(alloc, scope, d, places, results, room)?;
            let last = at(alloc, Some(line_of(*span)), Process::assign(list))?;
            Ok(Process::sequence(alloc, first, last)?)
        }
        ValueProcess::Wrong => Err(Fault::Wrong),
    }
}

/// An assignment, or a call of a FUNCTION with a body, whose results the targets take.
#[cycle(process)]
pub(crate) fn assigned<'t, 'a>(
    alloc: Global,
    scope: &Scope<'_, 't, 'a>,
    d: usize,
    targets: &Expressions<'a>,
    values: &Expressions<'a>,
    room: u32,
) -> Result<Process, Fault>
    ensures { IfOk result (λ made. effect_of made ≡ text.taken_from (text.call_alone values.now) targets.now
        (assignments.assignment (assignments.whole_target targets.now (names_of scope.now)) targets.now values.now
        (names_of scope.now) d) (names_of scope.now) d) }
{
    if room == 0 {
        return Err(Fault::Deep);
    }
    let Some((name, arguments)) = call_alone(values) else {
        return assignment(alloc, scope, d, targets, values, room);
    };
    match look_up(scope, name) {
        Some((Meaning::Routine(types, forms, takes, body), own)) => {
            let call = Call {
                own,
                forms,
                takes,
                body,
                arguments,
            };
            let wanted = result_forms(alloc, types)?;
            let places = Vec::new(alloc);
            taken(alloc, scope, d, call, &wanted, targets, &places, room - 1)
        }
        _ => assignment(alloc, scope, d, targets, values, room),
    }
}

/// The body of a FUNCTION, with the rest of the targets that take its results.
#[cycle(process)]
fn taken<'t, 'a>(
    alloc: Global,
    scope: &Scope<'_, 't, 'a>,
    d: usize,
    call: Call<'_, 't, 'a>,
    forms: &[Form],
    targets: &Expressions<'a>,
    places: &[Place<'_>],
    room: u32,
) -> Result<Process, Fault>
    ensures { IfOk result (λ made. effect_of made ≡ text.entered targets.now (map form_of forms.now)
        (λ more n. given_to call.entry (names_of scope.now) (map place_of places.now ++ more) n) (names_of scope.now) d) }
{
    if room == 0 {
        return Err(Fault::Deep);
    }
    let Expressions::More(e, targets) = targets else {
        if !forms.is_empty() {
            return Err(Fault::Wrong);
        }
        return entered(
            alloc,
            scope,
            call.own,
            call.forms,
            call.takes,
            call.arguments,
            Rest::Valued(call.body, places),
            d,
            room - 1,
        );
    };
    let Some((form, forms)) = forms.split_first() else {
        return Err(Fault::Wrong);
    };
    match *form {
        Form::OfVariable(of) => {
            let lent = referred(alloc, scope, d, e, of, room)?;
            let n = depth_behind(d, &lent.subscript)?;
            let places = with_place(alloc, places, lent.place)?;
            let rest = taken(alloc, scope, n, call, forms, targets, &places, room - 1)?;
            Ok(Process::passed_to(alloc, None, d, lent.subscript, rest)?)
        }
        _ => Err(Fault::Wrong),
    }
}
