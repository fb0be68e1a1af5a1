//! Arguments, as they are written down here and as clap takes them.

use clap::{Arg, ArgAction, Error, value_parser};
use std::alloc::Global;

/// An argument of a command.
pub(crate) struct Argument {
    /// The name that it is found by; of an option also the one that it is given by, behind two hyphens.
    pub(crate) name: &'static str,
    pub(crate) kind: Kind,
    pub(crate) help: &'static str,
}

/// How an argument is given. Where it has a value, the text is that value's name in help.
pub(crate) enum Kind {
    /// By its place.
    Positional(&'static str),
    /// By an option, or not.
    Flag,
    /// A flag that is refused without another option.
    FlagRequiring(&'static str),
    /// A flag that is refused beside any of these options.
    FlagConflicting(&'static [&'static str]),
    /// By an option with a text.
    Text(&'static str),
    /// By options with a text each, which may begin with a hyphen.
    Texts(&'static str),
    /// By an option with a number.
    Number(&'static str),
    /// By an option with a number, which is refused without another option.
    NumberRequiring(&'static str, &'static str),
    /// By an option with a number from 1 to 64.
    Members(&'static str),
}

/// An argument that is given or not.
fn flag<'a>(arg: Arg<'a>) -> Arg<'a> {
    arg.action(ArgAction::SetTrue)
        .value_parser(value_parser!(bool))
}

/// An argument with a value.
fn valued<'a>(arg: Arg<'a>, value: &'static str) -> Arg<'a> {
    arg.action(ArgAction::Set).value_name(value)
}

/// An argument with a value each time that it is given.
fn repeated<'a>(arg: Arg<'a>, value: &'static str) -> Arg<'a> {
    arg.action(ArgAction::Append)
        .allow_hyphen_values(true)
        .value_name(value)
}

/// An argument of a kind.
fn with_kind<'a>(arg: Arg<'a>, kind: &Kind) -> Result<Arg<'a>, Error> {
    Ok(match kind {
        Kind::Positional(value) | Kind::Text(value) => valued(arg, *value),
        Kind::Flag => flag(arg),
        Kind::FlagRequiring(other) => flag(arg).requires_arg(*other)?,
        Kind::FlagConflicting(others) => flag(arg).conflicts_with_all(*others)?,
        Kind::Texts(value) => repeated(arg, *value),
        Kind::Number(value) => valued(arg, *value).value_parser(value_parser!(usize)),
        Kind::NumberRequiring(value, other) => valued(arg, *value)
            .value_parser(value_parser!(usize))
            .requires_arg(*other)?,
        Kind::Members(value) => {
            valued(arg, *value).value_parser(value_parser!(usize).range(1..=64))
        }
    })
}

/// An argument as clap takes it.
pub(crate) fn arg_of<'a>(alloc: Global, argument: &Argument) -> Result<Arg<'a>, Error> {
    let arg = Arg::new(alloc, argument.name).help(argument.help);
    let arg = match argument.kind {
        Kind::Positional(_) => arg,
        _ => arg.long(argument.name),
    };
    with_kind(arg, &argument.kind)
}
