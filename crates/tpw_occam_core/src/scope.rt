//! Names in scope.

ghost use Rattle.std.specs.Prelude.{◌≡◌};
ghost use Rattle.std.specs.List.{list_any};
ghost use Rattle.tpw_occam_core.specs.Sound.{is_variable, is_name, is_array};

/// A name in scope.
#[derive(Clone, Copy, Debug, PartialEq, Eq)]
pub enum Entry {
    /// A variable.
    Variable(usize),
    /// A name that has a value and is not assigned to: an index, or an abbreviation.
    Value(usize),
    /// An array.
    Array(usize),
}

fn is_variable(x: usize, entry: Entry) -> bool
    ensures { result ≡ is_variable x entry }
{
    match entry {
        Entry::Variable(y) => y == x,
        _ => false,
    }
}

fn is_name(x: usize, entry: Entry) -> bool
    ensures { result ≡ is_name x entry }
{
    match entry {
        Entry::Variable(y) => y == x,
        Entry::Value(y) => y == x,
        Entry::Array(_) => false,
    }
}

fn is_array(a: usize, entry: Entry) -> bool
    ensures { result ≡ is_array a entry }
{
    match entry {
        Entry::Array(b) => b == a,
        _ => false,
    }
}

/// Whether a variable that may be assigned to is in scope.
pub(crate) fn has_variable(scope: &[Entry], x: usize) -> bool
    ensures { result ≡ list_any (is_variable x) scope.now }
{
    scope.iter().any(|entry| is_variable(x, *entry))
}

/// Whether a name that is read as a word is in scope.
pub(crate) fn has_name(scope: &[Entry], x: usize) -> bool
    ensures { result ≡ list_any (is_name x) scope.now }
{
    scope.iter().any(|entry| is_name(x, *entry))
}

/// Whether an array is in scope.
pub(crate) fn has_array(scope: &[Entry], a: usize) -> bool
    ensures { result ≡ list_any (is_array a) scope.now }
{
    scope.iter().any(|entry| is_array(a, *entry))
}
