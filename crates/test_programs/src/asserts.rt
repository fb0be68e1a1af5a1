//! Assertions of values: where one fails, the test ends there and then, and says what it found.
//!
//! A call of `assert_same` is proved in a tenth of the time of an `assert_eq!` in its place. Where a test owns
//! something, `unwrap` takes about half the time of a `?`, behind which all of that is let go of.
ghost use Rattle.std.specs.Prelude.{◌≡◌, Ok};

use std::fmt::Debug;
use std::process::Abort;

/// That two values are the same; where they differ, both are printed.
pub fn assert_same<T: Debug + PartialEq>(rt: &impl Abort, left: &T, right: &T) {
    assert_eq!(rt; left, right);
}

/// The value; where there is none, the error is printed.
pub fn unwrap<T: Drop, E: Debug + Drop>(rt: &impl Abort, value: Result<T, E>) -> T
    ensures { value ≡ Ok result }
{
    value.expect(rt, "a value is wanted")
}
