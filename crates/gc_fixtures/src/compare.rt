//! A comparison of what a test finds with what it wants.

use std::fmt::Debug;
use std::test::Fail;

/// Fails where a test finds another value than it wants. `assert_eq!` has its formatting in the test's own body, whose
/// proof then takes more than twice as long.
pub fn equal<T: PartialEq + Debug + Drop>(found: T, wanted: T) -> Result<(), Fail> {
    if found == wanted {
        Ok(())
    } else {
        Err(Fail::new(format_args!("found {found:?}, wanted {wanted:?}")))
    }
}
