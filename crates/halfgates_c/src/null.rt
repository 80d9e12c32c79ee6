//! Pointers of C that are null.

ghost use Rattle.std.specs.Prelude.{IsFalse};
ghost use Rattle.core.specs.Ptr.{as_ptr};
ghost use denote.RawPtr.{Testable};

use std::ptr::NonNull;

/// Whether C passed null in place of a reference. No reference of Rattle is null, and the contract says so: the test is
/// for callers that don't keep to the header.
pub(crate) fn is_null<T>(at: &T) -> bool
    requires { Testable (as_ptr at) }
    ensures { IsFalse result }
{
    NonNull::new(NonNull::from_ref(at).as_ptr()).is_none()
}
