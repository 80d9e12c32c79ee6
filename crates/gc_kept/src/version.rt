//! The number of a version.

ghost use Rattle.std.specs.Prelude.{◌≡◌};
ghost use Rattle.gc_kept.specs.Version.{version_of};

use gc_file::Version;

/// The version with this number, if there is one.
pub fn version_of(number: u32) -> Option<Version>
    ensures { result ≡ version_of number }
{
    match number {
        1 => Some(Version::One),
        2 => Some(Version::Two),
        _ => None,
    }
}
