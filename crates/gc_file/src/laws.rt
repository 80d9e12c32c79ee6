//! Laws of the definitions that contracts cite.

ghost use Rattle.std.specs.Prelude.{ℕ, List};
ghost use Rattle.gc_file.specs.FileLaw.{AreBytes, GarbledFileLaw, LabelFileLaw};

/// The law of garbled files: all bytes are exactly one garbled file or have exactly one first fault, and not both. A
/// fault other than `Truncated` is that of all longer bytes too.
pub fn law_garbled_file()
    ensures { (bytes : List ℕ) → AreBytes bytes → GarbledFileLaw bytes }
{}

/// The law of label files: all bytes are exactly one label file or have exactly one first fault, and not both. A
/// fault other than `Truncated` is that of all longer bytes too.
pub fn law_label_file()
    ensures { (bytes : List ℕ) → AreBytes bytes → LabelFileLaw bytes }
{}
