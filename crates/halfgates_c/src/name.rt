//! Names of faults, and the version.

ghost use Rattle.std.specs.Prelude.{◌≡◌, ◌≤◌, codes, length};
ghost use Rattle.halfgates_c.specs.Names.{IsMemoryFlag, NamesFault, is_code, name_of_code, padded};

use gc_netlist::fault_name;

/// The room for a name.
const ROOM: usize = 32;

/// The version of the library.
const VERSION: &str = "0.9.9";

/// A name that a zero byte ends: `halfgates_name`.
#[repr(C)]
#[derive(Clone, Copy)]
pub struct Name {
    pub text: [u8; ROOM],
}

/// The name with these bytes, and zeros after them.
fn name_of(bytes: &[u8]) -> Name
    requires { length bytes.now ≤ 31 }
    ensures { result.text ≡ padded bytes.now }
{
    let mut text = [0; ROOM];
    text[..bytes.len()].copy_from_slice(bytes);
    Name { text }
}

/// Whether a call of the library returns this code for a fault.
fn is_code(code: u32) -> bool
    ensures { result ≡ is_code code }
{
    matches!(code, 1..=13 | 15 | 16 | 23 | 30..=36 | 40..=46 | 48 | 60..=68)
}

/// The name of a code.
fn code_name(code: i32) -> &'static str
    ensures name { result.now ≡ name_of_code code }
    ensures room { length result.now ≤ 31 }
{
    let Ok(code) = u32::try_from(code) else {
        return "Unknown";
    };
    if code == 0 {
        return "Ok";
    }
    if is_code(code) {
        fault_name(code)
    } else {
        "Unknown"
    }
}

/// The name of a code, as the program prints it.
#[unsafe(no_mangle)]
pub extern "C" fn halfgates_fault_name(code: i32) -> Name
    ensures name { result.text ≡ padded (name_of_code code) }
    ensures fault { NamesFault code result.text }
{
    name_of(code_name(code).as_bytes())
}

/// Whether a code says that memory ran out: 1 or 0.
#[unsafe(no_mangle)]
pub extern "C" fn halfgates_is_memory(code: i32) -> i32
    ensures { IsMemoryFlag code result }
{
    i32::from(code_name(code) == "Memory")
}

/// The version of the library.
#[unsafe(no_mangle)]
pub extern "C" fn halfgates_version() -> Name
    ensures { result.text ≡ padded (codes "0.9.9") }
{
    name_of(VERSION.as_bytes())
}
