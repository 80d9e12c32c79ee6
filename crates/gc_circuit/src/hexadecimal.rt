//! Hexadecimal digits, read without a branch or an address that depends on them: they may spell a secret.

ghost use Rattle.std.specs.Prelude.{◌≡◌, ◌+◌, ◌*◌, ◌<◌, ◌&&◌, if◌then◌else◌};
ghost use Rattle.hex.specs.Hex.{is_hex_digit};
ghost use Rattle.gc_circuit.specs.Value.{digit_value};

/// The byte of two hexadecimal digits, in either case, the higher four bits first, and whether both are digits. A
/// character that is none counts as 0.
pub fn byte_of(high: u8, low: u8) -> (u8, bool)
    ensures byte { result.0 ≡ 16 * digit_value high + digit_value low }
    ensures digits { result.1 ≡ (is_hex_digit high && is_hex_digit low) }
{
    let (high_value, is_high) = digit_of(high);
    let (low_value, is_low) = digit_of(low);
    (16 * high_value + low_value, is_high & is_low)
}

/// The value of a hexadecimal digit, in either case, and whether it is one. A character that is none counts as 0.
fn digit_of(c: u8) -> (u8, bool)
    ensures value { result.0 ≡ digit_value c }
    ensures digit { result.1 ≡ is_hex_digit c }
    ensures small { result.0 < 16 }
{
    let decimal = c.wrapping_sub(b'0');
    let upper = c.wrapping_sub(b'A');
    let lower = c.wrapping_sub(b'a');
    let (is_decimal, is_upper, is_lower) = (decimal < 10, upper < 6, lower < 6);
    let value = value_where(is_decimal, decimal)
        + value_where(is_upper, upper.wrapping_add(10))
        + value_where(is_lower, lower.wrapping_add(10));
    (value, is_decimal | is_upper | is_lower)
}

/// A value where this holds, and else 0.
fn value_where(is_so: bool, value: u8) -> u8
    ensures { result ≡ if is_so then value else 0 }
{
    u8::from(is_so) * value
}
