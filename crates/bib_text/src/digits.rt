//! Decimal digits.

ghost use Rattle.std.specs.Prelude.{◌≡◌};
ghost use Rattle.std.specs.List.{list_all};
ghost use Rattle.std.specs.Char.{is_ascii_digit};

/// Returns whether all bytes are ASCII digits, as they are if there is none.
pub fn are_digits(bytes: &[u8]) -> bool
    ensures { result ≡ list_all is_ascii_digit bytes.now }
{
    bytes.iter().all(|byte| byte.is_ascii_digit())
}
