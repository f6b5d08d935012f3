//! The check digits of standard numbers: ISBN (ISO 2108) and ISSN (ISO 3297).

ghost use Rattle.std.specs.Prelude.{◌≡◌, ◌≤◌, ◌-◌, ◌*◌, length, take};
ghost use Rattle.std.specs.List.{list_all};
ghost use Rattle.std.specs.Char.{is_ascii_digit};
ghost use Rattle.bib_findings.specs.CheckDigits as spec;

use bib_text::digits::are_digits;

// Returns whether a byte occurs in numbers: a digit, or `X` in either case.
fn is_digit_or_x(b: u8) -> bool
    ensures { result ≡ spec.is_digit_or_x b }
{
    b.is_ascii_digit() || b == b'X' || b == b'x'
}

/// Returns whether each byte is an ASCII digit, or `X` in either case.
pub(crate) fn are_digits_or_x(digits: &[u8]) -> bool
    ensures { result ≡ list_all spec.is_digit_or_x digits.now }
{
    digits.iter().all(|b| is_digit_or_x(*b))
}

// Returns whether all bytes except the last one are digits.
fn are_digits_before_last(digits: &[u8]) -> bool
    ensures { result ≡ list_all is_ascii_digit (take (length digits.now - 1) digits.now) }
{
    match digits {
        [first @ .., _] => are_digits(first),
        [] => true,
    }
}

// Returns the value of a digit; any other byte, such as `X`, is 10.
fn digit_value(b: u8) -> usize
    ensures value { result ≡ spec.digit_value b }
    ensures small { result ≤ 10 }
{
    if b.is_ascii_digit() {
        usize::from(b - b'0')
    } else {
        10
    }
}

// Returns the value of a digit, multiplied by `weight`.
fn weighted(b: u8, weight: usize) -> usize
    requires { weight ≤ 13 }
    ensures value { result ≡ spec.digit_value b * weight }
    ensures small { result ≤ 130 }
{
    digit_value(b) * weight
}

// Returns the sum of the digits, each multiplied by the number of digits from it to the end.
fn descending_sum(digits: &[u8]) -> usize
    requires { length digits.now ≤ 13 }
    ensures { result ≡ spec.descending_sum digits.now }
{
    let mut sum = 0;
    let mut weight = digits.len();
    'digits: for b in digits {
        sum += weighted(*b, weight);
        weight -= 1;
    }
    sum
}

// Returns the sum of the digits, multiplied in turn by 1 and by 3.
fn alternating_sum(digits: &[u8]) -> usize
    requires { length digits.now ≤ 13 }
    ensures { result ≡ spec.alternating_sum 1 digits.now }
{
    let mut sum = 0;
    let mut weight = 1;
    'digits: for b in digits {
        sum += weighted(*b, weight);
        weight = 4 - weight;
    }
    sum
}

// Returns whether the check digit of an ISSN or of an ISBN of ten digits is right.
fn is_check_right_by_11(digits: &[u8]) -> bool
    requires { length digits.now ≤ 13 }
    ensures { result ≡ spec.is_check_right_by_11 digits.now }
{
    are_digits_before_last(digits) && descending_sum(digits) % 11 == 0
}

// Returns whether the check digit of an ISBN of 13 digits is right.
fn is_check_right_by_10(digits: &[u8]) -> bool
    requires { length digits.now ≤ 13 }
    ensures { result ≡ spec.is_check_right_by_10 digits.now }
{
    are_digits(digits) && alternating_sum(digits) % 10 == 0
}

/// Returns whether digits have the length and the check digit of an ISBN.
pub(crate) fn is_isbn(digits: &[u8]) -> bool
    ensures { result ≡ spec.is_isbn digits.now }
{
    (digits.len() == 10 && is_check_right_by_11(digits))
        || (digits.len() == 13 && is_check_right_by_10(digits))
}

/// Returns whether digits have the length and the check digit of an ISSN.
pub(crate) fn is_issn(digits: &[u8]) -> bool
    ensures { result ≡ spec.is_issn digits.now }
{
    digits.len() == 8 && is_check_right_by_11(digits)
}
