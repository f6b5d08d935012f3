//! Numbers in the digits of one script beyond ASCII, such as Persian years.

ghost use Rattle.std.specs.Prelude.{◌≡◌, chars, length};
ghost use Rattle.std.specs.List.{list_any};
ghost use Rattle.bib_findings.specs.OtherDigits as spec;

// The digits zero beyond ASCII. The ten digits of a script are its zero and the nine characters after it (Unicode 14.0, category Nd).
static ZEROS: [u32; 65] = [
    0x660, 0x6f0, 0x7c0, 0x966, 0x9e6, 0xa66, 0xae6, 0xb66, 0xbe6, 0xc66, 0xce6, 0xd66, 0xde6,
    0xe50, 0xed0, 0xf20, 0x1040, 0x1090, 0x17e0, 0x1810, 0x1946, 0x19d0, 0x1a80, 0x1a90, 0x1b50,
    0x1bb0, 0x1c40, 0x1c50, 0xa620, 0xa8d0, 0xa900, 0xa9d0, 0xa9f0, 0xaa50, 0xabf0, 0xff10,
    0x104a0, 0x10d30, 0x11066, 0x110f0, 0x11136, 0x111d0, 0x112f0, 0x11450, 0x114d0, 0x11650,
    0x116c0, 0x11730, 0x118e0, 0x11950, 0x11c50, 0x11d50, 0x11da0, 0x16a60, 0x16ac0, 0x16b50,
    0x1d7ce, 0x1d7d8, 0x1d7e2, 0x1d7ec, 0x1d7f6, 0x1e140, 0x1e2f0, 0x1e950, 0x1fbf0,
];

// Returns whether a character is one of the ten digits from this zero on.
fn is_digit_from(zero: u32, c: char) -> bool
    ensures { result ≡ spec.is_digit_from zero c }
{
    let code = u32::from(c);
    zero <= code && code - zero < 10
}

// Returns whether a character is one of the ten digits from one of these zeros on.
fn is_digit_of(zeros: &[u32], c: char) -> bool
    ensures { result ≡ list_any (λ zero. spec.is_digit_from zero c) zeros.now }
{
    zeros.iter().any(|zero| is_digit_from(*zero, c))
}

// Returns whether a character is a digit of a script beyond ASCII.
#[tactic(auto, unfolding(crate::specs::OtherDigits::is_other_digit))]
fn is_other_digit(c: char) -> bool
    ensures { result ≡ spec.is_other_digit c }
{
    is_digit_of(&ZEROS, c)
}

/// Returns whether a text begins with a digit of a script beyond ASCII.
pub(crate) fn begins_with_other_digit(text: &str) -> bool
    ensures { result ≡ spec.begins_with_other_digit text.now }
{
    match text.chars().next() {
        Some(c) => is_other_digit(c),
        None => false,
    }
}

// Returns whether each character of a text is one of the ten digits from this zero on.
fn are_digits_from(zero: u32, text: &str) -> bool
    ensures { result ≡ spec.are_digits_from text.now zero }
{
    text.chars().all(|c| is_digit_from(zero, c))
}

// Returns whether each character of a text is one of the ten digits from the same one of these zeros on.
fn are_digits_of(zeros: &[u32], text: &str) -> bool
    ensures { result ≡ list_any (spec.are_digits_from text.now) zeros.now }
{
    zeros.iter().any(|zero| are_digits_from(*zero, text))
}

/// Returns whether a text isn't empty, and consists of the digits of one script beyond ASCII.
#[tactic(auto, unfolding(crate::specs::OtherDigits::are_other_digits))]
pub(crate) fn are_other_digits(text: &str) -> bool
    ensures { result ≡ spec.are_other_digits text.now }
{
    !text.is_empty() && are_digits_of(&ZEROS, text)
}

// Returns the number of characters of a text.
fn character_count(text: &str) -> usize
    ensures { result ≡ length (chars text.now) }
{
    text.chars().count()
}

/// Returns whether a text consists of four digits of one script beyond ASCII.
#[tactic(auto, unfolding(crate::specs::OtherDigits::is_other_year))]
pub(crate) fn is_other_year(text: &str) -> bool
    ensures { result ≡ spec.is_other_year text.now }
{
    character_count(text) == 4 && are_other_digits(text)
}
