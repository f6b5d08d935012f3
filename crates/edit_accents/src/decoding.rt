//! Commands become characters, from the last to the first.

ghost use Rattle.std.specs.Prelude.{◌≡◌, ◌≤◌, ◌∷◌, [], ◌+◌, ◌<◌, ◌^◌, IfOk, IfSome, length};
ghost use Rattle.edit_accents.specs.Accents as spec;
ghost use Rattle.edit_accents.specs.declared.signs.Sign.TheVariants.{Command};

use crate::commands::{accent_mark, composed, named_letter};
use crate::signs::Sign;
use std::alloc::{AllocError, Global};

// The result of reducing a sign before other signs: the new sign, and the number of the following signs that it replaces too.
#[derive(Clone, Copy)]
pub(crate) struct Reduction {
    pub(crate) sign: Sign,
    pub(crate) taken: usize,
}

// Returns whether a sign is white space.
fn is_white(sign: Sign) -> bool
    ensures { result ≡ spec.is_white sign }
{
    match sign {
        Sign::Plain(c) => c.is_whitespace(),
        _ => false,
    }
}

// Returns the number of signs at the start that are white space.
fn white_count(signs: &[Sign]) -> usize
    ensures count { result ≡ spec.white_count signs.now }
    ensures within { result ≤ length signs.now }
{
    let mut count = 0usize;
    'signs: while count < signs.len() {
        if !is_white(signs[count]) {
            return count;
        }
        count += 1;
    }
    count
}

// Returns the ASCII letter that a sign is, or `None` if it is none.
fn letter_of(sign: Sign) -> Option<char>
    ensures { result ≡ spec.letter_of sign }
{
    match sign {
        Sign::Plain(c) if c.is_ascii_alphabetic() => Some(c),
        _ => None,
    }
}

// Returns the letters at the start of signs.
fn letters(alloc: Global, signs: &[Sign]) -> Result<Vec<char>, AllocError>
    ensures letters { IfOk result (λ found. found.items ≡ spec.leading_letters signs.now) }
    ensures within { IfOk result (λ found. length found.items ≤ length signs.now) }
{
    let mut found = Vec::new(alloc);
    'signs: for sign in signs {
        let Some(c) = letter_of(*sign) else {
            return Ok(found);
        };
        found.push(c)?;
    }
    Ok(found)
}

// Returns a name of one character.
fn short_name(alloc: Global, c: char) -> Result<Vec<char>, AllocError>
    ensures { IfOk result (λ name. name.items ≡ c ∷ []) }
{
    let mut name = Vec::new(alloc);
    name.push(c)?;
    Ok(name)
}

// Returns the name of the command before these signs.
fn command_name(alloc: Global, signs: &[Sign]) -> Result<Vec<char>, AllocError>
    ensures name { IfOk result (λ name. name.items ≡ spec.name_in_signs signs.now) }
    ensures within { IfOk result (λ name. length name.items ≤ length signs.now) }
{
    match signs {
        [Sign::Plain(c), ..] if !c.is_ascii_alphabetic() => short_name(alloc, *c),
        _ => letters(alloc, signs),
    }
}

// Returns whether an accent may be put on a character.
fn takes_accent(c: char) -> bool
    ensures { result ≡ spec.takes_accent c }
{
    c.is_ascii_alphabetic() || !c.is_ascii()
}

// Returns the character on which an accent before these signs is put.
fn accented_letter(signs: &[Sign]) -> Option<char>
    ensures letter { result ≡ spec.accented_letter signs.now }
    ensures within { IfSome result (λ c. spec.accented_count signs.now ≤ length signs.now) }
{
    match signs {
        [Sign::Plain(c), ..] if takes_accent(*c) => Some(*c),
        [Sign::Composed(c), ..] => Some(*c),
        [Sign::Grouped(c), ..] => Some(*c),
        [Sign::Opening, Sign::Plain(c), Sign::Closing, ..] if takes_accent(*c) => Some(*c),
        _ => None,
    }
}

// Returns the number of signs of the character that gets an accent before these signs: three if an opening brace is before it, or else
// one.
fn accented_count(signs: &[Sign]) -> usize
    ensures { result ≡ spec.accented_count signs.now }
{
    match signs {
        [Sign::Opening, ..] => 3,
        _ => 1,
    }
}

// Returns the reduction of a sign that stays.
fn stays(sign: Sign) -> Reduction
    ensures { result ≡ spec.stays sign }
{
    Reduction { sign, taken: 0 }
}

// Returns a character with an accent, if there is one.
fn composed_with(alloc: Global, mark: char, c: Option<char>) -> Result<Option<char>, AllocError>
    ensures { IfOk result (λ found. found ≡ spec.composed_with mark c) }
{
    match c {
        Some(c) => composed(alloc, mark, c),
        None => Ok(None),
    }
}

// Returns the reduction of a sign that becomes a character and takes a number of signs with it, or stays if there is no character.
fn reduced_to(found: Option<char>, count: usize, sign: Sign) -> Reduction
    ensures { result ≡ spec.reduced_to found count sign }
{
    match found {
        Some(c) => Reduction {
            sign: Sign::Composed(c),
            taken: count,
        },
        None => stays(sign),
    }
}

// Returns the reduction of an accent before the signs after its name; `size` is the length of the name.
fn accent_reduced(
    alloc: Global,
    mark: char,
    size: usize,
    rest: &[Sign],
) -> Result<Reduction, AllocError>
    requires { size + length rest.now < 2 ^ 63 }
    ensures reduced { IfOk result (λ r. r ≡ spec.accent_reduced mark size rest.now) }
    ensures within { IfOk result (λ r. r.taken ≤ size + length rest.now) }
{
    let white = white_count(rest);
    let argument = &rest[white..];
    let letter = accented_letter(argument);
    if letter.is_none() {
        return Ok(stays(Sign::Command));
    }
    let found = composed_with(alloc, mark, letter)?;
    let count = accented_count(argument);
    Ok(reduced_to(found, size + white + count, Sign::Command))
}

// Returns whether signs begin with an argument in braces.
fn begins_group(signs: &[Sign]) -> bool
    ensures { result ≡ spec.first_sign_passes spec.is_group signs.now }
{
    matches!(signs, [Sign::Opening, ..] | [Sign::Grouped(_), ..])
}

// Returns whether signs begin with an empty pair of braces.
fn begins_empty(signs: &[Sign]) -> bool
    ensures empty { result ≡ spec.begins_empty signs.now }
{
    matches!(signs, [Sign::Opening, Sign::Closing, ..])
}

// Returns the number of signs that end the name of a letter: an empty pair of braces, or white space.
fn end_count(rest: &[Sign]) -> usize
    ensures count { result ≡ spec.end_count rest.now }
    ensures within { result ≤ length rest.now }
{
    match rest {
        [Sign::Opening, Sign::Closing, ..] => 2,
        _ => white_count(rest),
    }
}

// Returns the reduction of a command for a letter before the signs after its name; `size` is the length of the name.
fn letter_reduced(found: Option<char>, size: usize, rest: &[Sign]) -> Reduction
    requires { size + length rest.now < 2 ^ 63 }
    ensures reduced { result ≡ spec.letter_reduced found size rest.now }
    ensures within { result.taken ≤ size + length rest.now }
{
    if begins_group(rest) && !begins_empty(rest) {
        return stays(Sign::Command);
    }
    reduced_to(found, size + end_count(rest), Sign::Command)
}

// Returns the reduction of a command before signs.
fn command_reduced(alloc: Global, following: &[Sign]) -> Result<Reduction, AllocError>
    ensures reduced { IfOk result (λ r. r ≡ spec.reduced Command following.now) }
    ensures within { IfOk result (λ r. r.taken ≤ length following.now) }
{
    let name = command_name(alloc, following)?;
    let rest = &following[name.len()..];
    match accent_mark(&name) {
        Some(mark) => accent_reduced(alloc, mark, name.len(), rest),
        None => Ok(letter_reduced(named_letter(&name), name.len(), rest)),
    }
}

// Returns the reduction of an opening brace before signs.
fn group_reduced(following: &[Sign]) -> Reduction
    ensures reduced { result ≡ spec.group_reduced following.now }
    ensures within { result.taken ≤ length following.now }
{
    match following {
        [Sign::Composed(c), Sign::Closing, ..] => Reduction {
            sign: Sign::Grouped(*c),
            taken: 2,
        },
        _ => stays(Sign::Opening),
    }
}

// Returns the reduction of a sign before other signs.
fn reduced(alloc: Global, sign: Sign, following: &[Sign]) -> Result<Reduction, AllocError>
    ensures reduced { IfOk result (λ r. r ≡ spec.reduced sign following.now) }
    ensures within { IfOk result (λ r. r.taken ≤ length following.now) }
{
    match sign {
        Sign::Command => command_reduced(alloc, following),
        Sign::Opening => Ok(group_reduced(following)),
        _ => Ok(stays(sign)),
    }
}

/// Returns the signs with each command that becomes a character replaced by it. The only error is out of memory.
pub(crate) fn decoded(alloc: Global, signs: &[Sign]) -> Result<Vec<Sign>, AllocError>
    ensures { IfOk result (λ made. made.items ≡ spec.decoded signs.now) }
{
    let mut made = Vec::from_slice(alloc, signs)?;
    let mut start = signs.len();
    let mut at = signs.len();
    'signs: while at > 0 {
        let change = reduced(alloc, signs[at - 1], &made[start..])?;
        at -= 1;
        start = start + change.taken - 1;
        made[start] = change.sign;
    }
    Vec::from_slice(alloc, &made[start..])
}
