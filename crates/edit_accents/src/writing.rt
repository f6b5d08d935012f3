//! The text of signs.

ghost use Rattle.std.specs.Prelude.{◌≡◌, ◌∷◌, [], IfOk, OnOk, encode_utf8_all};
ghost use Rattle.std.specs.String.{string_bytes};
ghost use Rattle.bib_chunks.specs.Writing.{Writes};
ghost use Rattle.bib_text.specs.Characters as char;
ghost use Rattle.edit_accents.specs.declared.signs.Sign.TheVariants.{Grouped};
ghost use Rattle.edit_accents.specs.declared.writing.Spot.TheVariants.{Free};
ghost use Rattle.edit_accents.specs.Accents as spec;

use crate::commands::is_accent_sign;
use crate::signs::Sign;
use std::alloc::{AllocError, Global};

/// The place in a text before a sign.
#[derive(Debug, Clone, Copy, PartialEq, Eq)]
pub enum Spot {
    /// No command directly before it can take the next sign as its argument.
    Free,
    /// It is after the backslash of a command.
    Begun,
    /// It is after a letter in the name of a command.
    Word,
    /// It is after the name of an accent that is no letter, or after white space after the name of a command.
    Waits,
    /// It is after a closing brace, a star or a closing bracket, after which a command may have an argument.
    Closed,
}

// Returns the spot after a character for which it is neither `Word` nor `Waits`.
fn spot_beside_names(c: char) -> Spot
    ensures { result ≡ spec.spot_beside_names c }
{
    if c == '*' || c == ']' {
        Spot::Closed
    } else {
        Spot::Free
    }
}

// Returns the spot after a character that follows the backslash of a command, if `is_first`, or a letter of its name.
fn spot_in_name(is_first: bool, c: char) -> Spot
    ensures { result ≡ spec.spot_in_name is_first c }
{
    if c.is_ascii_alphabetic() {
        return Spot::Word;
    }
    let waits = if is_first {
        is_accent_sign(c)
    } else {
        c.is_whitespace()
    };
    if waits {
        Spot::Waits
    } else {
        spot_beside_names(c)
    }
}

// Returns the spot after a plain character.
fn spot_after_plain(spot: Spot, c: char) -> Spot
    ensures { result ≡ spec.spot_after_plain spot c }
{
    match spot {
        Spot::Begun => spot_in_name(true, c),
        Spot::Word => spot_in_name(false, c),
        Spot::Waits if c.is_whitespace() => Spot::Waits,
        _ => spot_beside_names(c),
    }
}

// Returns whether a command before a spot may take the next character as its argument.
fn awaits_character(spot: Spot) -> bool
    ensures { result ≡ spec.awaits_character spot }
{
    matches!(spot, Spot::Word | Spot::Waits)
}

// Returns the spot after a sign.
fn spot_after(spot: Spot, sign: Sign) -> Spot
    ensures { result ≡ spec.spot_after spot sign }
{
    match sign {
        Sign::Command => Spot::Begun,
        Sign::Opening => Spot::Free,
        Sign::Composed(_) => if awaits_character(spot) {
            Spot::Closed
        } else {
            Spot::Free
        },
        Sign::Closing => Spot::Closed,
        Sign::Plain(c) => spot_after_plain(spot, c),
        Sign::Grouped(_) => if spot == Spot::Free {
            Spot::Free
        } else {
            Spot::Closed
        },
    }
}

// Appends a character in braces.
fn push_grouped(text: &mut String, c: char) -> Result<(), AllocError>
    ensures { OnOk result (Writes text.old text.new (char.open_brace ∷ c ∷ char.close_brace ∷ [])) }
{
    text.push('{')?;
    text.push(c)?;
    text.push('}')?;
    Ok(())
}

// Appends a composed character at a spot.
fn push_composed(text: &mut String, spot: Spot, c: char) -> Result<(), AllocError>
    ensures { OnOk result (Writes text.old text.new (spec.composed_text spot c)) }
{
    if awaits_character(spot) {
        return push_grouped(text, c);
    }
    text.push(c)?;
    Ok(())
}

// Appends a grouped character at a spot.
fn push_group(text: &mut String, spot: Spot, c: char) -> Result<(), AllocError>
    ensures { OnOk result (Writes text.old text.new (spec.written_sign spot (Grouped c))) }
{
    if spot != Spot::Free {
        return push_grouped(text, c);
    }
    text.push(c)?;
    Ok(())
}

// Appends the text of a sign at a spot.
fn push_sign(text: &mut String, spot: Spot, sign: Sign) -> Result<(), AllocError>
    ensures { OnOk result (Writes text.old text.new (spec.written_sign spot sign)) }
{
    match sign {
        Sign::Command => text.push('\\')?,
        Sign::Opening => text.push('{')?,
        Sign::Closing => text.push('}')?,
        Sign::Plain(c) => text.push(c)?,
        Sign::Composed(c) => push_composed(text, spot, c)?,
        Sign::Grouped(c) => push_group(text, spot, c)?,
    }
    Ok(())
}

/// Returns the text of signs. The only error is out of memory.
pub(crate) fn written(alloc: Global, signs: &[Sign]) -> Result<String, AllocError>
    ensures { IfOk result (λ text. string_bytes text ≡ encode_utf8_all (spec.written Free signs.now)) }
{
    let mut text = String::new(alloc);
    let mut spot = Spot::Free;
    'signs: for sign in signs {
        push_sign(&mut text, spot, *sign)?;
        spot = spot_after(spot, *sign);
    }
    Ok(text)
}
