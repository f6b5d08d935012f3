//! Texts with LaTeX commands replaced: some by HTML tags, if these are requested. An unknown command without an argument is kept.
//!
//! A text is read once, character by character. `names` is a stack with the name of the command of each open brace, empty if the brace has
//! no command. `name` is the start of the name of a command, if one is being read. Most texts contain no commands and are copied.

ghost use Rattle.std.specs.Prelude.{◌≡◌, [], ◌++◌, OnOk, IfOk, encode_utf8, reverse};
ghost use Rattle.std.specs.List.{list_all};
ghost use Rattle.std.specs.Str.{chars};
ghost use Rattle.bib_csl.specs.Markup as spec;
ghost use Rattle.bib_csl.specs.Unmarked.{is_unmarked};

use crate::command_names::{goes_on, is_accent_name, is_space_name, opens_argument};
use crate::commands::{closing_tag, opening_tag, said_alone};
use bib_text::items::Items;
use bib_text::scanner::Scanner;
use bib_text::text::Text;
use std::alloc::{AllocError, Global};

// Appends a character, or a no-break space for a tilde.
#[tactic(auto, unfolding(crate::specs::Markup::untie))]
fn push_untied(out: &mut Text, c: char) -> Result<(), AllocError>
    ensures { OnOk result (out.new ≡ out.old ++ spec.untie c) }
{
    match c {
        '~' => out.push('\u{a0}'),
        _ => out.push(c),
    }
}

// Returns whether a byte is neither a backslash nor a brace nor a tilde.
fn is_unmarked_byte(byte: u8) -> bool
    ensures { result ≡ is_unmarked byte }
{
    !matches!(byte, b'\\' | b'{' | b'}' | b'~')
}

// Returns whether a text contains neither a backslash nor a brace nor a tilde.
fn is_unmarked(text: &str) -> bool
    ensures { result ≡ list_all is_unmarked text.now }
{
    text.as_bytes().iter().all(|byte| is_unmarked_byte(*byte))
}

// Appends a character of a name, or a space for a tilde.
#[tactic(auto, unfolding(crate::specs::Markup::loosen))]
fn push_loosened(out: &mut Text, c: char) -> Result<(), AllocError>
    ensures { OnOk result (out.new ≡ out.old ++ spec.loosen c) }
{
    match c {
        '~' => out.push(' '),
        _ => out.push(c),
    }
}

// Returns the text with spaces for tildes, character by character.
fn without_ties(alloc: Global, text: &str) -> Result<Text, AllocError>
    ensures { IfOk result (λ out. out ≡ spec.loosened (chars text.now)) }
{
    let mut out = Text::new(alloc);
    let mut scanner = Scanner::new(text);
    'text: while let Some(c) = scanner.eat() {
        push_loosened(&mut out, c)?;
    }
    Ok(out)
}

/// Returns the text with spaces for tildes. The only error is out of memory.
pub fn loosened(alloc: Global, text: Text) -> Result<Text, AllocError>
    ensures { IfOk result (λ out. out ≡ spec.loosened (chars text)) }
{
    if is_unmarked(text.as_str()) {
        return Ok(text);
    }
    without_ties(alloc, text.as_str())
}

// Appends a command as it is: its backslash and its name.
#[tactic(auto, unfolding(crate::specs::Markup::as_command))]
fn push_command(out: &mut Text, name: &str) -> Result<(), AllocError>
    ensures { OnOk result (out.new ≡ out.old ++ spec.as_command name.now) }
{
    out.push_str("\\")?;
    out.push_str(name)
}

// Appends the text for a command and the opening brace after it.
#[tactic(auto, unfolding(crate::specs::Markup::begun))]
fn push_begun(out: &mut Text, has_tags: bool, name: &str) -> Result<(), AllocError>
    ensures { OnOk result (out.new ≡ out.old ++ spec.begun has_tags name.now) }
{
    match opening_tag(has_tags, name) {
        Some(tag) => out.push_str(tag),
        None => {
            push_command(out, name)?;
            out.push_str("{")
        }
    }
}

// Appends the text for the closing brace of the innermost open brace.
#[tactic(auto, unfolding(crate::specs::Markup::ended))]
fn push_ended(out: &mut Text, has_tags: bool, names: &[Text]) -> Result<(), AllocError>
    ensures { OnOk result (out.new ≡ out.old ++ spec.ended has_tags (reverse names.now)) }
{
    let Some(name) = names.last() else {
        return out.push_str("}");
    };
    match closing_tag(has_tags, name.as_str()) {
        Some(tag) => out.push_str(tag),
        None => out.push_str("}"),
    }
}

// Returns whether the innermost open brace is that of `\url`, in which a tilde isn't a no-break space.
#[tactic(auto, unfolding(crate::specs::Markup::is_address))]
fn is_address(names: &[Text]) -> bool
    ensures { result ≡ spec.is_address (reverse names.now) }
{
    match names.last() {
        Some(name) => name.as_str() == "url",
        None => false,
    }
}

// Appends a character, or a no-break space for a tilde, unless the innermost open brace is that of `\url`.
#[tactic(auto, unfolding(crate::specs::Markup::shown_in))]
fn push_shown(out: &mut Text, names: &[Text], c: char) -> Result<(), AllocError>
    ensures { OnOk result (out.new ≡ out.old ++ spec.shown_in (reverse names.now) c) }
{
    if is_address(names) {
        return out.push(c);
    }
    push_untied(out, c)
}

// Appends the text for a character outside of the names of commands.
#[tactic(auto, unfolding(crate::specs::Markup::said_plainly))]
fn push_plainly(out: &mut Text, has_tags: bool, names: &[Text], c: char) -> Result<(), AllocError>
    ensures { OnOk result (out.new ≡ out.old ++ spec.said_plainly has_tags (reverse names.now) c) }
{
    match c {
        '\\' => Ok(()),
        '}' => push_ended(out, has_tags, names),
        _ => push_shown(out, names, c),
    }
}

// Opens or closes a brace outside of the names of commands.
#[tactic(auto, unfolding(crate::specs::Markup::open_plainly))]
fn open_plainly(alloc: Global, names: &mut Items<Text>, c: char) -> Result<(), AllocError>
    ensures { OnOk result (reverse names.new ≡ spec.open_plainly (reverse names.old) c) }
{
    match c {
        '{' => Ok(names.push(Text::new(alloc))?),
        '}' => {
            let _name = names.pop();
            Ok(())
        }
        _ => Ok(()),
    }
}

// Appends the text for a character after a command without an argument: nothing for the space that ends the command.
#[tactic(auto, unfolding(crate::specs::Markup::after_sign))]
fn push_after_sign(
    out: &mut Text,
    has_tags: bool,
    names: &[Text],
    c: char,
) -> Result<(), AllocError>
    ensures { OnOk result (out.new ≡ out.old ++ spec.after_sign has_tags (reverse names.now) c) }
{
    if c == ' ' {
        return Ok(());
    }
    push_plainly(out, has_tags, names, c)
}

// Appends a command that has no text of its own, and the text for the character after it.
#[tactic(auto, unfolding(crate::specs::Markup::said_as_it_is))]
fn push_as_it_is(
    out: &mut Text,
    has_tags: bool,
    names: &[Text],
    name: &str,
    c: char,
) -> Result<(), AllocError>
    ensures { OnOk result (out.new ≡ out.old ++ spec.said_as_it_is has_tags (reverse names.now) name.now c) }
{
    push_command(out, name)?;
    push_plainly(out, has_tags, names, c)
}

// Appends the text for a command without a brace, and for the character after it.
#[tactic(auto, unfolding(crate::specs::Markup::said_after))]
fn push_after(
    out: &mut Text,
    has_tags: bool,
    names: &[Text],
    name: &str,
    c: char,
) -> Result<(), AllocError>
    ensures { OnOk result (out.new ≡ out.old ++ spec.said_after has_tags (reverse names.now) name.now c) }
{
    match said_alone(name) {
        Some(text) => {
            out.push_str(text)?;
            push_after_sign(out, has_tags, names, c)
        }
        None => push_as_it_is(out, has_tags, names, name, c),
    }
}

// Appends the text for a backslash, a space and the character after them: one space if that is another space. Otherwise, appends the
// backslash, the space and the text for the character.
#[tactic(auto, unfolding(crate::specs::Markup::said_after_space))]
fn push_after_space(
    out: &mut Text,
    has_tags: bool,
    names: &[Text],
    c: char,
) -> Result<(), AllocError>
    ensures { OnOk result (out.new ≡ out.old ++ spec.said_after_space has_tags (reverse names.now) c) }
{
    if c == ' ' {
        return out.push_str(" ");
    }
    push_as_it_is(out, has_tags, names, " ", c)
}

// Appends a letter and the accent on it.
fn push_accented(out: &mut Text, c: char, accent: &str) -> Result<(), AllocError>
    ensures { OnOk result (out.new ≡ out.old ++ (encode_utf8 c ++ accent.now)) }
{
    out.push(c)?;
    out.push_str(accent)
}

// Appends the text for a name that ends before a character other than the brace of its argument, and for that character.
#[tactic(auto, unfolding(crate::specs::Markup::said_at_end))]
fn push_at_end(
    out: &mut Text,
    has_tags: bool,
    names: &[Text],
    name: &str,
    c: char,
) -> Result<(), AllocError>
    ensures { OnOk result (out.new ≡ out.old ++ spec.said_at_end has_tags (reverse names.now) name.now c) }
{
    if is_space_name(name) {
        return push_after_space(out, has_tags, names, c);
    }
    if is_accent_name(name) && c == 'i' {
        return push_accented(out, c, name);
    }
    push_after(out, has_tags, names, name, c)
}

// Appends the text for a character, and for the command before it if the character ends its name.
#[tactic(auto, unfolding(crate::specs::Markup::said))]
fn push_said(
    out: &mut Text,
    has_tags: bool,
    names: &[Text],
    name: &Option<Text>,
    c: char,
) -> Result<(), AllocError>
    ensures { OnOk result (out.new ≡ out.old ++ spec.said has_tags (reverse names.now) name.now c) }
{
    let Some(name) = name else {
        return push_plainly(out, has_tags, names, c);
    };
    if goes_on(name.as_str(), c) {
        return Ok(());
    }
    if opens_argument(name.as_str(), c) {
        return push_begun(out, has_tags, name.as_str());
    }
    push_at_end(out, has_tags, names, name.as_str(), c)
}

// Opens or closes a brace. `name` is the name of the command before it, if there is one.
#[tactic(auto, unfolding(crate::specs::Markup::open_after))]
fn open_after(
    alloc: Global,
    names: &mut Items<Text>,
    name: &Option<Text>,
    c: char,
) -> Result<(), AllocError>
    ensures { OnOk result (reverse names.new ≡ spec.open_after (reverse names.old) name.now c) }
{
    let Some(name) = name else {
        return open_plainly(alloc, names, c);
    };
    if goes_on(name.as_str(), c) {
        return Ok(());
    }
    if opens_argument(name.as_str(), c) {
        return Ok(names.push(name.clone()?)?);
    }
    open_plainly(alloc, names, c)
}

// Returns an empty name if a character is a backslash, which begins a command.
#[tactic(auto, unfolding(crate::specs::Markup::begins_name))]
fn begins_name(alloc: Global, c: char) -> Option<Text>
    ensures { result ≡ spec.begins_name c }
{
    if c == '\\' {
        return Some(Text::new(alloc));
    }
    None
}

// Returns the start of the name of a command that is being read after a character, if there is one.
#[tactic(auto, unfolding(crate::specs::Markup::name_after))]
fn name_after(alloc: Global, name: Option<Text>, c: char) -> Result<Option<Text>, AllocError>
    ensures { IfOk result (λ next. next ≡ spec.name_after name c) }
{
    let Some(mut name) = name else {
        return Ok(begins_name(alloc, c));
    };
    if goes_on(name.as_str(), c) {
        name.push(c)?;
        return Ok(Some(name));
    }
    if opens_argument(name.as_str(), c) {
        return Ok(None);
    }
    Ok(begins_name(alloc, c))
}

// Appends the closing tags of all open braces.
fn push_all_ended(out: &mut Text, has_tags: bool, names: Items<Text>) -> Result<(), AllocError>
    ensures { OnOk result (out.new ≡ out.old ++ spec.all_ended has_tags (reverse names)) }
{
    let mut open = names;
    'open: while let Some(name) = open.pop() {
        out.push_str(closing_tag(has_tags, name.as_str()).unwrap_or(""))?;
    }
    Ok(())
}

// Appends the text at the end: that for the command that is being read, and the closing tags of all open braces.
#[tactic(auto, unfolding(crate::specs::Markup::said_last))]
fn push_last(
    out: &mut Text,
    has_tags: bool,
    names: Items<Text>,
    name: &Option<Text>,
) -> Result<(), AllocError>
    ensures { OnOk result (out.new ≡ out.old ++ spec.said_last has_tags (reverse names) name.now) }
{
    let Some(name) = name else {
        return push_all_ended(out, has_tags, names);
    };
    match said_alone(name.as_str()) {
        Some(text) => out.push_str(text)?,
        None => push_command(out, name.as_str())?,
    }
    push_all_ended(out, has_tags, names)
}

// Returns the text with its commands replaced, with HTML tags or without them, character by character.
#[tactic(auto, unfolding(crate::specs::Markup::marked_text))]
fn without_commands(alloc: Global, has_tags: bool, text: &str) -> Result<Text, AllocError>
    ensures { IfOk result (λ out. out ≡ spec.marked_text has_tags (chars text.now)) }
{
    let mut out = Text::new(alloc);
    let mut names = Items::new(alloc);
    let mut name = None;
    let mut scanner = Scanner::new(text);
    'text: while let Some(c) = scanner.eat() {
        push_said(&mut out, has_tags, names.as_slice(), &name, c)?;
        open_after(alloc, &mut names, &name, c)?;
        name = name_after(alloc, name, c)?;
    }
    push_last(&mut out, has_tags, names, &name)?;
    Ok(out)
}

// Returns the text with its commands replaced, with HTML tags or without them.
pub(crate) fn marked_text(alloc: Global, has_tags: bool, text: Text) -> Result<Text, AllocError>
    ensures { IfOk result (λ out. out ≡ spec.marked_text has_tags (chars text)) }
{
    if is_unmarked(text.as_str()) {
        return Ok(text);
    }
    without_commands(alloc, has_tags, text.as_str())
}
