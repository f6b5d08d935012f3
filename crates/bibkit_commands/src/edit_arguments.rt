//! Parses the arguments of the commands that edit a file.

ghost use Rattle.std.specs.Prelude.{◌≡◌, ◌++◌, ◌∷◌, [], codes, find, map, Some, None, true, IfOk, OnOk};
ghost use Rattle.std.specs.Prelude.{is_some, option_and_then, option_map};
ghost use Rattle.bib_recode.specs.Encodings.{encoding_named};
ghost use Rattle.bib_recode.specs.LineEnds.{line_ends_named};
ghost use Rattle.bib_text.specs.Enums.{value_named};
ghost use Rattle.bibkit_core.specs.Conditions.{before_end};
ghost use Rattle.bibkit_commands.specs.Arguments.{arguments_of, argument_value, argument_values};
ghost use Rattle.bibkit_commands.specs.Commands.{editing_command_named};
ghost use Rattle.bibkit_commands.specs.EditsAsked as spec;
ghost use Rattle.bibkit_commands.specs.EditsAsked.{change_by, change_for, change_of_field, is_unpaired, unset_change};
ghost use Rattle.bibkit_commands.specs.EditsAsked.{IsUnpairedIn, changes_of};
ghost use Rattle.bibkit_commands.specs.EditsAsked.{AreChangesOf, AreEditsBy, AreRemovalsOf, AreSetsOf, AreStringsOf, IsRecodeOf, IsRekeyOf};
ghost use Rattle.bibkit_commands.specs.EditsAsked.{field_in_word, forms, pair_in, removed_by, set_by, unset_by, value_in};

use crate::argument_values::{given_texts, has_flag, number, text, texts, value};
use crate::edits::Edits;
use crate::recoding::Recoding;
use crate::rekeying::Rekeying;
use crate::selecting::SelectedEdit;
use bib_recode::encoding::Encoding;
use bib_recode::line_ends::LineEnds;
use bib_tables::months::Month;
use bibkit_edits::edit::Edit;
use clap::ArgMatches;
use edit_accents::recoding::Form;
use edit_entries::field_edits::FieldEdit;
use edit_entries::field_value::FieldValue;
use std::alloc::{AllocError, Global};

// Returns whether a field with this name and value gets the abbreviation of a month.
fn is_month(name: &str, value: &str) -> bool
    ensures { result ≡ spec.is_bare_month name.now value.now }
{
    name.eq_ignore_ascii_case("month") && Month::from_abbreviation(value).is_some()
}

// Returns the texts of a word before and after its first equals sign, or `None` for a word without one.
fn pair_of(word: &str) -> Option<(&str, &str)>
    ensures { option_map (λ pair. (pair.0.now, pair.1.now)) result ≡ pair_in word.now }
{
    word.split_once('=')
}

// Returns the name of a field without the colon at its end, or `None` if no colon is there.
fn before_colon(name: &str) -> Option<&str>
    ensures { option_map (λ name. name.now) result ≡ before_end (codes ":") name.now }
{
    name.strip_suffix(":")
}

// Returns the name of a field and its value for the texts before and after an equals sign. With a colon before the equals sign, the value
// is written without braces, and so is the abbreviation of a month in the field `month`.
fn field_from<'a>(name: &'a str, value: &'a str) -> (&'a str, FieldValue<'a>)
    ensures { (result.0.now, value_in result.1) ≡ spec.field_from (name.now, value.now) }
{
    match before_colon(name) {
        Some(name) => (name, FieldValue::Bare(value)),
        None if is_month(name, value) => (name, FieldValue::Bare(value)),
        None => (name, FieldValue::Text(value)),
    }
}

// Returns the name and the value of a word FIELD=VALUE or FIELD:=VALUE, or `None` for a word without `=`.
fn field_of<'a>(word: &'a str) -> Option<(&'a str, FieldValue<'a>)>
    ensures { option_map (λ f. (f.0.now, value_in f.1)) result ≡ field_in_word word.now }
{
    let (name, value) = pair_of(word)?;
    Some(field_from(name, value))
}

// Appends the edit that sets a field of an entry as a word says. Returns whether the word has an equals sign, and appends nothing if it has
// none.
fn push_set<'a>(edits: &mut Vec<Edit<'a>>, key: &'a str, word: &'a str) -> Result<bool, AllocError>
    ensures pair { IfOk result (λ is. is ≡ is_some (field_in_word word.now)) }
    ensures appended { IfOk result (λ is. is ≡ true → map set_by edits.new.items
        ≡ map set_by edits.old.items ++ option_map (λ f. (key.now, f)) (field_in_word word.now) ∷ []) }
{
    match field_of(word) {
        Some((name, value)) => {
            edits.push(Edit::Set { key, name, value })?;
            Ok(true)
        }
        None => Ok(false),
    }
}

// Returns the edits that set fields of an entry. Each word is FIELD=VALUE or FIELD:=VALUE. Returns `NoPair` for the first word without `=`.
fn set_fields<'a>(alloc: Global, key: &'a str, words: &[&'a str]) -> Result<Edits<'a>, AllocError>
    ensures { IfOk result (AreSetsOf key.now (map (λ word. word.now) words.now)) }
{
    let mut edits = Vec::new(alloc);
    'words: for word in words {
        if !push_set(&mut edits, key, *word)? {
            return Ok(Edits::NoPair {
                word: *word,
                pair: "FIELD=VALUE",
            });
        }
    }
    Ok(Edits::These(edits))
}

// Returns the edits that remove the fields with these names from an entry.
fn unset_fields<'a>(
    alloc: Global,
    key: &'a str,
    names: &[&'a str],
) -> Result<Vec<Edit<'a>>, AllocError>
    ensures { IfOk result (λ edits. map unset_by edits.items ≡ map (λ name. Some (key.now, name)) (map (λ name. name.now) names.now)) }
{
    let mut edits = Vec::new(alloc);
    'names: for name in names {
        edits.push(Edit::Unset { key, name: *name })?;
    }
    Ok(edits)
}

// Returns the edits that remove the entries with these keys.
fn remove_entries<'a>(alloc: Global, keys: &[&'a str]) -> Result<Vec<Edit<'a>>, AllocError>
    ensures { IfOk result (λ edits. map removed_by edits.items ≡ map Some (map (λ key. key.now) keys.now)) }
{
    let mut edits = Vec::new(alloc);
    'keys: for key in keys {
        edits.push(Edit::Remove { key: *key })?;
    }
    Ok(edits)
}

// The options of `edit` whose words contain `=`, in the order in which their edits are made. The edits of `--unset` follow.
static FIELD_OPTIONS: [&str; 3] = ["rename", "set", "add"];

// Returns the edit of an option of `edit` for its word, or `None` for a word without `=`.
fn field_edit<'a>(option: &str, word: &'a str) -> Option<FieldEdit<'a>>
    ensures { option_map change_of_field result ≡ change_for option.now word.now }
{
    if option == "rename" {
        let (old, new) = pair_of(word)?;
        return Some(FieldEdit::Rename { old, new });
    }
    let (name, value) = field_of(word)?;
    if option == "set" {
        Some(FieldEdit::Set { name, value })
    } else {
        Some(FieldEdit::Add { name, value })
    }
}

// Appends the edit of an option of `edit` for its word. Returns whether the word has an equals sign, and appends nothing if it has none.
fn push_field_edit<'a>(
    edits: &mut Vec<SelectedEdit<'a>>,
    option: &str,
    word: &'a str,
) -> Result<bool, AllocError>
    ensures pair { IfOk result (λ is. is ≡ is_some (change_for option.now word.now)) }
    ensures appended { IfOk result (λ is. is ≡ true → map change_by edits.new.items
        ≡ map change_by edits.old.items ++ change_for option.now word.now ∷ []) }
{
    match field_edit(option, word) {
        Some(edit) => {
            edits.push(SelectedEdit::Field(edit))?;
            Ok(true)
        }
        None => Ok(false),
    }
}

// Adds the edits of the words of an option of `edit`. Returns the first word without `=`, if there is one, and then adds no edits of the
// words after it.
fn push_field_edits<'a>(
    edits: &mut Vec<SelectedEdit<'a>>,
    option: &str,
    words: &[&'a str],
) -> Result<Option<&'a str>, AllocError>
    ensures first { IfOk result (λ word. option_map (λ word. word.now) word
        ≡ find (is_unpaired option.now) (map (λ word. word.now) words.now)) }
    ensures made { IfOk result (λ word. word ≡ None → map change_by edits.new.items
        ≡ map change_by edits.old.items ++ map (change_for option.now) (map (λ word. word.now) words.now)) }
{
    'words: for word in words {
        if !push_field_edit(edits, option, *word)? {
            return Ok(Some(*word));
        }
    }
    Ok(None)
}

// Adds the edits that remove the fields with these names.
fn push_unset_edits<'a>(
    edits: &mut Vec<SelectedEdit<'a>>,
    names: &[&'a str],
) -> Result<(), AllocError>
    ensures { OnOk result (map change_by edits.new.items
        ≡ map change_by edits.old.items ++ map unset_change (map (λ name. name.now) names.now)) }
{
    'names: for name in names {
        edits.push(SelectedEdit::Unset(*name))?;
    }
    Ok(())
}

// Returns the edits of `remove`: they remove the entries that `--where` selects, or without it the entries with the keys.
fn removal_edits<'a>(alloc: Global, matches: &ArgMatches<'a>) -> Result<Edits<'a>, AllocError>
    ensures { IfOk result (AreRemovalsOf (arguments_of matches.now)) }
{
    let conditions = texts(alloc, matches, "where")?;
    if !conditions.is_empty() {
        return Ok(Edits::Selected {
            conditions,
            edits: vec![in alloc; SelectedEdit::Remove]?,
        });
    }
    let keys = texts(alloc, matches, "KEYS")?;
    Ok(Edits::These(remove_entries(alloc, &keys)?))
}

// Adds the edits of an option of `edit`, as `push_field_edits` does.
fn push_option<'a>(
    alloc: Global,
    edits: &mut Vec<SelectedEdit<'a>>,
    matches: &ArgMatches<'a>,
    option: &str,
) -> Result<Option<&'a str>, AllocError>
    ensures first { IfOk result (λ word. option_map (λ word. word.now) word
        ≡ find (is_unpaired option.now) (argument_values (arguments_of matches.now) option.now)) }
    ensures made { IfOk result (λ word. word ≡ None → map change_by edits.new.items
        ≡ map change_by edits.old.items ++ map (change_for option.now) (argument_values (arguments_of matches.now) option.now)) }
{
    let words = texts(alloc, matches, option)?;
    push_field_edits(edits, option, &words)
}

// Returns the form that a word of an option must have, as help writes it.
fn pair_name(option: &str) -> &'static str
    ensures { result.now ≡ spec.pair_name option.now }
{
    if option == "rename" {
        "OLD=NEW"
    } else {
        "FIELD=VALUE"
    }
}

// Adds the edits of options of `edit` in turn. Returns the first word without `=`, if there is one, with the form that a word of its option
// must have, and then adds no edits of the words after it.
fn push_options<'a>(
    alloc: Global,
    edits: &mut Vec<SelectedEdit<'a>>,
    matches: &ArgMatches<'a>,
    options: &[&str],
) -> Result<Option<(&'a str, &'static str)>, AllocError>
    ensures first { IfOk result (IsUnpairedIn (arguments_of matches.now) (map (λ option. option.now) options.now)) }
    ensures made { IfOk result (λ word. word ≡ None → map change_by edits.new.items
        ≡ map change_by edits.old.items ++ changes_of (arguments_of matches.now) (map (λ option. option.now) options.now)) }
{
    'options: for option in options {
        if let Some(word) = push_option(alloc, edits, matches, *option)? {
            return Ok(Some((word, pair_name(*option))));
        }
    }
    Ok(None)
}

// Returns the edits of `edit`.
fn selected_edits<'a>(alloc: Global, matches: &ArgMatches<'a>) -> Result<Edits<'a>, AllocError>
    ensures { IfOk result (AreChangesOf (arguments_of matches.now)) }
{
    let mut edits = Vec::new(alloc);
    if let Some((word, pair)) = push_options(alloc, &mut edits, matches, &FIELD_OPTIONS)? {
        return Ok(Edits::NoPair { word, pair });
    }
    push_unset_edits(&mut edits, &texts(alloc, matches, "unset")?)?;
    Ok(Edits::Selected {
        conditions: texts(alloc, matches, "where")?,
        edits,
    })
}

// The pattern of keys without `--pattern`.
const PATTERN: &str = "{author}{year}{title:1}";

// Returns the edits of `rekey`.
fn rekeying<'a>(matches: &ArgMatches<'a>) -> Edits<'a>
    ensures { IsRekeyOf (arguments_of matches.now) result }
{
    Edits::Rekey(Rekeying {
        pattern: value(matches, "pattern").unwrap_or(PATTERN),
        has_map: has_flag(matches, "map"),
        is_check: has_flag(matches, "check"),
    })
}

// Returns the form of accents with a name.
fn accents_form(name: &str) -> Option<Form>
    ensures { result ≡ value_named forms name.now }
{
    match name {
        "characters" => Some(Form::Characters),
        "commands" => Some(Form::Commands),
        _ => None,
    }
}

// Returns the encoding that `--from` names, if there is one.
fn encoding_asked(matches: &ArgMatches<'_>) -> Option<Encoding>
    ensures { result ≡ option_and_then encoding_named (argument_value (arguments_of matches.now) (codes "from")) }
{
    Encoding::from_name(value(matches, "from")?)
}

// Returns the line ends that `--line-ends` names, if there are any.
fn line_ends_asked(matches: &ArgMatches<'_>) -> Option<LineEnds>
    ensures { result ≡ option_and_then line_ends_named (argument_value (arguments_of matches.now) (codes "line-ends")) }
{
    LineEnds::from_name(value(matches, "line-ends")?)
}

// Returns the form of accents that `--accents` names, if there is one.
fn accents_asked(matches: &ArgMatches<'_>) -> Option<Form>
    ensures { result ≡ option_and_then (value_named forms) (argument_value (arguments_of matches.now) (codes "accents")) }
{
    accents_form(value(matches, "accents")?)
}

// Returns the edits of `recode`.
fn recoding<'a>(matches: &ArgMatches<'a>) -> Edits<'a>
    ensures { IsRecodeOf (arguments_of matches.now) result }
{
    Edits::Recode(Recoding {
        from: encoding_asked(matches),
        line_ends: line_ends_asked(matches),
        has_mark: has_flag(matches, "bom"),
        accents: accents_asked(matches),
    })
}

// Returns the edits of `strings`.
fn strings_edits<'a>(alloc: Global, matches: &ArgMatches<'a>) -> Result<Edits<'a>, AllocError>
    ensures { IfOk result (AreStringsOf (arguments_of matches.now)) }
{
    if has_flag(matches, "expand") {
        return Ok(Edits::These(vec![in alloc; Edit::Expand]?));
    }
    Ok(Edits::Collect {
        fields: given_texts(alloc, matches, "fields")?,
        at_least: number(matches, "at-least").unwrap_or(2),
    })
}

// Returns the edits of `set`.
fn set_edits<'a>(alloc: Global, matches: &ArgMatches<'a>) -> Result<Edits<'a>, AllocError>
    ensures { IfOk result (spec.AreSetEditsOf (arguments_of matches.now)) }
{
    let words = texts(alloc, matches, "FIELD=VALUE")?;
    set_fields(alloc, text(matches, "KEY"), &words)
}

// Returns the edits of `unset`.
fn unset_edits<'a>(alloc: Global, matches: &ArgMatches<'a>) -> Result<Edits<'a>, AllocError>
    ensures { IfOk result (spec.AreUnsetEditsOf (arguments_of matches.now)) }
{
    let names = texts(alloc, matches, "FIELDS")?;
    Ok(Edits::These(unset_fields(alloc, text(matches, "KEY"), &names)?))
}

// Returns the edit of `rename`.
fn rename_edits<'a>(alloc: Global, matches: &ArgMatches<'a>) -> Result<Edits<'a>, AllocError>
    ensures { IfOk result (spec.IsRenameOf (arguments_of matches.now)) }
{
    let old = text(matches, "OLD");
    let new = text(matches, "NEW");
    Ok(Edits::These(vec![in alloc; Edit::Rename { old, new }]?))
}

/// Returns the edits of the command `name`, which edits a file.
pub fn edits_of<'a>(
    alloc: Global,
    name: &str,
    matches: &ArgMatches<'a>,
) -> Result<Edits<'a>, AllocError>
    ensures { IfOk result (AreEditsBy (editing_command_named name.now) (arguments_of matches.now)) }
{
    match name {
        "set" => set_edits(alloc, matches),
        "unset" => unset_edits(alloc, matches),
        "remove" => removal_edits(alloc, matches),
        "strings" => strings_edits(alloc, matches),
        "edit" => selected_edits(alloc, matches),
        "rekey" => Ok(rekeying(matches)),
        "recode" => Ok(recoding(matches)),
        "rename" => rename_edits(alloc, matches),
        _ => Ok(Edits::AddInput),
    }
}
