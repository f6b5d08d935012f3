//! Laws of typed values: how each type is parsed and written, which values are kept, and which kinds of errors parsing has. A
//! value is kept if its type guarantees that the chunks written for it parse back to it. The functions do nothing: each
//! states theorems about the definitions, which are proved as the clauses of its contract.

ghost use Rattle.std.specs.Prelude.{◌≡◌, ◌⊎◌, ℕ, ℤ, List, Some, None, map, string_bytes};
ghost use Rattle.std.specs.declared.ops.Range.{Range as ARange};
ghost use Rattle.bib_chunks.specs.Cuts.{and_list};
ghost use Rattle.bib_chunks.specs.Separated.{parts_written};
ghost use Rattle.bib_chunks.specs.Values;
ghost use Rattle.bib_chunks.specs.Values.{Value};
ghost use Rattle.bib_chunks.specs.declared.chunk.Chunk.TheVariants.{Verbatim};
ghost use Rattle.bib_dates.specs.Chunks.{date_read, date_written};
ghost use Rattle.bib_dates.specs.Kept.{IsKeptDate};
ghost use Rattle.bib_dates.specs.Readings.{IsDateKind};
ghost use Rattle.bib_dates.specs.declared.date.Date.{Date as ADate};
ghost use Rattle.bib_people.specs.Kept.{ArePeople};
ghost use Rattle.bib_people.specs.People.{people_of, people_chunks};
ghost use Rattle.bib_people.specs.declared.person.Person.{Person as APerson};
ghost use Rattle.bib_tables.specs.declared.type_error.TypeErrorKind.{TypeErrorKind as AKind};
ghost use Rattle.bib_tables.specs.declared.type_error.TypeErrorKind.TheVariants.{InvalidNumber, MissingNumber, UnknownGender, UnknownLangId, UnknownPagination};
ghost use Rattle.bib_tables.specs.declared.types.EditorType.{EditorType as ARole};
ghost use Rattle.bib_tables.specs.declared.types.Gender.{Gender as AGender};
ghost use Rattle.bib_tables.specs.declared.types.Pagination.{Pagination as AScheme};
ghost use Rattle.bib_tables.specs.declared.types.lang.Language.{Language as ALanguage};
ghost use Rattle.bib_values.specs.Enumerations.{IsNamed, pagination_read, pagination_written, gender_read, gender_written, editor_type_read, editor_type_written, language_read, language_written};
ghost use Rattle.bib_values.specs.Lists.{StringsKept, strings_read, strings_written};
ghost use Rattle.bib_values.specs.Numbers.{number_read, number_written};
ghost use Rattle.bib_values.specs.Permissive.{Permissive, LanguagesKept, permissive, permissive_written, languages_read, languages_written};
ghost use Rattle.bib_values.specs.Ranges.{RangesKept, range_read, range_written, ranges_read, ranges_written};
ghost use Rattle.bib_typed.specs.Typed.{permissive_meaning};
ghost use Rattle.bib_typed.specs.declared.typed.PermissiveType.TheVariants.{Typed, Chunks as AsTheyStand};

use crate::typed::{PermissiveType, Type};
use bib_chunks::chunk::Chunks;
use bib_dates::date::Date;
use bib_people::person::Person;
use bib_tables::types::lang::Language;
use bib_tables::types::{EditorType, Gender, Pagination};
use std::ops::Range;

/// States that a `String` is parsed as the plain text of its chunks, and written as one verbatim chunk.
pub fn texts_are_read_and_written(string: &String)
    ensures meaning { ⟦<String as Type>⟧.meaning string.now ≡ string_bytes string.now }
    ensures reads { (chunks : Value) → ⟦<String as Type>⟧.reads chunks ≡ Some (Values.text chunks) }
    ensures writes { (text : List ℕ) → ⟦<String as Type>⟧.writes text ≡ Values.alone (Verbatim text) }
{}

/// States that an `i64` is parsed from digits or a roman numeral, and written in digits.
pub fn numbers_are_read_and_written(number: i64)
    ensures meaning { ⟦<i64 as Type>⟧.meaning number ≡ number }
    ensures reads { (chunks : Value) → ⟦<i64 as Type>⟧.reads chunks ≡ number_read chunks }
    ensures writes { (z : ℤ) → ⟦<i64 as Type>⟧.writes z ≡ number_written z }
{}

/// States that a `Pagination` is parsed from its name, and written as its name.
pub fn paginations_are_read_and_written(pagination: Pagination)
    ensures meaning { ⟦<Pagination as Type>⟧.meaning pagination ≡ pagination }
    ensures reads { (chunks : Value) → ⟦<Pagination as Type>⟧.reads chunks ≡ pagination_read chunks }
    ensures writes { (scheme : AScheme) → ⟦<Pagination as Type>⟧.writes scheme ≡ pagination_written scheme }
{}

/// States that a `Gender` is parsed from its code, and written as its code.
pub fn genders_are_read_and_written(gender: Gender)
    ensures meaning { ⟦<Gender as Type>⟧.meaning gender ≡ gender }
    ensures reads { (chunks : Value) → ⟦<Gender as Type>⟧.reads chunks ≡ gender_read chunks }
    ensures writes { (g : AGender) → ⟦<Gender as Type>⟧.writes g ≡ gender_written g }
{}

/// States that a `Language` is parsed from one of its names, and written as its display name.
pub fn languages_are_read_and_written(language: Language)
    ensures meaning { ⟦<Language as Type>⟧.meaning language ≡ language }
    ensures reads { (chunks : Value) → ⟦<Language as Type>⟧.reads chunks ≡ language_read chunks }
    ensures writes { (l : ALanguage) → ⟦<Language as Type>⟧.writes l ≡ language_written l }
{}

/// States that an `EditorType` is parsed from its name; any other text is an unknown type. It is written as its name.
pub fn editor_types_are_read_and_written(role: &EditorType)
    ensures meaning { ⟦<EditorType as Type>⟧.meaning role.now ≡ role.now }
    ensures reads { (chunks : Value) → ⟦<EditorType as Type>⟧.reads chunks ≡ Some (editor_type_read chunks) }
    ensures writes { (r : ARole) → ⟦<EditorType as Type>⟧.writes r ≡ editor_type_written r }
{}

/// States that a `Range<u32>` is parsed as the first range of a comma-separated list of ranges, and written with a hyphen.
pub fn ranges_are_read_and_written(range: &Range<u32>)
    ensures meaning { ⟦<Range<u32> as Type>⟧.meaning range.now ≡ range.now }
    ensures reads { (chunks : Value) → ⟦<Range<u32> as Type>⟧.reads chunks ≡ range_read chunks }
    ensures writes { (r : ARange ℕ) → ⟦<Range<u32> as Type>⟧.writes r ≡ range_written r }
{}

/// States that a `Vec<Range<u32>>` is parsed from a comma-separated list of ranges, and written as one.
pub fn lists_of_ranges_are_read_and_written(ranges: &Vec<Range<u32>>)
    ensures meaning { ⟦<Vec<Range<u32>> as Type>⟧.meaning ranges.now ≡ ranges.now.items }
    ensures reads { (chunks : Value) → ⟦<Vec<Range<u32>> as Type>⟧.reads chunks ≡ ranges_read chunks }
    ensures writes { (list : List (ARange ℕ)) → ⟦<Vec<Range<u32>> as Type>⟧.writes list ≡ ranges_written list }
{}

/// States that a `Vec<String>` is parsed as the texts of a comma-separated list, and written as one.
pub fn lists_of_texts_are_read_and_written(strings: &Vec<String>)
    ensures meaning { ⟦<Vec<String> as Type>⟧.meaning strings.now ≡ map (λ s. string_bytes s) strings.now.items }
    ensures reads { (chunks : Value) → ⟦<Vec<String> as Type>⟧.reads chunks ≡ Some (strings_read chunks) }
    ensures writes { (list : List (List ℕ)) → ⟦<Vec<String> as Type>⟧.writes list ≡ strings_written list }
{}

/// States that a `Vec<Chunks>` is parsed as the items of an `and` list, and written as one.
pub fn lists_of_parts_are_read_and_written(parts: &Vec<Chunks>)
    ensures meaning { ⟦<Vec<Chunks> as Type>⟧.meaning parts.now ≡ parts.now.items }
    ensures reads { (chunks : Value) → ⟦<Vec<Chunks> as Type>⟧.reads chunks ≡ Some (and_list chunks) }
    ensures writes { (list : List Value) → ⟦<Vec<Chunks> as Type>⟧.writes list ≡ parts_written list }
{}

/// States that a `Vec<PermissiveType<Language>>` is parsed as the items of an `and` list, each a language or else its chunks.
/// It is written as one.
pub fn lists_of_languages_are_read_and_written(languages: &Vec<PermissiveType<Language>>)
    ensures meaning { ⟦<Vec<PermissiveType<Language>> as Type>⟧.meaning languages.now ≡
        map (permissive_meaning (λ language. language)) languages.now.items }
    ensures reads { (chunks : Value) →
        ⟦<Vec<PermissiveType<Language>> as Type>⟧.reads chunks ≡ Some (languages_read chunks) }
    ensures writes { (list : List (Permissive ALanguage)) →
        ⟦<Vec<PermissiveType<Language>> as Type>⟧.writes list ≡ languages_written list }
{}

/// States that a `Vec<Person>` is parsed as the people of an `and` list, and written as one.
pub fn lists_of_people_are_read_and_written(people: &Vec<Person>)
    ensures meaning { ⟦<Vec<Person> as Type>⟧.meaning people.now ≡ people.now.items }
    ensures reads { (chunks : Value) → ⟦<Vec<Person> as Type>⟧.reads chunks ≡ Some (people_of chunks) }
    ensures writes { (list : List APerson) → ⟦<Vec<Person> as Type>⟧.writes list ≡ people_chunks list }
{}

/// States that a `Date` is parsed from the plain text of its chunks as a date or a range, and written without times.
pub fn dates_are_read_and_written(date: Date)
    ensures meaning { ⟦<Date as Type>⟧.meaning date ≡ date }
    ensures reads { (chunks : Value) → ⟦<Date as Type>⟧.reads chunks ≡ date_read chunks }
    ensures writes { (d : ADate) → ⟦<Date as Type>⟧.writes d ≡ date_written d }
{}

/// States that a `PermissiveType<T>` is parsed as a `T` if possible, and otherwise as its chunks. It is written as the `T` or
/// as the chunks.
pub fn permissive_values_are_read_and_written<T: Type + Drop>(value: &PermissiveType<T>)
    ensures meaning { ⟦<PermissiveType<T> as Type>⟧.meaning value.now ≡ permissive_meaning T.meaning value.now }
    ensures reads { (chunks : Value) →
        ⟦<PermissiveType<T> as Type>⟧.reads chunks ≡ Some (permissive (T.Type.reads chunks) chunks) }
    ensures writes { (m : Permissive T.Meaning) →
        ⟦<PermissiveType<T> as Type>⟧.writes m ≡ permissive_written T.Type.writes m }
{}

/// States that each text is kept.
pub fn texts_are_kept(text: &String)
    ensures { ⟦<String as Type>⟧.kept (⟦<String as Type>⟧.meaning text.now) }
{}

/// States that each number is kept.
pub fn numbers_are_kept(number: i64)
    ensures { ⟦<i64 as Type>⟧.kept (⟦<i64 as Type>⟧.meaning number) }
{}

/// States that each value of an enumeration is kept, except for an unknown editor type.
pub fn enumerations_are_kept(
    language: Language,
    pagination: Pagination,
    gender: Gender,
    role: &EditorType,
)
    ensures language { ⟦<Language as Type>⟧.kept (⟦<Language as Type>⟧.meaning language) }
    ensures pagination { ⟦<Pagination as Type>⟧.kept (⟦<Pagination as Type>⟧.meaning pagination) }
    ensures gender { ⟦<Gender as Type>⟧.kept (⟦<Gender as Type>⟧.meaning gender) }
    ensures role { IsNamed role.now →
        ⟦<EditorType as Type>⟧.kept (⟦<EditorType as Type>⟧.meaning role.now) }
{}

/// States that each range of 32-bit numbers is kept.
pub fn ranges_are_kept(start: u32, end: u32)
    ensures { ⟦<Range<u32> as Type>⟧.kept (record { start = start; end = end }) }
{}

/// States that each list of at least one range of 32-bit numbers is kept.
pub fn lists_of_ranges_are_kept()
    ensures { (ranges : List (ARange ℕ)) → RangesKept ranges →
        ⟦<Vec<Range<u32>> as Type>⟧.kept ranges }
{}

/// States that a list of texts is kept if it has at least one text, and no text contains a comma, CR or LF.
pub fn lists_of_texts_are_kept()
    ensures { (texts : List (List ℕ)) → StringsKept texts → ⟦<Vec<String> as Type>⟧.kept texts }
{}

/// States that a list of languages is kept if it has at least one item, and each item is a language.
pub fn lists_of_languages_are_kept()
    ensures { (languages : List (Permissive ALanguage)) → LanguagesKept languages →
        ⟦<Vec<PermissiveType<Language>> as Type>⟧.kept languages }
{}

/// States that a list of people is kept if it has at least one person, and each person satisfies the following. The family
/// name and the given name are not empty. These two, the prefix and the suffix consist of words with single spaces between
/// them. A word consists of ASCII letters, points and hyphens, and is not `and`. The words of a family name begin with an
/// uppercase letter, and those of a prefix with a lowercase letter. The other fields are `None`.
pub fn lists_of_people_are_kept()
    ensures { (people : List APerson) → ArePeople people → ⟦<Vec<Person> as Type>⟧.kept people }
{}

/// States that a date is kept if its year is from -9999 to 9999, a given month is one of a year, and a given day is one of that
/// month. It must have no day without a month, and no time. For a range, this must hold for each side.
pub fn dates_are_kept()
    ensures { (date : ADate) → IsKeptDate date → ⟦<Date as Type>⟧.kept date }
{}

/// States that `PermissiveType<T>` keeps a value exactly if `T` keeps it, and chunks exactly if `T` can't parse them.
pub fn permissive_values_are_kept<T: Type + Drop>(value: &T, chunks: &Chunks)
    ensures value { T.Type.kept (T.meaning value.now) →
        ⟦<PermissiveType<T> as Type>⟧.kept (⟦<PermissiveType<T> as Type>⟧.meaning (Typed value.now)) }
    ensures chunks { T.Type.reads chunks.now ≡ None →
        ⟦<PermissiveType<T> as Type>⟧.kept (⟦<PermissiveType<T> as Type>⟧.meaning (AsTheyStand chunks.now)) }
    ensures no_other_value { ⟦<PermissiveType<T> as Type>⟧.kept (⟦<PermissiveType<T> as Type>⟧.meaning (Typed value.now)) →
        T.Type.kept (T.meaning value.now) }
    ensures no_other_chunks { ⟦<PermissiveType<T> as Type>⟧.kept (⟦<PermissiveType<T> as Type>⟧.meaning (AsTheyStand chunks.now)) →
        T.Type.reads chunks.now ≡ None }
{}

/// States that parsing each of these types has only these kinds of errors, except for out of memory.
pub fn types_have_few_kinds()
    ensures number { (chunks : Value) (kind : AKind) → ⟦<i64 as Type>⟧.may_refuse chunks kind →
        (kind ≡ InvalidNumber) ⊎ (kind ≡ MissingNumber) }
    ensures range { (chunks : Value) (kind : AKind) →
        ⟦<Range<u32> as Type>⟧.may_refuse chunks kind → kind ≡ InvalidNumber }
    ensures ranges { (chunks : Value) (kind : AKind) →
        ⟦<Vec<Range<u32>> as Type>⟧.may_refuse chunks kind → kind ≡ InvalidNumber }
    ensures pagination { (chunks : Value) (kind : AKind) →
        ⟦<Pagination as Type>⟧.may_refuse chunks kind → kind ≡ UnknownPagination }
    ensures gender { (chunks : Value) (kind : AKind) →
        ⟦<Gender as Type>⟧.may_refuse chunks kind → kind ≡ UnknownGender }
    ensures language { (chunks : Value) (kind : AKind) →
        ⟦<Language as Type>⟧.may_refuse chunks kind → kind ≡ UnknownLangId }
    ensures date { (chunks : Value) (kind : AKind) →
        ⟦<Date as Type>⟧.may_refuse chunks kind → IsDateKind kind }
{}

/// States that parsing any of the other types accepts any chunks, so its only error is out of memory.
pub fn others_read_any_chunks<T: Type + Drop>()
    ensures text { (chunks : Value) (kind : AKind) → ⟦<String as Type>⟧.may_refuse chunks kind → ⊥ }
    ensures texts { (chunks : Value) (kind : AKind) →
        ⟦<Vec<String> as Type>⟧.may_refuse chunks kind → ⊥ }
    ensures parts { (chunks : Value) (kind : AKind) →
        ⟦<Vec<Chunks> as Type>⟧.may_refuse chunks kind → ⊥ }
    ensures role { (chunks : Value) (kind : AKind) →
        ⟦<EditorType as Type>⟧.may_refuse chunks kind → ⊥ }
    ensures languages { (chunks : Value) (kind : AKind) →
        ⟦<Vec<PermissiveType<Language>> as Type>⟧.may_refuse chunks kind → ⊥ }
    ensures people { (chunks : Value) (kind : AKind) →
        ⟦<Vec<Person> as Type>⟧.may_refuse chunks kind → ⊥ }
    ensures permissive { (chunks : Value) (kind : AKind) →
        ⟦<PermissiveType<T> as Type>⟧.may_refuse chunks kind → ⊥ }
{}
