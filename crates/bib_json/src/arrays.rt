//! The texts around the elements of a JSON array, so that a program can write it element by element.

ghost use Rattle.std.specs.Prelude.{◌≡◌};
ghost use Rattle.bib_json.specs.Arrays as spec;

/// Returns the text before an element of the array: `[` and a line feed before the first one, and `,` and a line feed before the others.
pub fn before_element(is_first: bool) -> &'static str
    ensures { result.now ≡ spec.before_element is_first }
{
    if is_first { "[\n" } else { ",\n" }
}

/// Returns the text after the last element of the array. `is_empty` says whether there is no element.
pub fn array_end(is_empty: bool) -> &'static str
    ensures { result.now ≡ spec.array_end is_empty }
{
    if is_empty { "[]\n" } else { "\n]\n" }
}
