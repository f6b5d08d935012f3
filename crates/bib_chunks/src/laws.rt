//! Laws of lists. The functions have empty bodies: each clause is a theorem about the definitions that it names.

ghost use Rattle.std.specs.Prelude.{◌≡◌, List, map};
ghost use Rattle.std.specs.List.{AllByRecursion};
ghost use Rattle.bib_chunks.specs.declared.chunk.Chunk.{Chunk as AChunk};
ghost use Rattle.bib_text.specs.declared.spanned.Spanned.{Spanned as APlaced};
ghost use Rattle.bib_chunks.specs.Cuts.{comma_list, and_list};
ghost use Rattle.bib_chunks.specs.Parted.{AreTexts, HoldsNoAnd, HoldsNoComma, IsAsLong, IsList, IsSpaced, StandsInOne, and_word, comma_text};
ghost use Rattle.bib_chunks.specs.Styled.{Atom, styled};

/// States that the parts of a comma list with commas between them are its styled text, except for normal white space
/// next to the commas.
pub fn comma_list_is_whole()
    ensures { (chunks : List (APlaced AChunk)) → AreTexts chunks →
        IsList comma_text (map styled (comma_list chunks)) (styled chunks) }
{}

/// States that no part of a comma list contains a normal comma.
pub fn no_comma_in_parts()
    ensures { (chunks : List (APlaced AChunk)) → AreTexts chunks →
        AllByRecursion HoldsNoComma (comma_list chunks) }
{}

/// States that the parts of an `and` list, with `and` between them, are its styled text. Only normal white space next to each
/// `and` and at both ends is missing.
pub fn and_list_is_whole()
    ensures { (chunks : List (APlaced AChunk)) → AreTexts chunks → (inside : List Atom) ×
        IsSpaced inside (styled chunks) × IsList and_word (map styled (and_list chunks)) inside }
{}

/// States that no normal chunk in a part of an `and` list contains the word `and` between two white space characters.
pub fn no_and_in_parts()
    ensures { (chunks : List (APlaced AChunk)) → AreTexts chunks →
        AllByRecursion HoldsNoAnd (and_list chunks) }
{}

/// States where the pieces of a list are. Suppose that the span of each chunk is as long as its text and ends below
/// 2^64. Then each piece of a part lies in the span of one of the chunks. Its offset there is the offset of its text in
/// the text of that chunk.
pub fn pieces_stand_where_their_texts_do()
    ensures commas { (chunks : List (APlaced AChunk)) → AreTexts chunks →
        AllByRecursion IsAsLong chunks →
        AllByRecursion (AllByRecursion (StandsInOne chunks)) (comma_list chunks) }
    ensures ands { (chunks : List (APlaced AChunk)) → AreTexts chunks →
        AllByRecursion IsAsLong chunks →
        AllByRecursion (AllByRecursion (StandsInOne chunks)) (and_list chunks) }
{}
