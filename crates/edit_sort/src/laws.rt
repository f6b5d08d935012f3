//! Laws of sorting. These functions have no code: their clauses are theorems about definitions.

ghost use Rattle.std.specs.Prelude.{◌≡◌, ◌<◌, ℕ, List, Some, true, map, slice_get};
ghost use Rattle.std.specs.List.Sorted.{IsSorted};
ghost use Rattle.bib_syntax.specs.Grammar.{IsRawReading};
ghost use Rattle.bib_syntax.specs.Reading.{FileReading};
ghost use Rattle.edit_entries.specs.Documents.{Document, IsDocument};
ghost use Rattle.edit_format.specs.Formatted.{text_in_style};
ghost use Rattle.edit_format.specs.declared.style.Style.{Style};
ghost use Rattle.edit_sort.specs.Sorted.{AreEntriesInOrder, IsAfterCycle, IsSortedText, Item, has_key_of, item_cmp, items, refers_to, text_in_order};

/// States that the items of a document have only one sorted order.
pub fn one_order()
    ensures { (d : Document) (places : List ℕ) (first second : List Item) → IsDocument d →
        AreEntriesInOrder (items d places) first → AreEntriesInOrder (items d places) second → first ≡ second }
{}

/// States that a text whose entries are in order is unchanged by sorting.
pub fn in_order_stays()
    ensures { (d : Document) (places new : List ℕ) → IsDocument d →
        IsSorted item_cmp (items d places) → IsSortedText d places new → new ≡ d.text }
{}

/// States that a sorted text is unchanged if it is sorted again and each entry keeps its place.
pub fn twice_is_once()
    ensures { (d : Document) (places : List ℕ) (order : List Item) (again : FileReading) (new : List ℕ) → IsDocument d →
        AreEntriesInOrder (items d places) order → IsRawReading (text_in_order d order) again →
        IsSortedText (record { text = text_in_order d order; says = again }) (map (λ i. i.place) order) new → new ≡ text_in_order d order }
{}

/// States that a text that was sorted and then formatted in a style is unchanged if it is sorted again and each entry keeps its place.
pub fn formatted_stays()
    ensures { (style : Style) (d : Document) (places : List ℕ) (order : List Item) (again : FileReading) (after : Document) (new : List ℕ) →
        IsDocument d → AreEntriesInOrder (items d places) order → IsRawReading (text_in_order d order) again → IsDocument after →
        after.text ≡ text_in_style style (text_in_order d order) again → IsSortedText after (map (λ i. i.place) order) new →
        new ≡ after.text }
{}

/// States that sorting keeps the run at each index, so no entry moves over an at sign between entries.
pub fn runs_stay()
    ensures { (d : Document) (places : List ℕ) (order : List Item) →
        AreEntriesInOrder (items d places) order → map (λ i. i.run) order ≡ map (λ i. i.run) (items d places) }
{}

/// States that, in a run, an entry that a `crossref` of another entry names comes after that entry. An entry on a cycle of references, or
/// after one, is excluded.
pub fn parents_follow()
    ensures { (d : Document) (places : List ℕ) (order : List Item) (i j : ℕ) (parent child : Item) →
        AreEntriesInOrder (items d places) order →
        slice_get order i ≡ Some parent → slice_get order j ≡ Some child → child.run ≡ parent.run →
        refers_to parent.entry.key.text child.entry ≡ true → (IsAfterCycle d.says.entries parent.entry → ⊥) → j < i }
{}

/// States that sorting keeps the order of entries with one key, in any ASCII case. So the first entry with a key, which is the only one
/// that BibTeX reads, stays the first one.
pub fn one_key_keeps_order()
    ensures { (d : Document) (places : List ℕ) (order : List Item) (i j : ℕ) (first second : Item) → IsDocument d →
        AreEntriesInOrder (items d places) order →
        slice_get order i ≡ Some first → slice_get order j ≡ Some second →
        has_key_of first.entry second.entry ≡ true → first.entry.start < second.entry.start → i < j }
{}
