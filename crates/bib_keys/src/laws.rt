//! Laws of patterns and keys. The functions have empty bodies: their contracts are theorems about the definitions that they name.

ghost use Rattle.std.specs.Prelude.{◌≡◌, ℕ, List, map};
ghost use Rattle.bib_entry.specs.declared.entry.Entry.{Entry as AnEntry};
ghost use Rattle.bib_keys.specs.Keys.{AreKeys, without_key};
ghost use Rattle.bib_keys.specs.Patterns.{IsPattern};
ghost use Rattle.bib_keys.specs.declared.pattern.Part.{Part as APart};

/// States that a text is at most one pattern.
pub fn a_text_is_one_pattern()
    ensures { (pattern other : List APart) (text : List ℕ) →
        IsPattern pattern text → IsPattern other text → pattern ≡ other }
{}

/// States that entries have the same keys as entries that differ from them only in their old keys. So entries that have new keys get
/// the same keys again.
pub fn old_keys_do_not_matter()
    ensures { (pattern : List APart) (entries others : List AnEntry) (keys other_keys : List (List ℕ)) →
        map without_key entries ≡ map without_key others →
        AreKeys pattern entries keys → AreKeys pattern others other_keys → keys ≡ other_keys }
{}
