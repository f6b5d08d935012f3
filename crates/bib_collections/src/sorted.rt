//! Pairs of a name and a value, sorted by the bytes of the names, with each name at most once.

ghost use Rattle.std.specs.Prelude.{◌≡◌, MatchResult, IfOk, reverse};
ghost use Rattle.std.specs.Option.{option_copied};
ghost use Rattle.std.specs.FinMap as map;
ghost use Rattle.bib_collections.specs.Sorted.{IsSorted, IsIndexOf, IsGapFor, by_bytes, map_of};

use bib_text::text::Text;
use std::alloc::AllocError;

// Returns the index of the pair of `name`, or as an error the index to insert it at. Does a binary search.
pub(crate) fn find_binary<V>(pairs: &[(Text, V)], name: &str) -> Result<usize, usize>
    requires { IsSorted pairs.now }
    ensures { MatchResult result (IsIndexOf pairs.now name.now) (IsGapFor pairs.now name.now) }
{
    pairs.binary_search_by(|pair| pair.0.as_str().cmp(name))
}

// Returns the value of the first pair of `name`, or `None`. Compares the pairs one by one.
#[tactic(auto, using(crate::proofs::LookingFacts::nowhere))]
pub(crate) fn find_linear<'a, V>(pairs: &'a [(Text, V)], name: &str) -> Option<&'a V>
    ensures { option_copied result ≡ map.find by_bytes name.now pairs.now }
{
    'pairs: for pair in pairs {
        if name == pair.0.as_str() {
            return Some(&pair.1);
        }
    }
    None
}

// Sorts pairs by the bytes of the names. If a name occurs more than once, keeps only its last pair.
pub(crate) fn sort_by_name<V: Drop>(mut pairs: Vec<(Text, V)>) -> Result<Vec<(Text, V)>, AllocError>
    ensures sorted { IfOk result (λ pairs. IsSorted pairs.items) }
    ensures last { IfOk result (λ all. map_of all.items ≡ map.from_entries (reverse pairs.items)) }
{
    pairs.reverse();
    pairs.sort_by(|a, b| a.0.as_str().cmp(b.0.as_str()))?;
    pairs.dedup_by(|next, kept| next.0 == kept.0);
    Ok(pairs)
}
