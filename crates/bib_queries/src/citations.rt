//! Finds the keys that a document cites, in the .aux file that LaTeX writes or in the .bcf file that BibLaTeX writes for Biber.

ghost use Rattle.std.specs.Prelude.{◌≡◌, ◌++◌, ◌∷◌, ◌||◌, [], ℕ, List, Bool, not, false, is_some, if◌then◌else◌, map, IfOk, OnOk};
ghost use Rattle.std.specs.BTreeMap.{get_by_text};
ghost use Rattle.bib_queries.specs.Citations.{AreAuxCitations, AreBcfCitations, bcf_cited, cites_at, unlisted_key, unlisted_keys};
ghost use Rattle.bib_queries.specs.Collecting.{IsCollected, IsSeen, IsSetOf};
ghost use Rattle.bib_queries.specs.Elements as element;
ghost use Rattle.bib_queries.specs.Elements.{element_keys};
ghost use Rattle.bib_queries.specs.Lines.{aux_cited};
ghost use Rattle.bib_queries.specs.Needed.{is_listed};
ghost use Rattle.bib_queries.specs.Texts.{text_list};

use crate::elements::{citekey_text, is_set, key_list, push_listed_keys, unescaped_text};
use crate::lines::push_aux_keys;
use bib_text::text::Text;
use std::alloc::{AllocError, Global};
use std::collections::BTreeMap;

/// A cited key.
#[derive(Debug, Drop)]
pub struct Citation {
    /// The key.
    pub key: Text,
    /// The offset in bytes of the line, or of the text after the `<` of the element, that cites it first.
    pub at: usize,
}

/// The citations of a document.
#[derive(Debug, Drop)]
pub struct Citations {
    /// Each cited key except `*` once, in the order of first citation.
    pub keys: Vec<Citation>,
    /// Whether all entries are cited, as by `\nocite{*}`.
    pub all: bool,
}

// The citations so far, and the set of their keys.
#[derive(Drop)]
struct Collected {
    keys: Vec<Citation>,
    all: bool,
    seen: BTreeMap<String, ()>,
}

impl Collected {
    // Creates an empty collection.
    fn new(alloc: Global) -> Self
        ensures keys { result.keys.items ≡ [] }
        ensures all { result.all ≡ false }
        ensures seen { IsSeen result }
    {
        Collected {
            keys: Vec::new(alloc),
            all: false,
            seen: BTreeMap::new(alloc),
        }
    }

    // Adds a key that isn't cited yet.
    fn push(&mut self, alloc: Global, key: &str, at: usize) -> Result<(), AllocError>
        requires { IsSeen self.old }
        ensures keys { OnOk result (self.new.keys.items ≡ self.old.keys.items ++ record { key = key.now; at = at } ∷ []) }
        ensures all { OnOk result (self.new.all ≡ self.old.all) }
        ensures seen { OnOk result (IsSeen self.new) }
    {
        self.seen.insert(String::from_str(alloc, key)?, ())?;
        let key = Text::from_str(alloc, key)?;
        self.keys.push(Citation { key, at })?;
        Ok(())
    }

    // Adds a key unless it is cited already. The key `*` cites all entries.
    fn add(&mut self, alloc: Global, key: &str, at: usize) -> Result<(), AllocError>
        requires { IsSeen self.old }
        ensures { OnOk result (IsCollected self.old (record { key = key.now; at = at } ∷ []) self.new) }
    {
        if key == "*" {
            self.all = true;
            return Ok(());
        }
        if self.seen.contains_key(key) {
            return Ok(());
        }
        self.push(alloc, key, at)?;
        Ok(())
    }

    // Adds keys that are cited at the offset `at`.
    fn add_all(&mut self, alloc: Global, keys: &[&str], at: usize) -> Result<(), AllocError>
        requires { IsSeen self.old }
        ensures { OnOk result (IsCollected self.old (cites_at at (map (λ k. k.now) keys.now)) self.new) }
    {
        'keys: for key in keys {
            self.add(alloc, key, at)?;
        }
        Ok(())
    }

    // Adds the keys that a line of an .aux file cites.
    fn add_line(&mut self, alloc: Global, line: &str, at: usize) -> Result<(), AllocError>
        requires { IsSeen self.old }
        ensures { OnOk result (IsCollected self.old (cites_at at (aux_cited line.now)) self.new) }
    {
        let mut keys = Vec::new(alloc);
        push_aux_keys(&mut keys, line)?;
        self.add_all(alloc, &keys, at)?;
        Ok(())
    }
}

impl Collected {
    // Returns the collected citations.
    fn into_citations(self) -> Citations
        ensures keys { result.keys.items ≡ self.keys.items }
        ensures all { result.all ≡ self.all }
    {
        let Collected { keys, all, seen: _ } = self;
        Citations { keys, all }
    }
}

// Adds the name of the set that an element of a control file defines, if it defines one.
fn add_set(alloc: Global, sets: &mut BTreeMap<String, ()>, piece: &str) -> Result<(), AllocError>
    ensures { OnOk result ((key : List ℕ) → is_some (get_by_text sets.new key) ≡
        (is_listed (element.set_name piece.now) key || is_some (get_by_text sets.old key))) }
{
    if !is_set(piece) {
        return Ok(());
    }
    let Some(text) = citekey_text(piece) else {
        return Ok(());
    };
    let name = unescaped_text(alloc, text)?;
    sets.insert(String::from_str(alloc, name.as_str().trim())?, ())?;
    Ok(())
}

// Returns the names of the dynamic sets of a control file.
fn set_names(alloc: Global, text: &str) -> Result<BTreeMap<String, ()>, AllocError>
    ensures { IfOk result (λ sets. IsSetOf sets (element.set_names text.now)) }
{
    let mut sets = BTreeMap::new(alloc);
    'elements: for piece in text.split('<') {
        add_set(alloc, &mut sets, piece)?;
    }
    Ok(sets)
}

// Appends a key unless the set contains it.
fn push_unlisted<'s>(
    kept: &mut Vec<&'s str>,
    sets: &BTreeMap<String, ()>,
    key: &'s str,
) -> Result<(), AllocError>
    ensures { OnOk result ((names : List (List ℕ)) → IsSetOf sets.now names →
        text_list kept.new ≡ text_list kept.old ++ unlisted_key names key.now) }
{
    if sets.contains_key(key) {
        return Ok(());
    }
    kept.push(key)?;
    Ok(())
}

// Returns the keys that the set doesn't contain.
fn unlisted<'s>(
    alloc: Global,
    sets: &BTreeMap<String, ()>,
    keys: &[&'s str],
) -> Result<Vec<&'s str>, AllocError>
    ensures { IfOk result (λ kept. (names : List (List ℕ)) → IsSetOf sets.now names →
        text_list kept ≡ unlisted_keys names (map (λ k. k.now) keys.now)) }
{
    let mut kept = Vec::new(alloc);
    'keys: for key in keys {
        push_unlisted(&mut kept, sets, key)?;
    }
    Ok(kept)
}

impl Collected {
    // Adds the keys in the text of an element, except the names of sets. `has_commas`: the text is a comma-separated list.
    fn add_list(
        &mut self,
        alloc: Global,
        sets: &BTreeMap<String, ()>,
        list: &str,
        has_commas: bool,
        at: usize,
    ) -> Result<(), AllocError>
        requires { IsSeen self.old }
        ensures { OnOk result ((names : List (List ℕ)) → IsSetOf sets.now names →
            IsCollected self.old (cites_at at (unlisted_keys names (element.listed_keys has_commas list.now))) self.new) }
    {
        let mut keys = Vec::new(alloc);
        push_listed_keys(&mut keys, list, has_commas)?;
        let kept = unlisted(alloc, sets, &keys)?;
        self.add_all(alloc, &kept, at)?;
        Ok(())
    }

    // Adds the keys that an element of a control file cites. `piece` begins after the `<` of the element.
    fn add_element(
        &mut self,
        alloc: Global,
        sets: &BTreeMap<String, ()>,
        piece: &str,
        at: usize,
    ) -> Result<(), AllocError>
        requires { IsSeen self.old }
        ensures { OnOk result ((names : List (List ℕ)) → IsSetOf sets.now names →
            IsCollected self.old (cites_at at (bcf_cited names piece.now)) self.new) }
    {
        let Some(list) = key_list(piece) else {
            return Ok(());
        };
        let list = unescaped_text(alloc, list)?;
        self.add_list(alloc, sets, list.as_str(), is_set(piece), at)?;
        Ok(())
    }
}

/// Returns the citations of an .aux file: the keys in the last argument of each `\citation` and `\abx@aux@cite`. LaTeX and natbib
/// write the former, and BibLaTeX the latter. Such a command is at the start of a line and has one or two arguments.
pub fn in_aux(alloc: Global, text: &str) -> Result<Citations, AllocError>
    ensures { IfOk result (AreAuxCitations text.now) }
{
    let mut collected = Collected::new(alloc);
    let mut at = 0;
    'lines: for line in text.split('\n') {
        collected.add_line(alloc, line, at)?;
        at += line.len() + 1;
    }
    Ok(collected.into_citations())
}

/// Returns the citations of a control file of Biber: its elements `bcf:citekey`, and the members of the dynamic sets that such
/// elements define. The name of such a set is no citation, because Biber makes its entry. The offset of a citation is that of the
/// text after the `<` of its element.
pub fn in_bcf(alloc: Global, text: &str) -> Result<Citations, AllocError>
    ensures { IfOk result (AreBcfCitations text.now) }
{
    let sets = set_names(alloc, text)?;
    let mut collected = Collected::new(alloc);
    let mut at = 0;
    'elements: for piece in text.split('<') {
        collected.add_element(alloc, &sets, piece, at)?;
        at += piece.len() + 1;
    }
    Ok(collected.into_citations())
}
