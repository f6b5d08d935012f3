//! Splits a name into words.

ghost use Rattle.std.specs.Prelude.{◌≡◌, ◌++◌, ◌≤◌, length, not, map, OnOk, IfOk};
ghost use Rattle.std.specs.List.{prefix_len};
ghost use Rattle.bib_chunks.specs.Writing.{Writes};
ghost use Rattle.bib_people.specs.Letters.{as_letters, letters, is_verbatim, is_gap, gap_len, word_len, words_of, text_of_words};

use bib_chunks::chunk::{Chunk, ChunksRef};
use bib_text::items::Items;
use bib_text::text::Text;
use std::alloc::{AllocError, Global};
use std::marker::Model;

// A character of a name, and whether it is verbatim.
#[derive(Clone, Copy, Drop)]
pub(crate) struct Letter {
    pub(crate) char: char,
    pub(crate) is_verbatim: bool,
}

impl Model for Letter {
    ghost use Rattle.bib_people.specs.Letters.{Letter as ALetter};

    ghost Value = { ALetter };

    ghost view = { λ l. record { char = l.char; is_verbatim = l.is_verbatim } };

    ghost inverse = { λ l. record { char = l.char; is_verbatim = l.is_verbatim } };
}

// A word of a name, and the gap before it.
#[derive(Drop)]
pub(crate) struct Word<'a> {
    gap: &'a [Letter],
    letters: &'a [Letter],
}

impl<'a> Model for Word<'a> {
    ghost use Rattle.bib_people.specs.Letters.{Word as AWord, a_word};

    ghost Value = { AWord };

    ghost view = { λ w. a_word w.gap.now w.letters.now };
}

impl<'a> Word<'a> {
    // Returns the letters of the word.
    pub(crate) fn letters(&self) -> &'a [Letter]
        ensures { result.now ≡ self.now.letters }
    {
        self.letters
    }
}

// Returns whether the chunk is verbatim.
fn is_verbatim(chunk: &Chunk) -> bool
    ensures { result ≡ is_verbatim chunk.now }
{
    match chunk {
        Chunk::Normal(_) => false,
        Chunk::Verbatim(_) => true,
        Chunk::Math(_) => false,
    }
}

// Appends the characters of a text as letters.
fn push_letters(all: &mut Items<Letter>, text: &str, is_verbatim: bool) -> Result<(), AllocError>
    ensures { OnOk result (all.new ≡ all.old ++ as_letters is_verbatim text.now) }
{
    'text: for char in text.chars() {
        all.push(Letter { char, is_verbatim })?;
    }
    Ok(())
}

// Returns the letters of chunks.
pub(crate) fn letters(alloc: Global, chunks: ChunksRef<'_>) -> Result<Items<Letter>, AllocError>
    ensures { IfOk result (λ all. all ≡ letters chunks.now) }
{
    let mut all = Items::new(alloc);
    'chunks: for chunk in chunks {
        push_letters(&mut all, chunk.v.get(), is_verbatim(&chunk.v))?;
    }
    Ok(all)
}

// Returns whether the letter is white space that isn't verbatim.
fn is_gap(letter: &Letter) -> bool
    ensures { result ≡ is_gap letter.now }
{
    letter.char.is_whitespace() && !letter.is_verbatim
}

// Returns the length of the gap at the start, in letters.
fn gap_len(letters: &[Letter]) -> usize
    ensures value { result ≡ gap_len letters.now }
    ensures within { result ≤ length letters.now }
{
    'letters: for (i, letter) in letters.iter().enumerate() {
        if !is_gap(letter) {
            return i;
        }
    }
    letters.len()
}

// Returns the length of the word at the start, in letters.
fn word_len(letters: &[Letter]) -> usize
    ensures value { result ≡ word_len letters.now }
    ensures within { result ≤ length letters.now }
{
    'letters: for (i, letter) in letters.iter().enumerate() {
        if is_gap(letter) {
            return i;
        }
    }
    letters.len()
}

// Returns the words of letters.
pub(crate) fn words<'a>(alloc: Global, letters: &'a [Letter]) -> Result<Items<Word<'a>>, AllocError>
    ensures { IfOk result (λ all. all ≡ words_of letters.now) }
{
    let mut all = Items::new(alloc);
    let mut rest = letters;
    'words: loop {
        let gap = gap_len(rest);
        let (before, following) = rest.split_at(gap);
        if following.is_empty() {
            return Ok(all);
        }
        let word = word_len(following);
        let (inside, after) = following.split_at(word);
        all.push(Word {
            gap: before,
            letters: inside,
        })?;
        rest = after;
    }
}

// Writes the characters of letters.
fn write_letters(out: &mut String, letters: &[Letter]) -> Result<(), AllocError>
    ensures { OnOk result (Writes out.old out.new (map (λ l. l.char) letters.now)) }
{
    'letters: for letter in letters {
        out.push(letter.char)?;
    }
    Ok(())
}

// Returns the text of neighbouring words with the gaps between them, without the white space at its ends.
pub(crate) fn text_of_words(alloc: Global, words: &[Word<'_>]) -> Result<Text, AllocError>
    ensures { IfOk result (λ text. text ≡ text_of_words words.now) }
{
    let mut out = String::new(alloc);
    let mut first = true;
    'words: for word in words {
        if !first {
            write_letters(&mut out, word.gap)?;
        }
        write_letters(&mut out, word.letters)?;
        first = false;
    }
    Text::from_str(alloc, out.as_str().trim())
}
