//! The byte offset of a fault in a text of JSON.

ghost use Rattle.std.specs.Prelude.{◌≤◌, length, IfOk};

use json::{Reader, Scratch, Token};
use std::alloc::{AllocError, Global};

// An open bracket.
#[derive(Clone, Copy, PartialEq, Eq)]
enum Bracket {
    // The bracket of an array.
    Square,
    // The bracket of an object.
    Curly,
}

// The state after some tokens: the open brackets, whether a key waits for its value, and whether the value at the top has ended.
#[derive(Drop)]
struct Nesting {
    open: Vec<Bracket>,
    awaits_value: bool,
    is_over: bool,
}

impl Nesting {
    // Returns the state before the first token.
    fn new(alloc: Global) -> Self {
        Nesting {
            open: Vec::new(alloc),
            awaits_value: false,
            is_over: false,
        }
    }

    // Returns whether the innermost open bracket is that of an object.
    fn is_in_object(&self) -> bool {
        self.open.last() == Some(&Bracket::Curly)
    }

    // Begins a value. Returns whether a value may be here: in an object only after a key.
    fn begin_value(&mut self) -> bool {
        let may_begin = self.awaits_value || !self.is_in_object();
        self.awaits_value = false;
        may_begin
    }

    // Ends a value.
    fn end_value(&mut self) {
        self.is_over = self.open.is_empty();
    }

    // Begins an array or an object. Returns whether a value may be here.
    fn begin(&mut self, bracket: Bracket) -> Result<bool, AllocError> {
        let may_begin = self.begin_value();
        self.open.push(bracket)?;
        Ok(may_begin)
    }

    // Ends an array or an object. Returns whether the innermost open bracket was of this kind, and no key waits for its value.
    fn end(&mut self, bracket: Bracket) -> bool {
        let is_open = self.open.pop() == Some(bracket);
        self.end_value();
        is_open && !self.awaits_value
    }

    // Records a value without brackets. Returns whether a value may be here.
    fn value(&mut self) -> bool {
        let may_begin = self.begin_value();
        self.end_value();
        may_begin
    }

    // Records a key. Returns whether a key may be here: only in an object, and not after another key.
    fn key(&mut self) -> bool {
        let may_stand = self.is_in_object() && !self.awaits_value;
        self.awaits_value = true;
        may_stand
    }

    // Records a token. Returns false for a token that can't be here, for a token after the value at the top, and for `Bad`.
    fn pass(&mut self, token: &Token<'_>) -> Result<bool, AllocError> {
        if self.is_over {
            return Ok(false);
        }
        match token {
            Token::BeginArray => self.begin(Bracket::Square),
            Token::BeginObject => self.begin(Bracket::Curly),
            Token::EndArray => Ok(self.end(Bracket::Square)),
            Token::EndObject => Ok(self.end(Bracket::Curly)),
            Token::Key(_) => Ok(self.key()),
            Token::Bad => Ok(false),
            Token::String(_) | Token::Number(_) | Token::Bool(_) | Token::Null => Ok(self.value()),
        }
    }
}

// Returns a byte offset, but at most `end`.
fn inside(place: usize, end: usize) -> usize
    ensures { result ≤ end }
{
    place.min(end)
}

/// Returns the byte offset at which a text stops being JSON: its end if it is cut off. For a text without the colon after a key, or with a
/// colon after another text, it is the start of this text. Too deep nesting isn't found, so the result is a later place for it: the end of
/// the text if it has no other fault.
pub fn place_of_fault(alloc: Global, text: &str) -> Result<usize, AllocError>
    ensures { IfOk result (λ place. place ≤ length text.now) }
{
    let mut scratch = Scratch::new(alloc);
    let mut reader = Reader::new(text, &mut scratch)?;
    let mut nesting = Nesting::new(alloc);
    let mut place = reader.offset();
    'tokens: while let Some(token) = reader.next() {
        if matches!(token, Token::Bad) {
            return Ok(inside(reader.offset(), text.len()));
        }
        if !nesting.pass(&token)? {
            return Ok(inside(place, text.len()));
        }
        place = reader.offset();
    }
    Ok(inside(place, text.len()))
}

// Returns the byte offset at which the element with this index of an array begins.
fn place_of_element(alloc: Global, text: &str, index: usize) -> Result<usize, AllocError>
    ensures { IfOk result (λ place. place ≤ length text.now) }
{
    let mut scratch = Scratch::new(alloc);
    let mut reader = Reader::new(text, &mut scratch)?;
    let mut nesting = Nesting::new(alloc);
    let mut place = reader.offset();
    let mut left = index;
    'tokens: while let Some(token) = reader.next() {
        if nesting.open.len() == 1 && !matches!(token, Token::EndArray | Token::Key(_)) {
            if left == 0 {
                return Ok(inside(place, text.len()));
            }
            left -= 1;
        }
        let _may_stand = nesting.pass(&token)?;
        place = reader.offset();
    }
    Ok(inside(place, text.len()))
}

// Returns whether a JSON text is an array.
fn is_array(text: &str) -> bool {
    text.trim_start().starts_with('[')
}

/// Returns the byte offset at which the element with this index begins. For JSON that is no array, it is the start of the value.
pub fn place_of_item(alloc: Global, text: &str, index: usize) -> Result<usize, AllocError>
    ensures { IfOk result (λ place. place ≤ length text.now) }
{
    if is_array(text) {
        return place_of_element(alloc, text, index);
    }
    Ok(text.len() - text.trim_start().len())
}
