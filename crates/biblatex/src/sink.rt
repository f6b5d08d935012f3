//! Sinks, which receive the text of a bibliography, and writers as sinks.

ghost use Rattle.std.specs.Prelude.{◌≡◌, ℕ, Bool, ◌+◌, ◌-◌, ◌^◌, ◌<◌, List, min, IsTrue, MatchBool, ◌↔◌};
ghost use Rattle.std.specs.Bool.{OnTrue, OnFalse};
ghost use Rattle.std.specs.Io.{WritesAtMost};
ghost use Rattle.std.specs.Io.KnownBytes.{Appends, WriteAppends};
ghost use Rattle.std.specs.declared.option.Option.{Option};
ghost use Rattle.biblatex.specs.PartlyWritten.{AppendsPart};
ghost use Rattle.biblatex.specs.Writing.{IsRefusedWrite};

use std::io;
use std::io::{ErrorKind, Write};

/// Takes or refuses texts.
pub trait Sink {
    // The text taken so far, if the type specifies it.
    ghost taken: { Self → Option (List ℕ) };

    // A number that grows with each refused text. It may stop at 2^64 - 1.
    ghost refusals: { Self → ℕ };

    // Whether a call with this text and this result may lead from the first state to the second. Code that is generic in the
    // sink can obtain this fact only by making the call.
    ghost hands_over: { Self → List ℕ → Bool → Self → Type 0 };

    /// Takes or refuses a text. Returns whether the text was taken.
    fn write_str(&mut self, text: &str) -> bool
        ensures took { OnTrue result (Appends (taken self.old) (taken self.new) text.now) }
        ensures same { OnTrue result (refusals self.new ≡ refusals self.old) }
        ensures refused { OnFalse result (refusals self.old < 2 ^ 64 - 1 →
            refusals self.old < refusals self.new) }
        ensures handed { hands_over self.old text.now result self.new };
}

// Returns whether a write refused its bytes.
fn is_refusal(written: &io::Result<usize>) -> bool
    ensures { IsTrue result ↔ IsRefusedWrite written.now }
{
    match written {
        Ok(count) => *count == 0,
        Err(error) => error.kind() != ErrorKind::Interrupted,
    }
}

/// A writer as a sink. A text that is taken is written once. If a text is refused, a prefix of it may have been written, once.
/// The contract states this for a writer whose contents are known. For any writer, it states that a refusal is counted, up to
/// 2^64 - 1.
#[derive(Drop)]
pub struct Output<W> {
    writer: W,
    refusals: u64,
}

impl<W> Output<W> {
    /// Returns a sink over this writer that has refused nothing.
    pub fn new(writer: W) -> Self
        ensures writer { result.writer ≡ writer }
        ensures refusals { result.refusals ≡ 0 }
    {
        Output {
            writer,
            refusals: 0,
        }
    }

    /// Returns the writer.
    pub fn into_writer(self) -> W
        ensures { result ≡ self.writer }
    {
        let Output {
            writer,
            refusals: _,
        } = self;
        writer
    }

    // Counts a refusal, up to 2^64 - 1.
    fn refuse(&mut self)
        ensures counted { self.new.refusals ≡ min (self.old.refusals + 1) (2 ^ 64 - 1) }
        ensures writer { self.new.writer ≡ self.old.writer }
    {
        self.refusals = self.refusals.saturating_add(1);
    }
}

impl<W: Write> Output<W> {
    // Makes one write of the bytes, and counts it if the writer refuses them.
    fn write(&mut self, bytes: &[u8]) -> io::Result<usize>
        ensures bound { WritesAtMost result bytes.now }
        ensures bytes { WriteAppends (W.contents self.old.writer) (W.contents self.new.writer) result bytes.now }
        ensures counted { IsRefusedWrite result →
            self.new.refusals ≡ min (self.old.refusals + 1) (2 ^ 64 - 1) }
        ensures same { (IsRefusedWrite result → ⊥) → self.new.refusals ≡ self.old.refusals }
    {
        let written = self.writer.write(bytes);
        if is_refusal(&written) {
            self.refuse();
        }
        written
    }

    // Writes the bytes, each once. If the writer refuses them, or after 2^64 - 1 writes, counts a refusal and returns
    // `false`. A prefix of the bytes may then have been written. A write that was interrupted wrote nothing, and is
    // repeated.
    fn write_once(&mut self, bytes: &[u8]) -> bool
        ensures whole { OnTrue result (Appends (W.contents self.old.writer) (W.contents self.new.writer) bytes.now) }
        ensures same { OnTrue result (self.new.refusals ≡ self.old.refusals) }
        ensures part { OnFalse result (AppendsPart (W.contents self.old.writer) (W.contents self.new.writer) bytes.now) }
        ensures counted { OnFalse result (self.new.refusals ≡ min (self.old.refusals + 1) (2 ^ 64 - 1)) }
    {
        let mut rest = bytes;
        'writes: for _ in 0..u64::MAX {
            if rest.is_empty() {
                return true;
            }
            let written = self.write(rest);
            if is_refusal(&written) {
                return false;
            }
            match written {
                Ok(count) => rest = &rest[count..],
                Err(_) => {}
            }
        }
        self.refuse();
        false
    }
}

impl<W: Write> Sink for Output<W> {
    ghost taken = { λ output. W.contents output.writer };

    ghost refusals = { λ output. output.refusals };

    // A text that is taken is appended whole, once. If a text is refused, a prefix of it may be appended, once, and the
    // refusal is counted.
    ghost hands_over = { λ old text is_taken new. MatchBool is_taken
        (Appends (W.contents old.writer) (W.contents new.writer) text × (new.refusals ≡ old.refusals))
        (AppendsPart (W.contents old.writer) (W.contents new.writer) text
        × (new.refusals ≡ min (old.refusals + 1) (2 ^ 64 - 1))) };

    fn write_str(&mut self, text: &str) -> bool {
        self.write_once(text.as_bytes())
    }
}
