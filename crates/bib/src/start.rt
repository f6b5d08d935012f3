//! Starting the program with its command-line arguments.

ghost use Rattle.std.specs.Prelude.{◌≡◌, ◌≢◌, ℕ, ◌-◌, ◌^◌, ◌<◌, List, map, IfOk, OnErr};
ghost use Rattle.std.specs.Io.KnownBytes.{Appends};
ghost use Rattle.std.specs.String.{string_bytes};
ghost use Rattle.bib.specs.Output.{IsAnswered, IsCommand};
ghost use Rattle.bib.specs.Arguments.{IsStartAnswer, AreArgumentsKnown, IsMemoryLacking, texts_of, program_words};

use crate::run::{InputSource, print, run};
use biblatex::Sink;
use std::alloc::{AllocError, Global};
use std::env::Args;
use std::io;
use std::io::ErrorKind;

// Returns the arguments after the program's name. Returns none if the arguments can't be read for another reason than out of
// memory, for instance because an argument isn't UTF-8.
fn words(alloc: Global, arguments: io::Result<Args>) -> Result<Vec<String>, AllocError>
    ensures words { IfOk result
        (λ words. map string_bytes words.items ≡ program_words (texts_of arguments)) }
    ensures known { IfOk result (λ _. AreArgumentsKnown (texts_of arguments)) }
    ensures lacking { OnErr result (IsMemoryLacking (texts_of arguments)) }
{
    match arguments {
        Ok(arguments) => arguments.skip(1).collect(alloc),
        Err(error) if error.kind() == ErrorKind::OutOfMemory => Err(AllocError),
        Err(_) => Ok(Vec::new(alloc)),
    }
}

/// Runs the program with its arguments, and returns its exit status. The first argument is the program's name.
///
/// If memory runs out while the arguments are read, this is reported, and the status is 3. If they can't be read for another
/// reason, for instance because an argument isn't UTF-8, the program runs without arguments. If `output` refuses the text, the
/// status is 1.
pub fn start<S: InputSource, K: Sink>(
    alloc: Global,
    arguments: io::Result<Args>,
    input: &mut S,
    output: &mut K,
) -> u8
    ensures unread { (IsCommand (program_words (texts_of arguments)) → ⊥) → input.new ≡ input.old }
    ensures printed { K.refusals output.old < 2 ^ 64 - 1 →
        K.refusals output.new ≡ K.refusals output.old →
        (text : List ℕ) × Appends (K.taken output.old) (K.taken output.new) text ×
        IsStartAnswer (texts_of arguments) (S.gives input.old)
        (S.failures input.old < 2 ^ 64 - 1 → S.failures input.old < S.failures input.new)
        (S.failures input.new ≡ S.failures input.old) text result }
    ensures refused { K.refusals output.new ≢ K.refusals output.old → result ≡ 1 }
    ensures handed { IsAnswered K.hands_over (IsStartAnswer (texts_of arguments) (S.gives input.old)
        (S.failures input.old < 2 ^ 64 - 1 → S.failures input.old < S.failures input.new)
        (S.failures input.new ≡ S.failures input.old)) output.old output.new result }
{
    match words(alloc, arguments) {
        Ok(words) => run(alloc, &words, input, output),
        Err(AllocError) => print(output, "error: out of memory\n", 3),
    }
}
