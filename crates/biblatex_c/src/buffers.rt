//! Writes the result of a call into the caller's buffer.

ghost use Rattle.std.specs.Prelude.{◌≡◌, IsErrAnd, IsOkAnd};
ghost use Rattle.std.specs.String.{string_bytes};
ghost use Rattle.biblatex_c.specs.Calls.{IsEnd};

use crate::status::Status;

// Writes `answer` to the start of `out`, and its length in bytes to `size`. If `out` is too short, leaves it unchanged, but sets `size`,
// and returns `TooShort`.
pub(crate) fn write(answer: &[u8], out: &mut [u8], size: &mut usize) -> Status
    ensures { IsEnd (λ bytes. bytes ≡ answer.now) (λ _. ⊥) out.old size.old out.new size.new result }
{
    *size = answer.len();
    if out.len() < answer.len() {
        return Status::TooShort;
    }
    out[..answer.len()].copy_from_slice(answer);
    Status::Done
}

// Writes the text in `made` as `write` does. If `made` is an error, returns it, and changes neither `out` nor `size`.
pub(crate) fn end(made: Result<String, Status>, out: &mut [u8], size: &mut usize) -> Status
    ensures { IsEnd (λ bytes. IsOkAnd made (λ answer. bytes ≡ string_bytes answer)) (λ why. IsErrAnd made (λ error. error ≡ why))
        out.old size.old out.new size.new result }
{
    match made {
        Ok(answer) => write(answer.as_bytes(), out, size),
        Err(status) => status,
    }
}
