//! The letters that distinguish keys: `a` to `z`, then `aa` to `az`, and so on.

ghost use Rattle.std.specs.Prelude.{OnOk, string_bytes};
ghost use Rattle.bib_keys.specs.Keys.{HasSuffix};

use std::alloc::AllocError;

// The number of letters.
const LETTERS: u64 = 26;

// Appends the suffix with a number. The recursion is at most 14 deep, as 26^14 is greater than 2^64.
pub(crate) fn push_suffix(key: &mut String, number: u64) -> Result<(), AllocError>
    ensures { OnOk result (HasSuffix number (string_bytes key.old) (string_bytes key.new)) }
{
    if number == 0 {
        return Ok(());
    }
    push_suffix(key, (number - 1) / LETTERS)?;
    let letter = (number - 1) % LETTERS;
    key.push((b'a' + letter as u8) as char)?;
    Ok(())
}
