//! The call that writes the version of the library.

ghost use Rattle.std.specs.Prelude.{◌≡◌, codes};
ghost use Rattle.biblatex_c.specs.Calls.{IsNumberedEnd};

use crate::buffers::write;

/// Writes the version of the library: three numbers with points between them.
#[unsafe(no_mangle)]
pub extern "C" fn biblatex_version(out: &mut [u8], size: &mut usize) -> u32
    ensures { IsNumberedEnd (λ answer. answer ≡ codes "0.1.0") (λ _. ⊥) out.old size.old out.new size.new result }
{
    write("0.1.0".as_bytes(), out, size).number()
}
