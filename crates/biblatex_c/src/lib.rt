//! The library for C, declared in c/biblatex.h. Its calls write into buffers of the caller.
//!
//! Each exported function returns the number of a `Status`. A call that succeeds writes its result to the start of the buffer, and leaves
//! the rest of the buffer unchanged. It sets the size to the length of the result in bytes. If the buffer is too short, the call leaves it
//! unchanged, and sets the size to the length of the result. A call that fails for another reason changes neither.
#![tactic(auto)]

mod buffers;
pub mod editing;
pub mod exporting;
pub mod linting;
pub mod reading;
pub mod recovering;
pub mod status;
pub mod version;
