//! Recodes files: the bytes of a file in one of five encodings become a text, and a text gets line ends of one kind.
//!
//! `encoding` contains the encodings, their names, and the detection of the encoding of a file. `decoding` decodes bytes.
//! `utf16` makes units of UTF-16 from bytes, and finds surrogates without a partner. `latin1` decodes ISO 8859-1.
//! `line_ends` writes a text with line ends of one kind.
#![tactic(auto)]

pub mod decoding;
pub mod encoding;
mod latin1;
pub mod line_ends;
mod utf16;
