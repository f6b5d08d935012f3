//! The grammar of bibliography files.
//!
//! `raw` parses in one pass and never backtracks, except in recovery. Most functions for a rule that can fail have the clauses
//! `found` and `fails`. `found` (Ok) states that the rule matches the text between the places before and after the call, with
//! the returned reading. `fails` (Err) states that the rule fails at the place before the call with the returned error, unless
//! memory ran out. `words` parses names, keys, and the pieces of values. `fields` parses line comments, values and fields.
//! `file` parses blocks and the file. Nested braces are counted without recursion, so no depth of braces overflows the stack.
//! `entry_reader` parses a file one entry at a time, for callers that don't need the whole content at once. `files` joins several
//! files in one text, and recovers each of them.
//!
//! The definitions in `SyntaxErrors` state how the rules of the grammar fail: with which error and at which place. `laws`
//! proves, from the definitions only, that each UTF-8 text has exactly one raw reading or exactly one error, but not both.
//! It also proves that each UTF-8 text has exactly one recovery and one full recovery, with the same skipped blocks.
//!
//! `recovery` parses a file even if some of its blocks can't be parsed. If a block fails, its error is kept, and parsing
//! continues at the next at sign that begins a line: only white space precedes it there. The text of a failed block may
//! therefore be parsed again. `memo` prevents that it is scanned many times. It has the offsets at which braces close and lines
//! end, and the one after the last closing brace. `reader`, the scanner of these functions, uses them to jump. `memo`
//! also has the offset of each field that a failed block after the first one began to parse, with the error of that block.
//! `failing` finds these fields when the block has failed. Whether and how parsing fields fails depends only on the offset. A
//! later block that reaches such a field therefore returns the known error without parsing it. `kept` parses the complete
//! parts of a failed block, in the text up to the place where parsing continues.
//!
//! The grammar is written once and has two modes. In the mode `any`, a run of characters may end anywhere. This is the file
//! grammar, which accepts or rejects a text. In the mode `longest`, each run is as long as possible. This is the raw reading,
//! in which each part has one span. In this mode, three rules forbid a character after them. No point follows a number, no
//! `#` follows a value, and no `%` follows a gap without a line comment. A line comment ends at the line feed or the end of
//! the text, in both modes.
//!
//! The function for a block returns the reading of the block, and another function appends it to the reading of the blocks
//! before. So no grammar rule mentions the list that is filled. The proofs of the loops maintain two facts. A match from the
//! current place gives a match from the start. A failure from the current place gives a failure from the start.
#![tactic(auto)]

pub mod laws;
pub mod raw;
