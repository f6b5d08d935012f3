//! Reading a file.

use biblatex::{Bibliography, ChunksExt, ParseError};
use std::alloc::Global;
use std::test::Fail;

// Returns the bibliography of a file. It has no contract, so that examples that call it prove nothing about parsing.
pub(crate) fn parsed(alloc: Global, src: &str) -> Result<Bibliography, ParseError> {
    Bibliography::parse(alloc, src)
}

#[test]
fn parse_a_file(rt: HostRuntime) -> Result<(), Fail> {
    let alloc = rt.alloc();
    let src = "@book{tolkien1937, title = {The {Hobbit}}}";
    let bibliography = parsed(alloc, src)?;
    let Some(book) = bibliography.get("tolkien1937") else {
        return Err(Fail::from("no such entry"));
    };
    let title = book.title(alloc)?.format_verbatim(alloc)?;
    assert!(rt; title.as_str() == "The Hobbit");
    Ok(())
}
