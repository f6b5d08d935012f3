//! Code that used the Rust crate `biblatex`, ported to this library.

use biblatex::{Bibliography, ChunksExt};
use std::alloc::Global;
use std::test::Fail;

// Returns a line for each entry: the family names of its authors, its title, and the names of its fields.
fn lines(alloc: Global, src: &str) -> Result<Vec<String>, Fail> {
    let bibliography = Bibliography::parse(alloc, src)?;
    let mut lines = Vec::new(alloc);
    for entry in &bibliography {
        let mut line = String::new(alloc);
        for person in &entry.author(alloc)? {
            line.push_str(person.name.as_str())?;
            line.push_str(", ")?;
        }
        line.push_str(entry.title(alloc)?.format_verbatim(alloc)?.as_str())?;
        for name in entry.fields.keys() {
            line.push(' ')?;
            line.push_str(name)?;
        }
        lines.push(line)?;
    }
    Ok(lines)
}

#[test]
fn port_from_the_rust_crate(rt: HostRuntime) -> Result<(), Fail> {
    let src = "@book{tolkien1937, author = {J. R. R. Tolkien}, title = {The {Hobbit}}}";
    let lines = lines(rt.alloc(), src)?;
    assert!(rt; lines.len() == 1);
    assert!(rt; lines[0].as_str() == "Tolkien, The Hobbit author title");
    Ok(())
}
