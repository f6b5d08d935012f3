//! Changing a field and writing.

use crate::read::parsed;
use biblatex::PermissiveType;
use std::test::Fail;

#[test]
fn set_a_field_and_write(rt: HostRuntime) -> Result<(), Fail> {
    let alloc = rt.alloc();
    let mut bibliography = parsed(alloc, "@book{k, title={A}}")?;
    if let Some(book) = bibliography.get_mut("k") {
        book.set_edition(&PermissiveType::Typed(2))?;
    }
    let text = bibliography.to_biblatex_string(alloc)?;
    assert!(rt; text.as_str() == "@book{k,\nedition = {2},\ntitle = {A},\n}\n");
    Ok(())
}
