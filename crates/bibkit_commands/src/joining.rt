//! Several files as one database.

use crate::stops::{Stop, bytes_of, report_skipped, say};
use bib_source::decoding::decode;
use std::alloc::AllocError;

/// The texts of files, one after another, and the status of reading them.
#[derive(Drop)]
pub struct Database {
    /// The decoded texts in order, with a line feed after each. A file that can't be read has no text.
    pub text: String,
    /// 2 if a file can't be read, otherwise 1 if a block of a file is skipped, otherwise 0.
    pub status: u8,
}

impl Database {
    // Appends the decoded text of a file, and a line feed. Reports the skipped blocks of the file.
    fn add(&mut self, rt: &HostRuntime, name: &str) -> Result<(), Stop> {
        let bytes = bytes_of(rt, name)?;
        let decoded = decode(rt.alloc(), &bytes)?;
        self.status = report_skipped(rt, name, &decoded.text)?.max(self.status);
        self.text.push_str(&decoded.text)?;
        self.text.push('\n')?;
        Ok(())
    }
}

/// Returns the texts of files as one text, in which an entry of one file can use the definitions and the entries of the others.
/// Reports each file that can't be read, and the skipped blocks of the others.
pub fn join(rt: &HostRuntime, names: &[&str]) -> Result<Database, AllocError> {
    let mut database = Database {
        text: String::new(rt.alloc()),
        status: 0,
    };
    'names: for name in names {
        if let Err(stop) = database.add(rt, name) {
            let stop = stop.unless_out_of_memory()?;
            database.status = say(rt, &stop).max(database.status);
        }
    }
    Ok(database)
}
