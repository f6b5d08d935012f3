//! Several files in one text.

ghost use Rattle.std.specs.Prelude.{◌≡◌, ◌<◌, All, length, IfOk, OnOk};
ghost use Rattle.std.specs.String.{string_bytes};
ghost use Rattle.bib_syntax.specs.Files.{AreFilesRecovered, no_files, with_next};
ghost use Rattle.bib_syntax.specs.Views.{file_of};

use crate::raw::recovery::{RawRecovery, recover};
use std::alloc::{AllocError, Global};
use std::marker::Model;

/// The texts of several files in one text. A percent sign and a line feed follow each file.
#[derive(Debug, Drop)]
pub struct JoinedFiles {
    text: String,
    ends: Vec<usize>,
}

impl Model for JoinedFiles {
    ghost use Rattle.std.specs.String.{string_bytes};
    ghost use Rattle.bib_syntax.specs.Files.{AreFiles, FilesText};

    ghost Value = { FilesText };

    ghost view = { λ files. record { text = string_bytes files.text; ends = files.ends.items } };

    ghost invariant = { λ files. AreFiles (string_bytes files.text) 0 files.ends.items };
}

impl JoinedFiles {
    /// Returns the text of no files.
    pub fn new(alloc: Global) -> Self
        ensures { result ≡ no_files }
    {
        JoinedFiles {
            text: String::new(alloc),
            ends: Vec::new(alloc),
        }
    }

    /// Adds a file with this text after the others. Fails only if out of memory. Then a part of the file may have been added.
    pub fn push(&mut self, file: &str) -> Result<(), AllocError>
        ensures { OnOk result (self.new ≡ with_next self.old file.now) }
    {
        self.text.push_str(file)?;
        let end = self.text.as_str().len();
        self.text.push_str("%\n")?;
        self.ends.push(end)?;
        Ok(())
    }

    /// Returns the text of all files.
    pub fn text(&self) -> &str
        ensures { result.now ≡ self.now.text }
    {
        &self.text
    }

    /// Returns the offset at which each file ends, in bytes of the text. The percent sign after the file is there.
    pub fn ends(&self) -> &[usize]
        ensures ends { result.now ≡ self.now.ends }
        ensures within { All (λ end. end < length self.now.text) result.now }
    {
        &self.ends
    }

    /// Parses each file as `RawBibliography::recover_parts` does, as if the text ended with the file. Returns the content and the skipped
    /// blocks of all files, in order. All spans are in bytes of the text of all files. Fails only if out of memory.
    pub fn recover_parts(&self, alloc: Global) -> Result<RawRecovery<'_>, AllocError>
        ensures { IfOk result (λ found. AreFilesRecovered self.now (file_of found.raw) found.skipped.items) }
    {
        let text = self.text();
        let mut found = RawRecovery::nothing(alloc);
        let mut start = 0;
        'files: for end in &self.ends {
            found.append(recover(alloc, &text[..*end], start, true)?)?;
            start = *end + 2;
        }
        Ok(found)
    }
}
