//! Prints messages, and the progress of a run.

use crate::files::FileError;
use biblatex::Sink;
use std::alloc::{AllocError, Global};

// The maximum number of characters of a file name in the line of progress.
const MOST_SHOWN: usize = 60;

// The escape sequence that moves the cursor to the start of the line, and clears the line.
const CLEAR: &str = "\r\x1b[K";

/// The sink for messages, and the progress of a run.
#[derive(Drop)]
pub struct Messages<M> {
    sink: M,
    has_progress: bool,
    has_skipped_lines: bool,
    total: usize,
    begun: usize,
}

impl<M: Sink> Messages<M> {
    /// Returns the messages of a run over `total` files. Progress is shown if `has_progress`, and skipped blocks are reported if
    /// `has_skipped_lines`.
    pub fn new(sink: M, has_progress: bool, has_skipped_lines: bool, total: usize) -> Self {
        Messages {
            sink,
            has_progress,
            has_skipped_lines,
            total,
            begun: 0,
        }
    }

    /// Counts the next file. If progress is shown, replaces the line of progress by the number of this file, the number of all files, and
    /// the name of this file. The name is cut to `MOST_SHOWN` characters, without control characters.
    pub fn begin(&mut self, alloc: Global, name: &str) -> Result<(), AllocError> {
        self.begun = self.begun.saturating_add(1);
        if self.has_progress {
            let name: String = name
                .chars()
                .filter(|character| !character.is_control())
                .take(MOST_SHOWN)
                .collect(alloc)?;
            let text = format!(in alloc;
                "{}[{}/{}] {}",
                CLEAR,
                self.begun,
                self.total,
                name.as_str()
            )?;
            let _ = self.sink.write_str(&text);
        }
        Ok(())
    }

    /// Clears the line of progress, if progress is shown.
    pub fn clear(&mut self) {
        if self.has_progress {
            let _ = self.sink.write_str(CLEAR);
        }
    }

    /// Clears the line of progress, if progress is shown, and prints the error of a file that can't be read.
    pub fn report(
        &mut self,
        alloc: Global,
        name: &str,
        error: FileError,
    ) -> Result<(), AllocError> {
        self.clear();
        let text = format!(in alloc; "bibkit: {name}: {}\n", error.text())?;
        let _ = self.sink.write_str(&text);
        Ok(())
    }

    /// Prints the lines for the skipped blocks of a file, if skipped blocks are reported.
    pub fn report_skipped(&mut self, lines: &str) {
        if self.has_skipped_lines {
            let _ = self.sink.write_str(lines);
        }
    }

    /// Clears the line of progress, if progress is shown, and prints the message that ends the run.
    pub fn end(&mut self, text: &str) {
        self.clear();
        let _ = self.sink.write_str(text);
    }
}
