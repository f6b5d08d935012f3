//! Runs the commands of `bibkit` that print findings, entries and counts, and replaces files safely.
//!
//! `request` contains the requests, and `files` the trait for reading files. A command on files is a `task`, which returns the text
//! to print for each file. `linting` prints findings, `entries` prints entries, `selecting` prints entries that meet conditions,
//! `counting` prints counts, and `comparing` prints findings and checks the citations of a document with `cited`. `database` prints the
//! findings of several files together. `run` reads the files in turn and prints those texts. `lint_run` chooses the task for `lint`.
//!
//! `selection` selects findings by `rules` and by the findings of an earlier run (`baseline`), and `conditions` by the conditions that
//! entries meet. `own_names` leaves out findings that report names of a project as unknown. `decoding` decodes a file, and `encodings`
//! has the findings of its bytes. `lint` prints the selected findings, and counts them (`tally`). It prints each as a line (`lines`), as
//! a line in colours (`frames`), as a JSON object (`objects`), as a workflow command of GitHub Actions (`commands`), as an element for
//! Checkstyle (`checkstyle`) or as a result of SARIF (`sarif`). `regions` finds the lines and columns of findings, and `escapes` and
//! `uris` escape texts. `tables` prints counts. `messages` prints messages and progress, and `skipped` returns the lines that report
//! the skipped blocks of a file. `version` has the program's version.
//!
//! `folder` specifies each call on the files of a folder, and the contents that a crash may leave. `replacing` replaces the text
//! of a file as a whole: it writes a new file beside the old one, and renames it. `laws` proves that the contracts of `folder`,
//! except that of `remove`, can be met: it has disks on which each of these calls succeeds.
#![tactic(auto)]

pub mod baseline;
mod checkstyle;
mod cited;
mod commands;
mod comparing;
pub mod conditions;
mod counting;
mod database;
mod decoding;
mod encodings;
mod entries;
mod escapes;
pub mod files;
pub mod folder;
mod frames;
pub mod laws;
pub mod lines;
pub mod lint;
mod lint_run;
pub mod linting;
mod messages;
mod objects;
pub mod own_names;
mod regions;
pub mod replacing;
pub mod request;
pub mod rules;
pub mod run;
mod sarif;
mod selecting;
pub mod selection;
pub mod skipped;
mod tables;
mod tally;
pub mod task;
mod uris;
pub mod version;
