//! Finds the bibliography files that a document names.

ghost use Rattle.std.specs.Prelude.{◌≡◌, ◌==◌, ◌++◌, codes, eqb, map, IfOk, OnOk};
ghost use Rattle.std.specs.List.{ends_with, slice_split};
ghost use Rattle.std.specs.String.{string_bytes};
ghost use Rattle.bib_text.specs.Characters as char;
ghost use Rattle.bib_queries.specs.Elements.{source_name};
ghost use Rattle.bib_queries.specs.Sources as spec;
ghost use Rattle.bib_queries.specs.Texts.{text_list};

use crate::elements::{text_with_name, unescaped_text};
use crate::lines::aux_data;
use crate::names::push_parts;
use std::alloc::{AllocError, Global};

// Returns whether a name ends with `.bib`.
fn ends_with_bib(name: &str) -> bool
    ensures { result ≡ ends_with eqb name.now (codes ".bib") }
{
    name.ends_with(".bib")
}

// Returns the file name for a name in `\bibdata`: the name with `.bib` at its end, which is added if it is missing.
fn file_name(alloc: Global, name: &str) -> Result<String, AllocError>
    ensures { IfOk result (λ file. string_bytes file ≡ spec.file_name name.now) }
{
    let mut file = String::from_str(alloc, name)?;
    if ends_with_bib(name) {
        return Ok(file);
    }
    file.push_str(".bib")?;
    Ok(file)
}

// Returns the names in the first line that begins with a complete `\bibdata`.
fn first_data(alloc: Global, text: &str) -> Result<Vec<&str>, AllocError>
    ensures { IfOk result (λ names. text_list names ≡ spec.first_data (slice_split (λ b. b == char.line_feed) text.now)) }
{
    let mut names = Vec::new(alloc);
    'lines: for line in text.split('\n') {
        if let Some(list) = aux_data(line) {
            push_parts(&mut names, list)?;
            return Ok(names);
        }
    }
    Ok(names)
}

// Returns the file names for the names in `\bibdata`.
fn file_names(alloc: Global, names: &[&str]) -> Result<Vec<String>, AllocError>
    ensures { IfOk result (λ files. map string_bytes files.items ≡ map spec.file_name (map (λ n. n.now) names.now)) }
{
    let mut files = Vec::new(alloc);
    'names: for name in names {
        files.push(file_name(alloc, name)?)?;
    }
    Ok(files)
}

// Appends the file name in an element `bcf:datasource`, without the white space around it. `piece` begins after the `<` of an
// element. For another element or a tag without an end, appends nothing.
fn push_source(alloc: Global, files: &mut Vec<String>, piece: &str) -> Result<(), AllocError>
    ensures { OnOk result (map string_bytes files.new.items ≡ map string_bytes files.old.items ++ source_name piece.now) }
{
    let Some(text) = text_with_name(piece, "bcf:datasource") else {
        return Ok(());
    };
    let text = unescaped_text(alloc, text)?;
    files.push(String::from_str(alloc, text.as_str().trim())?)?;
    Ok(())
}

/// Returns the names of the .bib files that an .aux file names: those of its first `\bibdata`, each with `.bib` at its
/// end. BibTeX skips any further `\bibdata`.
pub fn sources_in_aux(alloc: Global, text: &str) -> Result<Vec<String>, AllocError>
    ensures { IfOk result (λ files. map string_bytes files.items ≡ spec.aux_sources text.now) }
{
    let names = first_data(alloc, text)?;
    let files = file_names(alloc, &names)?;
    Ok(files)
}

/// Returns the names of the files that a control file of Biber names: the texts of its elements `bcf:datasource`. A
/// file that several sections use occurs once for each of them.
pub fn sources_in_bcf(alloc: Global, text: &str) -> Result<Vec<String>, AllocError>
    ensures { IfOk result (λ files. map string_bytes files.items ≡ spec.bcf_sources text.now) }
{
    let mut files = Vec::new(alloc);
    'elements: for piece in text.split('<') {
        push_source(alloc, &mut files, piece)?;
    }
    Ok(files)
}
