//! Starts the program: reads the arguments and runs the command.

ghost use Rattle.std.specs.Prelude.{◌≡◌, Some, codes, IfOk};
ghost use Rattle.bibkit_commands.specs.Messages.{on_file, says};

use crate::arguments::{Asked, Words, read};
use crate::converting::run_convert;
use crate::differing::run_diff;
use crate::document::run_cited;
use crate::edits::{Mode, run_edits};
use crate::files::SystemFiles;
use crate::fixing::run_fix;
use crate::formatting::run_format;
use crate::importing::{run_import, shared_source, source_of};
use crate::merging::run_merge;
use crate::resolving::run_resolve;
use crate::rewriting::run_rewrite;
use crate::selecting::{parse_conditions, run_select};
use crate::stops::{Stop, bytes_of, say};
use bib_select::selection::Selection;
use bib_source::decoding::decode;
use bib_tables::dialects::Dialect;
use bibkit_core::baseline::accepted_texts;
use bibkit_core::request::{Call, Cited, Lint, Request, Selected};
use bibkit_core::run::run;
use bibkit_core::selection::Selection as FindingSelection;
use bibkit_settings::configuration::{ConfigurationError, Project, Reader, project_settings};
use bibkit_settings::settings::{Settings, code_names};
use bibkit_settings::style_settings::StyleSettings;
use biblatex::Output;
use clap::error::ErrorKind;
use edit_orders::order::OrderError;
use std::alloc::{AllocError, Global};
use std::collections::BTreeSet;
use std::io::IsTerminal;
use std::{env, io, mem};

// Returns the words of the command line, including the name of the program.
fn words(rt: &HostRuntime) -> io::Result<Vec<String>> {
    let words = env::args(rt)?.collect(rt.alloc())?;
    Ok(words)
}

// Prints the requested help or version, or the error of the command line. Returns the status: 0 for help and the version, 2 for an error
// or if printing fails, 3 if out of memory.
fn refuse(rt: &HostRuntime, error: &clap::Error) -> u8 {
    if error.kind() == ErrorKind::OutOfMemory {
        return out_of_memory(rt);
    }
    match error.print(rt) {
        Ok(()) if error.exit_code() == 0 => 0,
        _ => 2,
    }
}

// Reports out of memory, and returns the status.
fn out_of_memory(rt: &HostRuntime) -> u8 {
    let _ = rt.eprintln("bibkit: out of memory");
    3
}

// Returns whether the variable `NO_COLOR` has a value that is UTF-8 and isn't empty, by which the user disables colours.
fn refuses_color(rt: &HostRuntime) -> bool {
    match env::var(rt, "NO_COLOR") {
        Ok(value) => !value.is_empty(),
        Err(_) => false,
    }
}

// Returns whether colours are shown by default: standard output and standard error are terminals, and the user hasn't disabled colours.
fn are_colors_shown(rt: &HostRuntime) -> bool {
    rt.stdout().is_terminal() && rt.stderr().is_terminal() && !refuses_color(rt)
}

// Returns the name of the file whose project has the settings: the first of `names`, or `-` (standard input) if there is none.
fn first<'a>(names: &[&'a str]) -> &'a str {
    names.first().copied().unwrap_or("-")
}

// The words of `lint`, except the names of the files.
#[derive(Drop)]
struct LintWords<'a> {
    // The settings of the command line.
    settings: Settings,
    // The document whose citations are compared with the files.
    cited: Option<Cited<'a>>,
    // Whether each of several files is a database of its own.
    is_each: bool,
    // The conditions on the entries that findings are about.
    conditions: Vec<&'a str>,
    // The use of the new texts with `--fix`.
    fix: Option<Mode>,
    // The file with the findings that aren't reported.
    baseline: Option<&'a str>,
}

// Returns a selection of findings with these accepted findings.
fn with_accepted(
    selection: FindingSelection,
    accepted: Option<BTreeSet<String>>,
) -> FindingSelection {
    let FindingSelection { only, ignored, .. } = selection;
    FindingSelection {
        only,
        ignored,
        accepted,
    }
}

// Returns the findings to print, with the settings of the command line and of the project of the first file, these conditions and these
// accepted findings.
fn lint_of<'a>(
    rt: &HostRuntime,
    words: LintWords<'a>,
    conditions: Vec<Selection>,
    accepted: Option<BTreeSet<String>>,
    names: &[&str],
) -> Result<Lint<'a>, ConfigurationError> {
    let project = project_settings(rt, Reader::Lint, first(names))?;
    let mut lint = words.settings.over(project.lint).lint(
        rt.alloc(),
        are_colors_shown(rt),
        words.cited,
        words.is_each,
    );
    let selection = mem::replace(&mut lint.selection, FindingSelection::all(rt.alloc()));
    lint.selection = with_accepted(selection, accepted);
    lint.conditions = conditions;
    lint.own = project.own;
    Ok(lint)
}

// Returns whether a line can be one of the output of `lint` in the format `text`: a finding, or the counts of no errors and warnings.
fn is_line_of_lint(line: &str) -> bool {
    line.starts_with("errors: 0, warnings: 0")
        || line.contains(": error: ")
        || line.contains(": warning: ")
        || line.contains(": info: ")
}

// Returns whether a text can be the output of `lint` in the format `text`: it is empty, or has such a line.
fn is_output_of_lint(text: &str) -> bool {
    text.is_empty() || text.lines().any(|line| is_line_of_lint(line))
}

// Returns the message for a file that isn't the output of `lint`, with status 2.
fn other_output_stop(alloc: Global, name: &str) -> Result<Stop, AllocError>
    ensures { IfOk result (λ stop. says stop
        ≡ Some (on_file name.now (codes "it isn't the output of `lint` with `--format text` and without colours"), 2)) }
{
    let said = format!(in alloc;
        "bibkit: {name}: it isn't the output of `lint` with `--format text` and without colours\n"
    )?;
    Ok(Stop::Said(said, 2))
}

// Returns the texts of the findings in the file with this name, if there is a name. Fails if the file can't be read, or can't
// be the output of `lint`.
fn accepted_by(rt: &HostRuntime, name: Option<&str>) -> Result<Option<BTreeSet<String>>, Stop> {
    let Some(name) = name else {
        return Ok(None);
    };
    let bytes = bytes_of(rt, name)?;
    let output = decode(rt.alloc(), &bytes)?;
    if !is_output_of_lint(&output.text) {
        return Err(other_output_stop(rt.alloc(), name)?);
    }
    Ok(Some(accepted_texts(rt.alloc(), &output.text)?))
}

// Runs a request on files, and returns the status. The file `input` is standard input.
fn run_request<'a>(rt: &HostRuntime, request: Request<'a>, names: Vec<&'a str>, input: &str) -> u8 {
    let call = Call {
        request,
        has_progress: names.len() > 1 && rt.stderr().is_terminal(),
        has_skipped_lines: true,
        names,
    };
    let mut files = SystemFiles::new(rt, input);
    let mut output = Output::new(io::writer(rt));
    let messages = Output::new(rt.stderr());
    run(rt.alloc(), &call, &mut files, &mut output, messages)
}

// Reports the error of reading settings, and returns the status: 2, or 3 if out of memory.
fn refuse_settings(rt: &HostRuntime, error: ConfigurationError) -> u8 {
    match error {
        ConfigurationError::OutOfMemory => out_of_memory(rt),
        ConfigurationError::Wrong(reason) => {
            let _ = eprintln!(rt; "bibkit: {reason}");
            2
        }
    }
}

// Runs `lint`, with or without `--fix`, and returns the status. The file `input` is standard input.
fn run_lint<'a>(rt: &HostRuntime, words: LintWords<'a>, names: Vec<&'a str>, input: &str) -> u8 {
    let conditions = match parse_conditions(rt.alloc(), &words.conditions) {
        Ok(conditions) => conditions,
        Err(stop) => return say(rt, &stop),
    };
    let accepted = match accepted_by(rt, words.baseline) {
        Ok(accepted) => accepted,
        Err(stop) => return say(rt, &stop),
    };
    let fix = words.fix;
    match lint_of(rt, words, conditions, accepted, &names) {
        Ok(lint) => match fix {
            Some(mode) => run_fix(rt, &lint, mode, &names, input),
            None => run_request(rt, Request::Lint(lint), names, input),
        },
        Err(error) => refuse_settings(rt, error),
    }
}

// Replaces each name `-` by `name`. Returns whether there is one.
fn rename_input<'a>(names: &mut [&'a str], name: &'a str) -> bool {
    let mut is_found = false;
    'names: for one in names {
        if *one == "-" {
            *one = name;
            is_found = true;
        }
    }
    is_found
}

// Runs `lint` with standard input under another name, and returns the status: 2 if no file is standard input, or if another file has the
// name.
fn run_named_lint<'a>(
    rt: &HostRuntime,
    words: LintWords<'a>,
    names: Vec<&'a str>,
    name: &'a str,
) -> u8 {
    let mut names = names;
    if names.iter().any(|one| *one == name) || words.cited.is_some_and(|cited| cited.name == name) {
        return refuse_words(
            rt,
            "`--stdin-filename` requires a name that no other file has",
        );
    }
    if !rename_input(&mut names, name) {
        return refuse_words(rt, "`--stdin-filename` requires the file `-`, or no file");
    }
    run_lint(rt, words, names, name)
}

// Prints entries of files that conditions select, or their keys, and returns the status.
fn run_selected<'a>(
    rt: &HostRuntime,
    conditions: &[&str],
    keys: Option<Vec<&'a str>>,
    names: Vec<&'a str>,
) -> u8 {
    match parse_conditions(rt.alloc(), conditions) {
        Ok(conditions) => {
            let request = Request::Selected(Selected { conditions, keys });
            run_request(rt, request, names, "-")
        }
        Err(stop) => say(rt, &stop),
    }
}

// Formats files with these settings, and returns the status.
fn run_settings(rt: &HostRuntime, settings: StyleSettings<'_>, mode: Mode, names: &[&str]) -> u8 {
    run_format(rt, settings.style(), settings.sort(), mode, names)
}

// Returns the order of fields of a project, or `None` if the project sets no order.
fn project_order<'p>(
    alloc: Global,
    project: &'p Project,
) -> Result<Option<Vec<&'p str>>, AllocError> {
    let Some(names) = &project.order else {
        return Ok(None);
    };
    let mut order = Vec::new(alloc);
    'names: for name in names {
        order.push(name.as_str())?;
    }
    Ok(Some(order))
}

// Runs `fmt` with the settings of the command line and of the project of the first file, and returns the status.
fn run_style(
    rt: &HostRuntime,
    settings: StyleSettings<'_>,
    order: Option<Vec<&str>>,
    mode: Mode,
    names: &[&str],
) -> u8 {
    let project = match project_settings(rt, Reader::Fmt, first(names)) {
        Ok(project) => project,
        Err(error) => return refuse_settings(rt, error),
    };
    let Ok(listed) = project_order(rt.alloc(), &project) else {
        return out_of_memory(rt);
    };
    let given = settings.with_order(order.as_deref());
    let set = project.style.with_order(listed.as_deref());
    run_settings(rt, given.over(set), mode, names)
}

// Reports that the command line is wrong, and returns the status.
fn refuse_words(rt: &HostRuntime, reason: &str) -> u8 {
    let _ = eprintln!(rt; "bibkit: {reason}");
    2
}

// Prints files with the types and fields of a dialect, and returns the status. If `is_by_ending`, files whose names end in `.json` or `.ris`
// are read as CSL-JSON or RIS; such files are refused together with others.
fn run_dialect(rt: &HostRuntime, dialect: Dialect, is_by_ending: bool, names: &[&str]) -> u8 {
    if is_by_ending {
        if let Some(source) = shared_source(names) {
            return run_import(rt, dialect, source, names);
        }
        if names.iter().any(|name| source_of(name).is_some()) {
            return refuse_words(
                rt,
                "files that end in `.json` or `.ris` can't be converted together with others",
            );
        }
    }
    run_rewrite(rt, dialect, names)
}

// Returns the names of all codes, with a space before each and commas between them.
fn code_list(alloc: Global) -> Result<String, AllocError> {
    let mut list = String::new(alloc);
    'names: for name in code_names() {
        list.push_str(if list.is_empty() { " " } else { ", " })?;
        list.push_str(name)?;
    }
    Ok(list)
}

// Returns the message for a word that is no rule. It lists the codes.
fn wrong_rule_line(alloc: Global, word: &str) -> Result<String, AllocError> {
    let codes = code_list(alloc)?;
    format!(in alloc;
        "bibkit: `{word}` isn't a code, alone or with a field as in `missing-field:publisher`. The codes are:{codes}\n"
    )
}

// Reports that a word is no rule, and returns the status.
fn refuse_rule(rt: &HostRuntime, word: &str) -> u8 {
    match wrong_rule_line(rt.alloc(), word) {
        Ok(line) => {
            let _ = eprint!(rt; "{line}");
            2
        }
        Err(_) => out_of_memory(rt),
    }
}

// Reports that the order of entries is wrong, and returns the status.
fn refuse_order(rt: &HostRuntime, error: OrderError<'_>) -> u8 {
    match error {
        OrderError::UnknownProperty(word) => {
            let _ = eprintln!(rt;
                "bibkit: --sort `{word}`: expected `keep`, or `key`, `year`, `author`, `title` or `type`, with or without `-` before it"
            );
        }
        OrderError::TooManyProperties => {
            let _ = rt.eprintln("bibkit: --sort: expected at most four properties");
        }
    }
    2
}

// Runs the command of a command line, and returns the status.
fn answer(rt: &HostRuntime, words: Words<'_>) -> u8 {
    let Words { asked, names } = words;
    match asked {
        Asked::Lint {
            settings,
            cited,
            is_each,
            conditions,
            input_name,
            fix,
            baseline,
        } => {
            let words = LintWords {
                settings,
                cited,
                is_each,
                conditions,
                fix,
                baseline,
            };
            match input_name {
                Some(name) => run_named_lint(rt, words, names, name),
                None => run_lint(rt, words, names, "-"),
            }
        }
        Asked::Edits(editing) => run_edits(rt, &editing),
        Asked::Format {
            settings,
            order,
            mode,
        } => run_style(rt, settings, order, mode, &names),
        Asked::Convert(converting) => run_convert(rt, &converting, &names),
        Asked::Resolve { mode, has_notes } => run_resolve(rt, mode, has_notes, &names),
        Asked::Rewrite {
            dialect,
            is_by_ending,
        } => run_dialect(rt, dialect, is_by_ending, &names),
        Asked::Import { dialect, source } => run_import(rt, dialect, source, &names),
        Asked::Cited(document) => run_cited(rt, document, &names),
        Asked::Select(selecting) => run_select(rt, &selecting, &names),
        Asked::Entries { conditions, keys } => run_selected(rt, &conditions, keys, names),
        Asked::Diff(diffing) => run_diff(rt, diffing, &names),
        Asked::Merge(merging) => run_merge(rt, merging, &names),
        Asked::Other(request) => run_request(rt, request, names, "-"),
        Asked::Wrong(reason) => refuse_words(rt, reason),
        Asked::WrongRule(word) => refuse_rule(rt, word),
        Asked::WrongOrder(error) => refuse_order(rt, error),
    }
}

/// Runs the program, and returns the status.
pub fn start(rt: &HostRuntime) -> u8 {
    let words = match words(rt) {
        Ok(words) => words,
        Err(error) if error.kind() == io::ErrorKind::OutOfMemory => return out_of_memory(rt),
        Err(_) => {
            let _ = rt.eprintln("bibkit: the arguments are not UTF-8");
            return 2;
        }
    };
    match read(rt.alloc(), words.as_slice()) {
        Ok(words) => answer(rt, words),
        Err(error) => refuse(rt, &error),
    }
}
