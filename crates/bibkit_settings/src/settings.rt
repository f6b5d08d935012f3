//! Settings of `lint`, from the command line or from bibkit.toml.

ghost use Rattle.std.specs.Prelude.{◌≡◌, [], None, bytes_eq, find, map, true};
ghost use Rattle.bib_findings.specs.Codes.{all_codes, code_name};
ghost use Rattle.std.specs.Option.{unwrap_or};
ghost use Rattle.bibkit_core.specs.declared.request.FailOn.TheVariants.{Warning};
ghost use Rattle.bibkit_settings.specs.Settings.{all_colors, all_fail_on, all_formats, color_name, color_named};
ghost use Rattle.bibkit_settings.specs.Settings.{fail_on_name, fail_on_named, format_name, format_named};
ghost use Rattle.bibkit_settings.specs.Settings.{is_colored, listed_rules, no_settings, over, style_of};

use bibkit_core::own_names::OwnNames;
use bibkit_core::request::{Cited, FailOn, Lint, Style};
use bibkit_core::rules::Rule;
use bibkit_core::selection::Selection;
use std::alloc::Global;

/// When colours are printed.
#[derive(Debug, Clone, Copy, PartialEq, Eq)]
pub enum Color {
    /// If standard output and standard error are terminals, and the variable `NO_COLOR` is unset, empty or not UTF-8.
    Auto,
    /// Always.
    Always,
    /// Never.
    Never,
}

/// How findings are printed.
#[derive(Debug, Clone, Copy, PartialEq, Eq)]
pub enum OutputFormat {
    /// As lines.
    Text,
    /// As a JSON array.
    Json,
    /// As JSON objects, each on a line.
    JsonLines,
    /// As workflow commands of GitHub Actions.
    Github,
    /// As a document in the XML format of Checkstyle.
    Checkstyle,
    /// As a log in SARIF 2.1.0.
    Sarif,
}

// The names of the codes of findings, in the order in which they are listed.
static CODES: [&str; 39] = [
    "unread-bytes",
    "escape-sequence",
    "syntax",
    "unread-field",
    "unknown-abbreviation",
    "circular-abbreviation",
    "duplicate-key",
    "circular-reference",
    "unread-date",
    "unknown-type",
    "missing-field",
    "superfluous-field",
    "malformed-field",
    "not-a-number",
    "malformed-date",
    "unknown-field",
    "foreign-field",
    "repeated-field",
    "empty-field",
    "wrong-isbn",
    "wrong-issn",
    "doi-address",
    "url-scheme",
    "malformed-name",
    "special-character",
    "html",
    "two-years",
    "empty-key",
    "stray-field",
    "comment-in-entry",
    "unbalanced-quote",
    "unknown-reference",
    "likely-duplicate",
    "key-case",
    "early-parent",
    "repeated-definition",
    "unused-definition",
    "missing-entry",
    "unused-entry",
];

/// Returns the names of all codes of findings, in the order in which they are listed.
pub fn code_names() -> &'static [&'static str]
    ensures { map (λ name. name.now) result.now ≡ map code_name all_codes }
{
    &CODES
}

impl Color {
    /// Returns the names of all variants, in the order in which they are listed.
    pub fn names() -> &'static [&'static str]
        ensures { map (λ name. name.now) result.now ≡ map color_name all_colors }
    {
        &["auto", "always", "never"]
    }

    /// Returns the variant with this name, or `None` if no variant has it. Case matters.
    pub fn from_name(name: &str) -> Option<Self>
        ensures { result ≡ color_named name.now }
    {
        match name {
            "auto" => Some(Self::Auto),
            "always" => Some(Self::Always),
            "never" => Some(Self::Never),
            _ => None,
        }
    }
}

impl OutputFormat {
    /// Returns the names of all variants, in the order in which they are listed.
    pub fn names() -> &'static [&'static str]
        ensures { map (λ name. name.now) result.now ≡ map format_name all_formats }
    {
        &["text", "json", "jsonl", "github", "checkstyle", "sarif"]
    }

    /// Returns the variant with this name, or `None` if no variant has it. Case matters.
    pub fn from_name(name: &str) -> Option<Self>
        ensures { result ≡ format_named name.now }
    {
        match name {
            "text" => Some(Self::Text),
            "json" => Some(Self::Json),
            "jsonl" => Some(Self::JsonLines),
            "github" => Some(Self::Github),
            "checkstyle" => Some(Self::Checkstyle),
            "sarif" => Some(Self::Sarif),
            _ => None,
        }
    }
}

/// Returns the names of the settings for the status of `lint`, in the order in which they are listed.
pub fn fail_on_names() -> &'static [&'static str]
    ensures { map (λ name. name.now) result.now ≡ map fail_on_name all_fail_on }
{
    &["error", "warning", "info", "never"]
}

/// Returns the setting for the status of `lint` with this name, or `None` if none has it. Case matters.
pub fn fail_on_named(name: &str) -> Option<FailOn>
    ensures { result ≡ fail_on_named name.now }
{
    match name {
        "error" => Some(FailOn::Error),
        "warning" => Some(FailOn::Warning),
        "info" => Some(FailOn::Info),
        "never" => Some(FailOn::Never),
        _ => None,
    }
}

/// The settings of `lint`. Each is `None` if it isn't set.
#[derive(Drop)]
pub struct Settings {
    /// The findings to report. If the list is empty or isn't set, it excludes no finding.
    pub only: Option<Vec<Rule>>,
    /// The findings not to report.
    pub ignored: Option<Vec<Rule>>,
    /// When colours are printed.
    pub color: Option<Color>,
    /// How findings are printed.
    pub format: Option<OutputFormat>,
    /// The findings for which the status is 1.
    pub fail_on: Option<FailOn>,
}

impl Settings {
    /// Returns settings of which none is set.
    pub fn none() -> Self
        ensures { result ≡ no_settings }
    {
        Settings {
            only: None,
            ignored: None,
            color: None,
            format: None,
            fail_on: None,
        }
    }

    /// Returns these settings (of the command line). Each that isn't set has the value of `project`. A list of rules replaces the list of
    /// `project`, and isn't joined with it.
    pub fn over(self, project: Self) -> Self
        ensures { result ≡ over self project }
    {
        let Settings {
            only,
            ignored,
            color,
            format,
            fail_on,
        } = self;
        Settings {
            only: only.or(project.only),
            ignored: ignored.or(project.ignored),
            color: color.or(project.color),
            format: format.or(project.format),
            fail_on: fail_on.or(project.fail_on),
        }
    }

    /// Returns the request for `lint` with these settings. If `only` is empty or isn't set, it excludes no finding. If `color`
    /// is `Auto` or isn't set, `are_colors_shown` says whether lines are printed in colours. Only lines have colours. If `fail_on`
    /// isn't set, the status is 1 for errors and warnings. `is_each` says whether each of several files is a database of its own. Lines
    /// of a file can switch off rules. There are no conditions, no own names and no accepted findings.
    pub fn lint<'a>(
        self,
        alloc: Global,
        are_colors_shown: bool,
        cited: Option<Cited<'a>>,
        is_each: bool,
    ) -> Lint<'a>
        ensures only { result.selection.only.items ≡ listed_rules self.only }
        ensures ignored { result.selection.ignored.items ≡ listed_rules self.ignored }
        ensures accepted { result.selection.accepted ≡ None }
        ensures fail_on { result.fail_on ≡ unwrap_or self.fail_on Warning }
        ensures style { result.style ≡ style_of self.format (is_colored self.color are_colors_shown) }
        ensures cited { result.cited ≡ cited.entry }
        ensures each { result.is_each ≡ is_each }
        ensures conditions { result.conditions.items ≡ [] }
        ensures own_fields { result.own.fields.items ≡ [] }
        ensures own_types { result.own.types.items ≡ [] }
        ensures own_abbreviations { result.own.abbreviations.items ≡ [] }
        ensures switches { result.has_switches ≡ true }
    {
        let style = style(self.format, is_colored(self.color, are_colors_shown));
        Lint {
            selection: Selection {
                only: self.only.unwrap_or(Vec::new(alloc)),
                ignored: self.ignored.unwrap_or(Vec::new(alloc)),
                accepted: None,
            },
            style,
            fail_on: self.fail_on.unwrap_or(FailOn::Warning),
            cited,
            is_each,
            conditions: Vec::new(alloc),
            own: OwnNames::none(alloc),
            has_switches: true,
        }
    }
}

// Returns whether colours are printed: `are_shown` if the setting is `Auto` or missing.
fn is_colored(color: Option<Color>, are_shown: bool) -> bool
    ensures { result ≡ is_colored color are_shown }
{
    match color {
        Some(Color::Always) => true,
        Some(Color::Never) => false,
        Some(Color::Auto) | None => are_shown,
    }
}

// Returns the style of a format. If `format` is missing, the style is that of lines. Only lines have colours.
fn style(format: Option<OutputFormat>, is_colored: bool) -> Style
    ensures { result ≡ style_of format is_colored }
{
    match format {
        Some(OutputFormat::Json) => Style::Json,
        Some(OutputFormat::JsonLines) => Style::JsonLines,
        Some(OutputFormat::Github) => Style::Github,
        Some(OutputFormat::Checkstyle) => Style::Checkstyle,
        Some(OutputFormat::Sarif) => Style::Sarif,
        Some(OutputFormat::Text) | None if is_colored => Style::Colored,
        Some(OutputFormat::Text) | None => Style::Plain,
    }
}
