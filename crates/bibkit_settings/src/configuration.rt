//! Reads the settings of a project from bibkit.toml.

use crate::settings::{Color, OutputFormat, Settings, fail_on_named};
use crate::style_settings::{StyleSettings, delimiters_named, width_of};
use bibkit_core::own_names::OwnNames;
use bibkit_core::rules::Rule;
use edit_format::style::Delimiters;
use edit_orders::order::Order;
use std::alloc::{AllocError, AllocFailed, Global};
use std::fs;
use std::io::ErrorKind;
use std::path::Path;
use std::rt::Files;
use toml::{Table, Value};

/// The command that reads the settings of a project. It keeps only its own settings, and doesn't check those of the other command. The
/// table `own` belongs to `lint`.
#[derive(Clone, Copy, PartialEq, Eq)]
pub enum Reader {
    /// The command `lint`.
    Lint,
    /// The command `fmt`.
    Fmt,
}

/// The settings of a project.
#[derive(Drop)]
pub struct Project {
    /// The settings of `lint`.
    pub lint: Settings,
    /// The names of the project's own style.
    pub own: OwnNames,
    /// The settings of `fmt`, except the order of fields.
    pub style: StyleSettings<'static>,
    /// The order of fields: the names of the fields that come first, if that is set.
    pub order: Option<Vec<String>>,
}

impl Project {
    // Returns settings of which none is set.
    fn none(alloc: Global) -> Self {
        Project {
            lint: Settings::none(),
            own: OwnNames::none(alloc),
            style: StyleSettings::none(),
            order: None,
        }
    }
}

/// The error of reading the settings of a project.
#[derive(Debug, Drop)]
pub enum ConfigurationError {
    /// The file can't be read, or has an error, for the reason in this text.
    Wrong(String),
    /// Out of memory.
    OutOfMemory,
}

impl From<AllocError> for ConfigurationError {
    fn from(_error: AllocError) -> Self {
        ConfigurationError::OutOfMemory
    }
}

impl<T: Drop> From<AllocFailed<T>> for ConfigurationError {
    fn from(_error: AllocFailed<T>) -> Self {
        ConfigurationError::OutOfMemory
    }
}

impl ConfigurationError {
    // Returns this error with the file name `name` before its text. `OutOfMemory` is unchanged.
    fn of_file(self, alloc: Global, name: &str) -> Result<Self, AllocError> {
        match self {
            Self::Wrong(reason) => Ok(Self::Wrong(format!(in alloc;
                "{name}: {}",
                reason.as_str()
            )?)),
            other => Ok(other),
        }
    }
}

// Returns the error of a setting whose value isn't `wanted`.
fn wrong<T: Drop>(alloc: Global, key: &str, wanted: &str) -> Result<T, ConfigurationError> {
    Err(ConfigurationError::Wrong(format!(in alloc; "expected {wanted} for `{key}`")?))
}

// The words for a list of rules in errors.
const RULES: &str = "a list of codes";

// Returns the rule that a value names. Fails if the value isn't a code, alone or with the name of a field.
fn rule(alloc: Global, key: &str, value: &Value) -> Result<Rule, ConfigurationError> {
    let Some(name) = value.as_str() else {
        return wrong(alloc, key, RULES);
    };
    match Rule::parse(alloc, name)? {
        Some(rule) => Ok(rule),
        None => wrong(alloc, key, RULES),
    }
}

// Returns the rules that a value lists, as a setting. Fails if the value isn't an array of rules.
fn rules(alloc: Global, key: &str, value: &Value) -> Result<Option<Vec<Rule>>, ConfigurationError> {
    let Some(values) = value.as_array() else {
        return wrong(alloc, key, RULES);
    };
    let mut rules = Vec::new(alloc);
    'values: for value in values {
        rules.push(rule(alloc, key, value)?)?;
    }
    Ok(Some(rules))
}

// Returns the error of an unknown setting.
fn unknown<T: Drop>(alloc: Global, key: &str) -> Result<T, ConfigurationError> {
    Err(ConfigurationError::Wrong(format!(in alloc; "unknown setting `{key}`")?))
}

// The values of `format` in the message for a wrong value.
const FORMATS: &str = "\"text\", \"json\", \"jsonl\", \"github\", \"checkstyle\" or \"sarif\"";

// Sets the setting of `lint` with this key. Fails if `lint` has no such setting, or if the value is wrong for it.
fn set_lint(
    alloc: Global,
    settings: &mut Settings,
    key: &str,
    value: &Value,
) -> Result<(), ConfigurationError> {
    match key {
        "only" => settings.only = rules(alloc, key, value)?,
        "ignore" => settings.ignored = rules(alloc, key, value)?,
        "color" => match value.as_str().and_then(Color::from_name) {
            Some(color) => settings.color = Some(color),
            None => return wrong(alloc, key, "\"auto\", \"always\" or \"never\""),
        },
        "format" => match value.as_str().and_then(OutputFormat::from_name) {
            Some(format) => settings.format = Some(format),
            None => return wrong(alloc, key, FORMATS),
        },
        "fail-on" => match value.as_str().and_then(fail_on_named) {
            Some(fail_on) => settings.fail_on = Some(fail_on),
            None => {
                return wrong(alloc, key, "\"error\", \"warning\", \"info\" or \"never\"");
            }
        },
        _ => return unknown(alloc, key),
    }
    Ok(())
}

// Returns the number of spaces of `fmt.indent`: an integer from 0 to 8.
fn indent(alloc: Global, value: &Value) -> Result<Option<usize>, ConfigurationError> {
    match value.as_integer().map(usize::try_from) {
        Some(Ok(spaces)) if spaces <= 8 => Ok(Some(spaces)),
        _ => wrong(alloc, "fmt.indent", "a number from 0 to 8"),
    }
}

// Returns the number of blank lines of `fmt.blank-lines`: an integer from 0 to 3, or `Some(None)` for "keep".
fn blank_lines(alloc: Global, value: &Value) -> Result<Option<Option<usize>>, ConfigurationError> {
    if value.as_str() == Some("keep") {
        return Ok(Some(None));
    }
    match value.as_integer().map(usize::try_from) {
        Some(Ok(lines)) if lines <= 3 => Ok(Some(Some(lines))),
        _ => wrong(alloc, "fmt.blank-lines", "\"keep\" or a number from 0 to 3"),
    }
}

// Returns the boolean of a value, as a setting.
fn choice(alloc: Global, key: &str, value: &Value) -> Result<Option<bool>, ConfigurationError> {
    match value.as_bool() {
        Some(yes) => Ok(Some(yes)),
        None => wrong(alloc, key, "true or false"),
    }
}

// Returns the delimiters that `fmt.delimiters` names, as a setting.
fn delimiters(alloc: Global, value: &Value) -> Result<Option<Delimiters>, ConfigurationError> {
    match value.as_str().and_then(delimiters_named) {
        Some(delimiters) => Ok(Some(delimiters)),
        None => wrong(
            alloc,
            "fmt.delimiters",
            "\"keep\", \"braces\" or \"quotes\"",
        ),
    }
}

// Returns a name from an element of the list that is the value of the setting `key`. If the element isn't a text, the error says that the
// setting should be `wanted`, such as a list of field names.
fn listed_name(
    alloc: Global,
    key: &str,
    wanted: &str,
    value: &Value,
) -> Result<String, ConfigurationError> {
    match value.as_str() {
        Some(name) => Ok(String::from_str(alloc, name)?),
        None => wrong(alloc, key, wanted),
    }
}

// Returns the names in the list that is the value of the setting `key`. If the value isn't a list of texts, the error says that the setting
// should be `wanted`, such as a list of field names.
fn listed_names(
    alloc: Global,
    key: &str,
    wanted: &str,
    value: &Value,
) -> Result<Vec<String>, ConfigurationError> {
    let Some(values) = value.as_array() else {
        return wrong(alloc, key, wanted);
    };
    let mut names = Vec::new(alloc);
    'values: for value in values {
        names.push(listed_name(alloc, key, wanted, value)?)?;
    }
    Ok(names)
}

// The words for a list of field names in errors.
const FIELD_NAMES: &str = "a list of field names";

// Sets the setting with this key of the table `own`. Fails if the table has no such setting, or if the value is wrong for it.
fn set_own(
    alloc: Global,
    own: &mut OwnNames,
    key: &str,
    value: &Value,
) -> Result<(), ConfigurationError> {
    match key {
        "fields" => own.fields = listed_names(alloc, "own.fields", FIELD_NAMES, value)?,
        "types" => {
            own.types = listed_names(alloc, "own.types", "a list of entry types", value)?;
        }
        "abbreviations" => {
            let wanted = "a list of abbreviations";
            own.abbreviations = listed_names(alloc, "own.abbreviations", wanted, value)?;
        }
        _ => {
            let key = format!(in alloc; "own.{key}")?;
            return unknown(alloc, &key);
        }
    }
    Ok(())
}

// Sets all settings of the table `own`.
fn set_own_names(
    alloc: Global,
    own: &mut OwnNames,
    value: &Value,
) -> Result<(), ConfigurationError> {
    let Some(table) = value.as_table() else {
        return wrong(alloc, "own", "a table");
    };
    'keys: for (key, value) in table {
        set_own(alloc, own, key.as_str(), value)?;
    }
    Ok(())
}

// Returns the width of `fmt.width`: an integer that isn't negative. 0 is no limit (`Some(None)`).
fn width(alloc: Global, value: &Value) -> Result<Option<Option<usize>>, ConfigurationError> {
    match value.as_integer().map(usize::try_from) {
        Some(Ok(characters)) => Ok(Some(width_of(characters))),
        _ => wrong(alloc, "fmt.width", "a number (0 for none)"),
    }
}

// Returns the order of entries that `fmt.sort` names, or `Some(None)` for "keep".
fn sort(alloc: Global, value: &Value) -> Result<Option<Option<Order>>, ConfigurationError> {
    if value.as_str() == Some("keep") {
        return Ok(Some(None));
    }
    match value.as_str().map(Order::parse) {
        Some(Ok(order)) => Ok(Some(Some(order))),
        _ => wrong(
            alloc,
            "fmt.sort",
            "\"keep\", or up to four of key, year, author, title and type, such as \"author,-year\"",
        ),
    }
}

// Sets the setting with this key of the table `fmt`. Fails if the table has no such setting, or if the value is wrong for it.
fn set_style(
    alloc: Global,
    project: &mut Project,
    key: &str,
    value: &Value,
) -> Result<(), ConfigurationError> {
    let settings = &mut project.style;
    match key {
        "indent" => settings.indent = indent(alloc, value)?,
        "align" => settings.aligned = choice(alloc, "fmt.align", value)?,
        "trailing-comma" => settings.trailing_comma = choice(alloc, "fmt.trailing-comma", value)?,
        "blank-lines" => settings.blank_lines = blank_lines(alloc, value)?,
        "delimiters" => settings.delimiters = delimiters(alloc, value)?,
        "width" => settings.width = width(alloc, value)?,
        "sort" => settings.sort = sort(alloc, value)?,
        "order" => project.order = Some(listed_names(alloc, "fmt.order", FIELD_NAMES, value)?),
        _ => {
            let key = format!(in alloc; "fmt.{key}")?;
            return unknown(alloc, &key);
        }
    }
    Ok(())
}

// Sets all settings of the table `fmt`.
fn set_styles(
    alloc: Global,
    project: &mut Project,
    value: &Value,
) -> Result<(), ConfigurationError> {
    let Some(table) = value.as_table() else {
        return wrong(alloc, "fmt", "a table");
    };
    'keys: for (key, value) in table {
        set_style(alloc, project, key.as_str(), value)?;
    }
    Ok(())
}

// Sets the setting with this key of the file, if it is a setting of the command `reader`. Skips settings of the other command. Fails for
// any other key, and if the value is wrong for the setting.
fn set(
    alloc: Global,
    project: &mut Project,
    reader: Reader,
    key: &str,
    value: &Value,
) -> Result<(), ConfigurationError> {
    match (reader, key) {
        (Reader::Lint, "fmt") => Ok(()),
        (Reader::Lint, "own") => set_own_names(alloc, &mut project.own, value),
        (Reader::Lint, _) => set_lint(alloc, &mut project.lint, key, value),
        (Reader::Fmt, "only" | "ignore" | "color" | "format" | "fail-on" | "own") => Ok(()),
        (Reader::Fmt, "fmt") => set_styles(alloc, project, value),
        (Reader::Fmt, _) => unknown(alloc, key),
    }
}

// Returns the settings of the command `reader` that the table of a file contains.
fn settings_of(
    alloc: Global,
    reader: Reader,
    table: &Table,
) -> Result<Project, ConfigurationError> {
    let mut project = Project::none(alloc);
    'keys: for (key, value) in table {
        set(alloc, &mut project, reader, key.as_str(), value)?;
    }
    Ok(project)
}

// Parses the settings of the command `reader` in the bytes of a file, which must be UTF-8.
fn read(alloc: Global, reader: Reader, bytes: Vec<u8>) -> Result<Project, ConfigurationError> {
    let Ok(text) = String::from_utf8(bytes) else {
        return Err(ConfigurationError::Wrong(String::from_str(alloc, "it is not UTF-8")?));
    };
    match toml::table_from_str(alloc, text.as_str()) {
        Ok(table) => settings_of(alloc, reader, &table),
        Err(error) => Err(ConfigurationError::Wrong(format!(in alloc; "{error}")?)),
    }
}

/// Returns the folder of a file. It is the current folder for a name without a folder and for standard input (`-`).
pub fn folder(name: &str) -> Path<'_> {
    match Path::new(name).parent() {
        Some(parent) if name != "-" && !parent.to_string_lossy().is_empty() => parent,
        _ => Path::new("."),
    }
}

// Returns the settings of the file with this name, or `None` if it doesn't exist.
fn settings_at<R: Files + AllocGlobal>(
    rt: &R,
    reader: Reader,
    name: &str,
) -> Result<Option<Project>, ConfigurationError> {
    let alloc = rt.alloc();
    match fs::read(rt, name) {
        Ok(bytes) => Ok(Some(read(alloc, reader, bytes)?)),
        Err(error) => match error.kind() {
            ErrorKind::NotFound => Ok(None),
            ErrorKind::OutOfMemory => Err(ConfigurationError::OutOfMemory),
            _ => Err(ConfigurationError::Wrong(String::from_str(alloc, "it can't be read")?)),
        },
    }
}

// Returns the settings of the file `bibkit.toml` of a folder, or `None` if the folder has no such file.
fn settings_in<R: Files + AllocGlobal>(
    rt: &R,
    reader: Reader,
    folder: Path<'_>,
) -> Result<Option<Project>, ConfigurationError> {
    let path = folder.join(rt.alloc(), "bibkit.toml")?;
    let name = path.to_string_lossy();
    match settings_at(rt, reader, name) {
        Ok(settings) => Ok(settings),
        Err(error) => Err(error.of_file(rt.alloc(), name)?),
    }
}

// The maximum number of folders that are searched if the path of the first one can't be resolved.
const FOLDERS: usize = 100;

// Returns the settings in the nearest of a folder and those above it that has a file `bibkit.toml`. Searches no more than `FOLDERS`
// folders. The path may not be UTF-8, so the root can't be recognized.
fn settings_above<R: Files + AllocGlobal>(
    rt: &R,
    reader: Reader,
    folder: Path<'_>,
) -> Result<Project, ConfigurationError> {
    let mut name = String::from_str(rt.alloc(), folder.to_string_lossy())?;
    'folders: for _ in 0..FOLDERS {
        if let Some(settings) = settings_in(rt, reader, Path::new(name.as_str()))? {
            return Ok(settings);
        }
        name.push_str("/..")?;
    }
    Ok(Project::none(rt.alloc()))
}

/// Returns the settings for the command `reader` from the project of the file `name`. They are in `bibkit.toml` in the folder of
/// the file, or in the nearest folder above that has such a file. Returns settings of which none is set if there is no such file. If the
/// path of the folder of `name` can't be resolved, searches at most 100 folders. For `-` the search starts at the current folder. Fails if
/// `bibkit.toml` can't be read or has an error.
pub fn project_settings<R: Files + AllocGlobal>(
    rt: &R,
    reader: Reader,
    name: &str,
) -> Result<Project, ConfigurationError> {
    let Ok(start) = fs::canonicalize(rt, folder(name)) else {
        return settings_above(rt, reader, folder(name));
    };
    'folders: for folder in start.ancestors() {
        if let Some(settings) = settings_in(rt, reader, folder)? {
            return Ok(settings);
        }
    }
    Ok(Project::none(rt.alloc()))
}
