//! Settings of `fmt`, from the command line or from bibkit.toml.

ghost use Rattle.std.specs.Prelude.{◌≡◌};
ghost use Rattle.bibkit_settings.specs.StyleSettings.{IsStyleSet, delimiters_named, no_style_settings, over_project, sort_set, width_of};

use edit_format::style::{Delimiters, Style};
use edit_orders::order::Order;

/// Returns the delimiters with this name: `keep`, `braces` or `quotes`. Returns `None` for any other name.
pub fn delimiters_named(name: &str) -> Option<Delimiters>
    ensures { result ≡ delimiters_named name.now }
{
    match name {
        "keep" => Some(Delimiters::Keep),
        "braces" => Some(Delimiters::Braces),
        "quotes" => Some(Delimiters::Quotes),
        _ => None,
    }
}

/// Returns the maximum width of a line for the value `number` of the option, in characters: `None` (no limit) for 0.
pub fn width_of(number: usize) -> Option<usize>
    ensures { result ≡ width_of number }
{
    if number == 0 { None } else { Some(number) }
}

/// The settings of `fmt`. Each is `None` if it isn't set.
#[derive(Debug, Clone, Copy, PartialEq, Eq)]
pub struct StyleSettings<'a> {
    /// The number of spaces before a field.
    pub indent: Option<usize>,
    /// Whether the equals signs of an entry are aligned in one column.
    pub aligned: Option<bool>,
    /// Whether a comma follows the last field of an entry.
    pub trailing_comma: Option<bool>,
    /// The number of blank lines between two entries, or `Some(None)` to keep the white space between them.
    pub blank_lines: Option<Option<usize>>,
    /// The delimiters of literals in values.
    pub delimiters: Option<Delimiters>,
    /// The names of the fields that come first, in this order.
    pub order: Option<&'a [&'a str]>,
    /// The maximum width of a line with several pieces of a value, in characters, or `Some(None)` for no limit.
    pub width: Option<Option<usize>>,
    /// The order of entries, or `Some(None)` to keep their order.
    pub sort: Option<Option<Order>>,
}

impl<'a> StyleSettings<'a> {
    /// Returns settings of which none is set.
    pub fn none() -> Self
        ensures { result ≡ no_style_settings }
    {
        StyleSettings {
            indent: None,
            aligned: None,
            trailing_comma: None,
            blank_lines: None,
            delimiters: None,
            order: None,
            width: None,
            sort: None,
        }
    }

    /// Returns these settings with this order of fields instead of their own.
    pub fn with_order<'b>(self, order: Option<&'b [&'b str]>) -> StyleSettings<'b>
        ensures { result ≡ record self.entry { order = order.entry } }
    {
        StyleSettings {
            indent: self.indent,
            aligned: self.aligned,
            trailing_comma: self.trailing_comma,
            blank_lines: self.blank_lines,
            delimiters: self.delimiters,
            order,
            width: self.width,
            sort: self.sort,
        }
    }

    /// Returns these settings (of the command line). Each that isn't set has the value of `project`.
    pub fn over(self, project: Self) -> Self
        ensures { result ≡ over_project self.entry project.entry }
    {
        StyleSettings {
            indent: self.indent.or(project.indent),
            aligned: self.aligned.or(project.aligned),
            trailing_comma: self.trailing_comma.or(project.trailing_comma),
            blank_lines: self.blank_lines.or(project.blank_lines),
            delimiters: self.delimiters.or(project.delimiters),
            order: self.order.or(project.order),
            width: self.width.or(project.width),
            sort: self.sort.or(project.sort),
        }
    }

    /// Returns the style of these settings. Each that isn't set has the value of the default style.
    pub fn style(self) -> Style<'a>
        ensures { IsStyleSet self.entry result }
    {
        let usual = Style::default();
        Style {
            indent: self.indent.unwrap_or(usual.indent),
            aligned: self.aligned.unwrap_or(usual.aligned),
            trailing_comma: self.trailing_comma.unwrap_or(usual.trailing_comma),
            blank_lines: self.blank_lines.unwrap_or(usual.blank_lines),
            delimiters: self.delimiters.unwrap_or(usual.delimiters),
            order: self.order.unwrap_or(usual.order),
            width: self.width.unwrap_or(usual.width),
        }
    }

    /// Returns the order of entries. Returns `None` if they keep their order, which is the default.
    pub fn sort(self) -> Option<Order>
        ensures { result ≡ sort_set self.entry }
    {
        self.sort.unwrap_or(None)
    }
}
