//! Orders of entries, and their texts.

ghost use Rattle.std.specs.Prelude.{◌≡◌, ◌++◌, ◌∷◌, [], ◌≤◌, Some, IfErr, IfOk, MatchOption, length, map};
ghost use Rattle.edit_orders.specs.Orders as orders;
ghost use Rattle.edit_orders.specs.Orders.{IsOrderRefused, order_parts, property_named, part_named, comma_words};

use std::alloc::{AllocError, Global};

/// A property by which entries can be sorted. An empty field counts as missing, and the last of several fields with one name, in
/// any ASCII case, counts.
#[derive(Debug, Clone, Copy, PartialEq, Eq)]
pub enum Property {
    /// The key, with ASCII letters in lowercase.
    Key,
    /// The year as a number: the first ASCII digits in the field `date`, or in `year` if there is no `date`. It is negative if only a
    /// hyphen is before them. A year more than 10^18 away from 0 counts as this distance.
    Year,
    /// The names in the field `author`, or in `editor` if there is no `author`, except for `others`. Each name is compared by family name,
    /// given name, suffix and prefix, without accents, case, punctuation and symbols.
    Author,
    /// The title, without accents, case, punctuation, symbols and LaTeX markup.
    Title,
    /// The entry type, with ASCII letters in lowercase.
    Type,
}

impl Property {
    /// Returns the property with this name (`key`, `year`, `author`, `title` or `type`), or `None` if `name` is another word.
    pub fn from_name(name: &str) -> Option<Property>
        ensures { result ≡ property_named name.now }
    {
        match name {
            "key" => Some(Property::Key),
            "year" => Some(Property::Year),
            "author" => Some(Property::Author),
            "title" => Some(Property::Title),
            "type" => Some(Property::Type),
            _ => None,
        }
    }
}

/// A direction in which entries are sorted. Entries without the property come last in both.
#[derive(Debug, Clone, Copy, PartialEq, Eq)]
pub enum Direction {
    /// The least value comes first.
    Ascending,
    /// The greatest value comes first.
    Descending,
}

/// A property with a direction.
#[derive(Debug, Clone, Copy, PartialEq, Eq)]
pub struct SortBy {
    /// The property.
    pub property: Property,
    /// The direction.
    pub direction: Direction,
}

/// An order of entries. Entries are compared by the first property, and by each further one if they are equal by those before it.
/// Entries that are equal by all properties keep their order in the file.
#[derive(Debug, Clone, Copy, PartialEq, Eq)]
pub enum Order {
    /// The order of the file.
    File,
    /// An order by one property.
    One(SortBy),
    /// An order by two properties.
    Two(SortBy, SortBy),
    /// An order by three properties.
    Three(SortBy, SortBy, SortBy),
    /// An order by four properties.
    Four(SortBy, SortBy, SortBy, SortBy),
}

/// The reason why a text is no order.
#[derive(Debug, Clone, Copy, PartialEq, Eq)]
pub enum OrderError<'t> {
    /// This word names no property.
    UnknownProperty(&'t str),
    /// There are more than four properties.
    TooManyProperties,
}

// Returns a property with a direction, if there is a property.
fn directed(property: Option<Property>, direction: Direction) -> Option<SortBy>
    ensures { result ≡ orders.directed direction property }
{
    let property = property?;
    Some(SortBy {
        property,
        direction,
    })
}

// Returns the property with its direction that a word names: the name of a property, with a hyphen before it if descending.
fn part_named(word: &str) -> Option<SortBy>
    ensures { result ≡ part_named word.now }
{
    match word.strip_prefix("-") {
        Some(name) => directed(Property::from_name(name), Direction::Descending),
        None => directed(Property::from_name(word), Direction::Ascending),
    }
}

impl Order {
    /// Parses an order: names of properties separated by commas, each with a hyphen before it if the greatest value comes first. An
    /// example is `author,-year,title`. Returns an error for the first word that names no property, and for a fifth property.
    pub fn parse(text: &str) -> Result<Order, OrderError<'_>>
        ensures parsed { IfOk result (λ order. map Some (order_parts order) ≡ map part_named (comma_words text.now)) }
        ensures refused { IfErr result (IsOrderRefused (comma_words text.now)) }
    {
        let mut order = Order::File;
        'words: for word in text.split(',') {
            let Some(part) = part_named(word) else {
                return Err(OrderError::UnknownProperty(word));
            };
            let Some(longer) = order.then(part) else {
                return Err(OrderError::TooManyProperties);
            };
            order = longer;
        }
        Ok(order)
    }

    // Returns the order with one more property, or `None` if it has four.
    fn then(self, part: SortBy) -> Option<Order>
        ensures { MatchOption result (4 ≤ length (order_parts self)) (λ longer. order_parts longer ≡ order_parts self ++ part ∷ []) }
    {
        match self {
            Order::File => Some(Order::One(part)),
            Order::One(first) => Some(Order::Two(first, part)),
            Order::Two(first, second) => Some(Order::Three(first, second, part)),
            Order::Three(first, second, third) => Some(Order::Four(first, second, third, part)),
            Order::Four(..) => None,
        }
    }

    /// Returns the properties with their directions, the first one first. The only error is out of memory.
    pub fn parts(self, alloc: Global) -> Result<Vec<SortBy>, AllocError>
        ensures { IfOk result (λ parts. parts.items ≡ order_parts self) }
    {
        match self {
            Order::File => Ok(Vec::new(alloc)),
            Order::One(first) => Ok(Vec::from_array(alloc, [first])?),
            Order::Two(first, second) => Ok(Vec::from_array(alloc, [first, second])?),
            Order::Three(first, second, third) => Ok(Vec::from_array(
                alloc,
                [first, second, third],
            )?),
            Order::Four(first, second, third, fourth) => Ok(Vec::from_array(
                alloc,
                [first, second, third, fourth],
            )?),
        }
    }
}
