//! The months.

ghost use Rattle.std.specs.Prelude.{◌≡◌};
ghost use Rattle.std.specs.List.{find};
ghost use Rattle.bib_tables.specs.Months.{month_of_abbreviation, is_abbreviated, is_word_of, month_abbreviation, month_index, month_name, month_of_word};

/// A month.
#[derive(Debug, Clone, Copy, PartialEq, Eq)]
pub enum Month {
    /// January.
    January,
    /// February.
    February,
    /// March.
    March,
    /// April.
    April,
    /// May.
    May,
    /// June.
    June,
    /// July.
    July,
    /// August.
    August,
    /// September.
    September,
    /// October.
    October,
    /// November.
    November,
    /// December.
    December,
}

impl Month {
    /// Returns the month whose abbreviation `name` is, in any ASCII case.
    pub fn from_abbreviation(name: &str) -> Option<Self>
        ensures { result ≡ month_of_abbreviation name.now }
    {
        find_abbreviated(&MONTHS, name)
    }

    /// Returns the month whose English name or abbreviation `word` is, in any ASCII case.
    pub fn from_word(word: &str) -> Option<Self>
        ensures { result ≡ month_of_word word.now }
    {
        find_named(&MONTHS, word)
    }

    /// Returns the index of the month in the year, from 0.
    pub fn index(self) -> u8
        ensures { result ≡ month_index self }
    {
        match self {
            Self::January => 0,
            Self::February => 1,
            Self::March => 2,
            Self::April => 3,
            Self::May => 4,
            Self::June => 5,
            Self::July => 6,
            Self::August => 7,
            Self::September => 8,
            Self::October => 9,
            Self::November => 10,
            Self::December => 11,
        }
    }

    /// Returns the English name.
    pub fn name(self) -> &'static str
        ensures { result.now ≡ month_name self }
    {
        match self {
            Self::January => "January",
            Self::February => "February",
            Self::March => "March",
            Self::April => "April",
            Self::May => "May",
            Self::June => "June",
            Self::July => "July",
            Self::August => "August",
            Self::September => "September",
            Self::October => "October",
            Self::November => "November",
            Self::December => "December",
        }
    }

    /// Returns the abbreviation: the first three letters of the English name, in lowercase.
    pub fn abbreviation(self) -> &'static str
        ensures { result.now ≡ month_abbreviation self }
    {
        match self {
            Self::January => "jan",
            Self::February => "feb",
            Self::March => "mar",
            Self::April => "apr",
            Self::May => "may",
            Self::June => "jun",
            Self::July => "jul",
            Self::August => "aug",
            Self::September => "sep",
            Self::October => "oct",
            Self::November => "nov",
            Self::December => "dec",
        }
    }

    // Returns whether `name` is the abbreviation, in any ASCII case.
    fn is_abbreviated(self, name: &str) -> bool
        ensures { result ≡ is_abbreviated name.now self }
    {
        name.eq_ignore_ascii_case(self.abbreviation())
    }

    // Returns whether `word` is the English name or the abbreviation, in any ASCII case.
    fn is_named(self, word: &str) -> bool
        ensures { result ≡ is_word_of word.now self }
    {
        word.eq_ignore_ascii_case(self.name()) || self.is_abbreviated(word)
    }
}

// The months in the order of the year.
static MONTHS: [Month; 12] = [
    Month::January,
    Month::February,
    Month::March,
    Month::April,
    Month::May,
    Month::June,
    Month::July,
    Month::August,
    Month::September,
    Month::October,
    Month::November,
    Month::December,
];

// Returns the first of `months` that has `name` as its abbreviation, in any ASCII case.
fn find_abbreviated(months: &[Month], name: &str) -> Option<Month>
    ensures { result ≡ find (is_abbreviated name.now) months.now }
{
    for month in months {
        if month.is_abbreviated(name) {
            return Some(*month);
        }
    }
    None
}

// Returns the first of `months` that has `word` as its English name or its abbreviation, in any ASCII case.
fn find_named(months: &[Month], word: &str) -> Option<Month>
    ensures { result ≡ find (is_word_of word.now) months.now }
{
    for month in months {
        if month.is_named(word) {
            return Some(*month);
        }
    }
    None
}
