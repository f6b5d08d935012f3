//! Laws: the effects of formatting, sorting, expanding, collecting, and edits of entries on the bibliography of a file.
//!
//! By the file grammar, a formatted text has the same reading as the old text (`edit_format`). Only spans, the case of entry types
//! and field names, and the order of fields may differ. Except for spans and the borders of chunks, a bibliography depends only on this
//! reading without spans and case. `AlikeFacts` and `ReadAlikeFacts` prove this for each definition, from abbreviations to inherited
//! fields, with two readings side by side. The last of two fields with one name counts, and it is the last in both orders
//! (`ReorderedFacts`).
//!
//! A value in which an abbreviation replaces a collected text has the same styled text (`CollectedFacts`). So has an expanded value, if
//! each name has the same definition by the two rules of `AreDefinedAlike` (`ExpandedFacts`).
//!
//! Setting and unsetting change the reading of one entry, and removing drops it. The texts of the entries before inheriting follow from
//! the readings (`TextFacts`, `ReplacedFacts`). The inheritance equation has one solution, and an entry depends only on those that it
//! leads to (`SolutionFacts`, `DifferFacts`). If an entry is removed or moved, each index of the new file has the entry of an old index
//! (`MovedFacts`, `RemovedFacts`, `SortedFacts`).
//!
//! Keys and values begin at byte offsets of their own (`LeadOrderFacts`). So each change of a key or a reference changes the one that its
//! definition names (`LeadChangeFacts`). Each name leads to the entry that it led to (`LeadNameFacts`, `LeadFacts`).
#![tactic(auto)]

pub mod laws;
