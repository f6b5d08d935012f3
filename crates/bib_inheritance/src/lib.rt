//! Inheritance through `crossref` and `xdata`. Each entry is resolved once.
//!
//! Contracts see an entry as its `EntryTexts`: its type, and a function from field names to styled texts. The inheritance
//! equation is therefore an equation between lists of `EntryTexts`. It doesn't depend on the order of fields or on the
//! borders of chunks. Own fields that an entry keeps have the same chunks as before.
//!
//! For one entry, `reference_names` finds the entries that it refers to. `offers` decides which field of such an entry
//! provides a missing field. `gathering` collects in a map the fields that the references offer, from the last reference to
//! the first, and copies those that the entry lacks. `inheritable_date` finds the date that can be inherited, and
//! `inheriting` adds the copies and the date to the entry. Except for the date, only the first occurrence of a repeated
//! reference offers fields.
//!
//! For a bibliography, `reference_indices` builds the graph of references, and `turning` resolves the entries in topological
//! order. An entry without references and without `xdata` is left unchanged. `dates` computes the date of an entry when
//! another entry first needs it, and caches it by the index of the entry. The entry was resolved before, so its date doesn't
//! change afterwards. When all entries are resolved, `unread` searches for unreadable dates (see `InheritableDate`), and uses
//! the dates that are cached by then. `resolving` and `recovering` are the entry points: the first returns one error, and the
//! second collects the errors.
#![tactic(auto)]

mod dates;
pub mod gathering;
pub mod inheritable_date;
pub mod inheriting;
pub mod offers;
pub mod recovering;
mod reference_indices;
pub mod reference_names;
pub mod resolving;
mod turning;
mod unread;
