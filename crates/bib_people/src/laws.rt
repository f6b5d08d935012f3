//! Laws of people. The function has an empty body: its contract is a theorem about the definitions that it names.

ghost use Rattle.std.specs.Prelude.{◌≡◌};
ghost use Rattle.bib_people.specs.PersonOrder.{person_cmp};
ghost use Rattle.bib_people.specs.declared.person.Person.{Person as APerson};

use crate::person::Person;

/// States that people are ordered by the first field in which they differ. The fields are compared in this order:
/// `name`, `given_name`, `prefix`, `suffix`, `id`, `prefix_initials`, `given_initials`, `use_prefix`. An absent field
/// comes first.
pub fn people_are_ordered_by_their_fields()
    ensures { (p q : APerson) → ⟦<Person as Ord>⟧.cmp p q ≡ person_cmp p q }
{}
