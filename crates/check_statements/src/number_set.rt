//! Numbers of an enumeration that were given.
ghost use Rattle.std.specs.Prelude.{◌≡◌, IfOk, OnOk, false, true, not, if◌then◌else◌};
ghost use Rattle.ttcn_syntax.specs.declared.tree.definition.EnumNumber.{EnumNumber};
ghost use Rattle.check_rules.specs.Definitions.{same_number};
ghost use Rattle.check_statements.specs.internal.Places.{given, is_negative};

use std::alloc::{AllocError, Global};
use std::collections::HashSet;
use ttcn_syntax::EnumNumber;

/// Numbers of an enumeration that were given: whether they are below zero, and their magnitudes.
#[derive(Drop)]
pub(crate) struct NumberSet {
    numbers: HashSet<(bool, u64)>,
}

impl NumberSet {
    pub(crate) fn new(alloc: Global) -> NumberSet
        ensures { (number : EnumNumber) → given result number ≡ false }
    {
        NumberSet {
            numbers: HashSet::new(alloc),
        }
    }

    /// Adds a number, and tells whether it is a new one.
    pub(crate) fn insert(&mut self, number: EnumNumber) -> Result<bool, AllocError>
        ensures is_new { IfOk result (λ is_new. is_new ≡ not (given self.old number)) }
        ensures behind { OnOk result ((other : EnumNumber) → given self.new other ≡ (if same_number other number then true else given self.old other)) }
    {
        let key = (is_negative(number), number.magnitude);
        Ok(self.numbers.insert(key)?)
    }
}

/// Whether a number is below zero: `-0` isn't.
const fn is_negative(number: EnumNumber) -> bool
    ensures { result ≡ is_negative number }
{
    number.minus && number.magnitude != 0
}
