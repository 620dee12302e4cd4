ghost use Rattle.std.specs.Prelude.{◌≡◌, IfOk, OnOk, OnErr};
ghost use Rattle.std.specs.FinSet as set;
ghost use Rattle.std.specs.Coded.{coded_ℕ};
ghost use Rattle.std.specs.Ordering.{nat_cmp};
ghost use Rattle.summary.specs.NumberSet.{number_set};

use std::alloc::{AllocError, Global};
use std::marker::Model;

/// A set of few small numbers. An empty one takes no memory.
#[derive(Debug, Drop)]
pub struct SmallSet {
    numbers: Vec<u8>,
}

impl Model for SmallSet {
    ghost Value = { set.FinSet nat_cmp };

    ghost coded = { set.code coded_ℕ };

    ghost view = { λ a. number_set a.numbers.items };
}

impl SmallSet {
    pub fn new(alloc: Global) -> SmallSet
        ensures { result ≡ set.empty }
    {
        SmallSet {
            numbers: Vec::new(alloc),
        }
    }

    /// The set of one number.
    pub fn of(alloc: Global, number: u8) -> Result<SmallSet, AllocError>
        ensures { IfOk result (λ s. s ≡ set.insert set.empty number) }
    {
        let mut numbers = Vec::new(alloc);
        numbers.push(number)?;
        Ok(SmallSet { numbers })
    }

    pub fn contains(&self, number: u8) -> bool
        ensures { result ≡ set.contains self.now number }
    {
        self.numbers.contains(&number)
    }

    /// The numbers of both.
    pub fn union(mut self, other: SmallSet) -> Result<SmallSet, AllocError>
        ensures { IfOk result (λ s. s ≡ set.union self other) }
    {
        add_all(&mut self.numbers, &other.numbers)?;
        Ok(self)
    }
}

/// Adds a number that is not there yet.
fn add(numbers: &mut Vec<u8>, number: u8) -> Result<(), AllocError>
    ensures { OnOk result (number_set numbers.new.items ≡ set.insert (number_set numbers.old.items) number) }
{
    if !numbers.contains(&number) {
        numbers.push(number)?;
    }
    Ok(())
}

/// Adds each number of the second list.
fn add_all(numbers: &mut Vec<u8>, more: &[u8]) -> Result<(), AllocError>
    ensures { OnOk result (number_set numbers.new.items ≡ set.union (number_set numbers.old.items) (number_set more.now)) }
{
    for number in more {
        add(numbers, *number)?;
    }
    Ok(())
}
