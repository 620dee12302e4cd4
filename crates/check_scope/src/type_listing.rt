//! The types that ports list for a direction.
ghost use Rattle.std.specs.Prelude.{◌≡◌, ◌||◌, IfOk, OnOk, false};
ghost use Rattle.std.specs.List.{list_all, list_any};
ghost use Rattle.check_scope.specs.internal.Listings.{lets_pass};
ghost use Rattle.check_scope.specs.PortTypes as spec;

use crate::types::DataType;
use std::alloc::{AllocError, Global};
use std::collections::HashSet;

/// The types that are listed, for look-ups.
#[derive(Drop)]
pub(crate) struct TypeSet {
    types: HashSet<DataType>,
    has_unknown: bool,
}

impl TypeSet {
    fn new(alloc: Global) -> TypeSet
        ensures { lets_pass result ≡ (λ data_type. false) }
    {
        TypeSet {
            types: HashSet::new(alloc),
            has_unknown: false,
        }
    }

    /// Whether the type is one of them. It isn't judged where one is unknown.
    fn lists(&self, data_type: DataType) -> bool
        ensures { result ≡ lets_pass self.now data_type }
    {
        self.has_unknown || self.types.contains(&data_type)
    }

    fn add(&mut self, other: Option<DataType>) -> Result<(), AllocError>
        ensures { OnOk result (lets_pass self.new ≡ (λ data_type. lets_pass self.old data_type || spec.agrees data_type other)) }
    {
        let Some(other) = other else {
            self.has_unknown = true;
            return Ok(());
        };
        self.types.insert(other)?;
        Ok(())
    }

    fn of(alloc: Global, types: &[Option<DataType>]) -> Result<TypeSet, AllocError>
        ensures { IfOk result (λ set. lets_pass set ≡ (λ data_type. list_any (spec.agrees data_type) types.now)) }
    {
        let mut set = TypeSet::new(alloc);
        for other in types {
            set.add(*other)?;
        }
        Ok(set)
    }
}

/// Whether two types are the same. It isn't judged where one is unknown.
fn agrees(data_type: DataType, other: Option<DataType>) -> bool
    ensures { result ≡ spec.agrees data_type other }
{
    match other {
        Some(other) => data_type.is_same(other),
        None => true,
    }
}

fn agrees_with_all(data_type: DataType, others: &[Option<DataType>]) -> bool
    ensures { result ≡ list_all (spec.agrees data_type) others.now }
{
    others.iter().all(|other| agrees(data_type, *other))
}

/// The only type among types.
fn only_type(types: &[Option<DataType>]) -> Option<DataType>
    ensures { result ≡ spec.only_type types.now }
{
    let [first, others @ ..] = types else {
        return None;
    };
    let first = (*first)?;
    if agrees_with_all(first, others) {
        Some(first)
    } else {
        None
    }
}

/// The types of the messages that pass at ports of a type in a direction; a type is unknown where its name is.
#[derive(Drop)]
pub struct Listing {
    types: Vec<Option<DataType>>,
    set: TypeSet,
    only: Option<DataType>,
    ghost is_set: { lets_pass set ≡ (λ data_type. list_any (spec.agrees data_type) types.items) },
    ghost is_only: { only ≡ spec.only_type types.items },
}

impl Listing {
    pub fn of(alloc: Global, types: Vec<Option<DataType>>) -> Result<Listing, AllocError>
        ensures { IfOk result (λ listing. listing.types.items ≡ types.items) }
    {
        let set = TypeSet::of(alloc, types.as_slice())?;
        let only = only_type(types.as_slice());
        Ok(Listing { types, set, only })
    }

    /// Whether the type is one of them. It isn't judged where one is unknown.
    pub fn lists(&self, data_type: DataType) -> bool
        ensures { result ≡ list_any (spec.agrees data_type) self.now.types.items }
    {
        self.set.lists(data_type)
    }

    /// The only type among them.
    pub fn only_type(&self) -> Option<DataType>
        ensures { result ≡ spec.only_type self.now.types.items }
    {
        self.only
    }
}
