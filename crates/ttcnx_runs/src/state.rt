//! Canonical configurations, as states, which are kept as bytes.
ghost use Rattle.std.specs.Prelude.{◌≡◌};
ghost use Rattle.ttcnx_runs.specs.States.{fed, fed_alike, hash_code};
ghost use Rattle.ttcnx_runs.specs.SameConfigurations.{same_configuration, same_configuration_equiv, same_configuration_laws};

use crate::scheme::Scheme;
use std::hash::{Hash, Hasher};
use std::marker::{Model, PhantomData};
use ttcn_config::InternedConfig;

/// A configuration of the machine that `K` names. Contracts see that of the rules for which it stands.
#[derive(Drop)]
pub struct State<'p, K: Scheme> {
    pub(crate) packed: InternedConfig<'p>,
    /// What its bytes are hashed to, once.
    pub(crate) hash: u32,
    /// Where this is true, some label is enabled.
    pub(crate) goes_on: bool,
    /// The place of the component whose step made it, or else 255. Nothing depends on it but the time that is taken.
    pub(crate) by: u8,
    pub(crate) of: PhantomData<K>,
}

impl<'p, K: Scheme> Model for State<'p, K> {
    ghost use Rattle.std.specs.Coded.{codes};
    ghost use Rattle.ttcn_syntax.specs.contracts.tree.statement.Action as action;
    ghost use Rattle.ttcn_syntax.specs.contracts.tree.statement.Branch as branch;
    ghost use Rattle.ttcn_syntax.specs.contracts.tree.statement.Statement as statement;
    ghost use Rattle.ttcn_syntax.specs.contracts.tree.template.Template as template;
    ghost use Rattle.ttcn_syntax.specs.contracts.tree.value.Value as tree_value;
    ghost use Rattle.value_types.specs.contracts.value.Value as value;
    ghost use Rattle.ttcnx_runs.specs.Going.{GoesOn};
    ghost use Rattle.ttcnx_runs.specs.Schemes.{IsMachine};
    ghost use Rattle.ttcnx_runs.specs.States.{hash_code};
    ghost use Rattle.std.specs.Prelude.{◌≡◌};
    ghost use Rattle.semantics.specs.Configurations as rules;
    ghost use Rattle.config_parts.specs.Views.{IsConfigWithin};
    ghost use Rattle.ttcn_step.specs.Machines.{extent, said};

    ghost Value = { rules.Configuration };

    ghost coded = { Prim.hlevel (codes, action.the_row.coded, branch.the_row.coded, statement.the_row.coded, template.the_row.coded, tree_value.the_row.coded, value.the_row.coded) };

    ghost view = { λ state. said K.machine state.packed };

    ghost invariant = { λ state. IsMachine K.machine × IsConfigWithin (extent K.machine) state.packed × GoesOn K.machine.test (said K.machine state.packed) state.goes_on × (state.hash ≡ hash_code state.packed) };
}

/// The upper half of what the bytes of a configuration are hashed to.
pub(crate) fn hash_of(packed: &InternedConfig<'_>) -> u32
    ensures { result ≡ hash_code packed.now }
{
    (packed.hash() >> 32) as u32
}

/// A place of a component in a byte, or else 255.
pub(crate) fn hint_of(place: usize) -> u8 {
    u8::try_from(place).unwrap_or(u8::MAX)
}

impl<K: Scheme> PartialEq for State<'_, K> {
    ghost eq = { same_configuration };

    ghost laws = { same_configuration_laws };

    fn eq(&self, other: &State<'_, K>) -> bool {
        self.packed == other.packed
    }
}

impl<K: Scheme> Eq for State<'_, K> {
    ghost laws = { same_configuration_equiv };
}

impl<K: Scheme> Hash for State<'_, K> {
    ghost hash_input = { fed K.machine };

    ghost respects_eq = { fed_alike K.machine };

    fn hash<H: Hasher>(&self, state: &mut H) {
        state.write_u32(self.hash);
    }
}
