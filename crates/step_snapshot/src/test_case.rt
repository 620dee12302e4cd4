//! Test cases that can be run.
ghost use Rattle.std.specs.Prelude.{◌≡◌, ℕ, ◌<◌, ◌^◌, [], get_or, length};
ghost use Rattle.check_scope.specs.Names.{kind_at};
ghost use Rattle.semantics.specs.Snapshots.{mtc_of};
ghost use Rattle.semantics.specs.Statements as said;
ghost use Rattle.step_snapshot.specs.Slots.{NoneIsMissing};
ghost use Rattle.config_parts.specs.internal.Stored.{no_cells};
ghost use Rattle.graph_names.specs.Known.{names_of, names_of_kind};
ghost use Rattle.check_rules.specs.Rules.{AreWellTyped};

use check_rules::Definitions;
use config_parts::Cells;
use graph_numbers::Names;
use ttcn_graph::Graphs;
use ttcn_syntax::{Name, Seq};
use value_types::{ComponentId, Value};

/// A test case, with all that its steps need of its module, which breaks no rule.
pub struct TestCase<'a> {
    /// The definitions of the module, by their names.
    pub definitions: Definitions<'a>,
    pub graphs: Graphs<'a>,
    /// The names that have slots.
    pub names: Names,
    /// The position of the test case among the definitions.
    pub position: usize,
    pub mtc: ComponentId,
    /// The position of the component type whose ports are the system ports.
    pub system_type: usize,
    /// The messages that come in at system ports.
    pub script: &'a [(Name, Seq<Value>)],
    /// No names, which is what a behaviour sees of a component on which it doesn't say to run.
    pub nothing: Cells,
    ghost well: { AreWellTyped definitions },
    ghost same: { graphs.definitions ≡ definitions },
    ghost main: { mtc_of (record { definitions = definitions; testcase = position; script = script.now }) ≡ mtc },
    ghost interface: { said.system_type (record { definitions = definitions; testcase = position; script = script.now }) ≡ system_type },
    ghost none: { nothing ≡ no_cells },
    ghost room: { length names < 2 ^ 32 },
    ghost items: { (position : ℕ) → NoneIsMissing names (names_of (get_or graphs.lists position [])) },
    ghost known: { (at : ℕ) → NoneIsMissing names (names_of_kind (kind_at definitions at)) },
}

impl<'a> Drop for TestCase<'a> {
    fn drop(self) {
        let TestCase {
            definitions: _definitions,
            graphs: _graphs,
            names: _names,
            position: _position,
            mtc: _mtc,
            system_type: _system_type,
            script: _script,
            nothing: _nothing,
        } = self;
    }
}

impl<'a> TestCase<'a> {
    /// The module breaks no rule.
    pub fn breaks_no_rule(&self)
        ensures { AreWellTyped self.now.definitions }
    {}
}
