//! Frame 0 of a new component.
ghost use Rattle.std.specs.Prelude.{◌≡◌, IfOk, map};
ghost use Rattle.std.specs.List.{flat_map};
ghost use Rattle.check_scope.specs.Names.{module_names, resolved};
ghost use Rattle.step_create.specs.Makers.{Makes, RunIn, frame_for, size_of};
ghost use Rattle.semantics.specs.Creating as rules;
ghost use Rattle.semantics.specs.Snapshots.{Snapshot};
ghost use Rattle.semantics.specs.Storing as storing;
ghost use Rattle.step_snapshot.specs.Slots.{IsKnown, NoneIsMissing};
ghost use Rattle.step_snapshot.specs.Tests.{test_by};
ghost use Rattle.config_parts.specs.Views.{HasSlotsWithin};
ghost use Rattle.graph_names.specs.Known.{names_of_member};
ghost use Rattle.value_types.specs.Frames.{reading};
ghost use Rattle.value_types.specs.Outcomes.{Yields};

use crate::types::declarations_of;
use check_rules::DataType;
use config_parts::{Cells, frame_of};
use std::alloc::{AllocError, Global};
use step_snapshot::TestCase;
use ttcn_syntax::{Constant, Member, MemberVariable, Name, Timer, TypeName, Value as WrittenValue};
use ttcn_values::eval_value;
use value_types::{ComponentId, Fault, Frame, Path, Slot};

/// What makes a new component: the test case, the component's path and type, and the components that run.
#[derive(Drop)]
pub struct Maker<'t, 'a> {
    pub test: &'a TestCase<'t>,
    pub itself: &'a ComponentId,
    pub running: &'a [&'a Path],
}

impl<'t, 'a> Maker<'t, 'a> {
    /// What is read in the values of members: those before.
    fn reads<'b>(&'b self, cells: &'b Cells) -> Frame<'b>
        requires { HasSlotsWithin (size_of self.now) cells.now }
        ensures { (snapshot : Snapshot) → RunIn self.now.running.now snapshot
            → reading result ≡ rules.reading_of_members (test_by self.now.test.now) self.now.itself.now snapshot (frame_for self.now cells.now) }
    {
        let test = self.test;
        frame_of(
            &test.definitions,
            test.names.as_slice(),
            cells,
            &test.nothing,
            self.running,
            self.itself,
            &test.mtc,
        )
    }

    /// A name is declared with its value of a type.
    fn declare(
        &self,
        alloc: Global,
        of: Option<DataType>,
        cells: Cells,
        name: &Name,
        value: &WrittenValue,
    ) -> Result<Cells, Fault>
        requires known { IsKnown self.now.test.now.names name.now }
        requires within { HasSlotsWithin (size_of self.now) cells }
        ensures declared { Makes self.now (λ test itself snapshot. rules.declared_with test itself snapshot of (frame_for self.now cells) name.now value.now) result }
        ensures within { IfOk result (HasSlotsWithin (size_of self.now)) }
    {
        let found = eval_value(alloc, value, of, &self.reads(&cells))?;
        let slot = self.test.slot_of(name);
        self.test.names.are_in_order();
        Ok(cells.declare(slot, found)?)
    }

    /// A name is declared with a value of a type, or without value where none is given.
    fn declare_variable(
        &self,
        alloc: Global,
        of: Option<DataType>,
        cells: Cells,
        name: &Name,
        value: &Option<WrittenValue>,
    ) -> Result<Cells, Fault>
        requires known { IsKnown self.now.test.now.names name.now }
        requires within { HasSlotsWithin (size_of self.now) cells }
        ensures declared { Makes self.now (λ test itself snapshot. rules.declared_variable test itself snapshot of (frame_for self.now cells) name.now value.now) result }
        ensures within { IfOk result (HasSlotsWithin (size_of self.now)) }
    {
        match value {
            Some(value) => self.declare(alloc, of, cells, name, value),
            None => {
                let slot = self.test.slot_of(name);
                self.test.names.are_in_order();
                Ok(cells.forget(slot))
            }
        }
    }

    /// A timer is declared.
    fn declare_timer(&self, cells: Cells, name: &Name) -> Result<Cells, AllocError>
        requires known { IsKnown self.now.test.now.names name.now }
        requires within { HasSlotsWithin (size_of self.now) cells }
        ensures declared { IfOk result (λ new. storing.declare_timer name.now (frame_for self.now cells) ≡ frame_for self.now new) }
        ensures within { IfOk result (HasSlotsWithin (size_of self.now)) }
    {
        let slot = self.test.slot_of(name);
        self.test.names.are_in_order();
        cells.declare_timer(slot)
    }

    /// Constants, one behind the other.
    fn declare_constants(
        &self,
        alloc: Global,
        cells: Cells,
        type_name: &TypeName,
        constants: &[Constant],
    ) -> Result<Cells, Fault>
        requires known { NoneIsMissing self.now.test.now.names (map (λ c. c.name) constants.now) }
        requires within { HasSlotsWithin (size_of self.now) cells }
        ensures declared { Makes self.now (λ test itself snapshot. rules.declared_in_turn (λ f c. rules.declared_with test itself snapshot (resolved (module_names test.definitions) type_name.now) f c.name c.value) constants.now (frame_for self.now cells)) result }
        ensures within { IfOk result (HasSlotsWithin (size_of self.now)) }
    {
        let of = self.test.definitions.resolved(type_name);
        let mut cells = cells;
        for constant in constants {
            cells = self.declare(alloc, of, cells, &constant.name, &constant.value)?;
        }
        Ok(cells)
    }

    /// Variables, one behind the other.
    fn declare_variables(
        &self,
        alloc: Global,
        cells: Cells,
        type_name: &TypeName,
        variables: &[MemberVariable],
    ) -> Result<Cells, Fault>
        requires known { NoneIsMissing self.now.test.now.names (map (λ v. v.name) variables.now) }
        requires within { HasSlotsWithin (size_of self.now) cells }
        ensures declared { Makes self.now (λ test itself snapshot. rules.declared_in_turn (λ f v. rules.declared_variable test itself snapshot (resolved (module_names test.definitions) type_name.now) f v.name v.value) variables.now (frame_for self.now cells)) result }
        ensures within { IfOk result (HasSlotsWithin (size_of self.now)) }
    {
        let of = self.test.definitions.resolved(type_name);
        let mut cells = cells;
        for variable in variables {
            cells = self.declare_variable(alloc, of, cells, &variable.name, &variable.value)?;
        }
        Ok(cells)
    }

    /// Timers, one behind the other.
    fn declare_timers(&self, cells: Cells, timers: &[Timer]) -> Result<Cells, AllocError>
        requires known { NoneIsMissing self.now.test.now.names (map (λ t. t.name) timers.now) }
        requires within { HasSlotsWithin (size_of self.now) cells }
        ensures declared { IfOk result (λ new. rules.declared_in_turn (λ f t. Yields (storing.declare_timer t.name f)) timers.now (frame_for self.now cells) ≡ Yields (frame_for self.now new)) }
        ensures within { IfOk result (HasSlotsWithin (size_of self.now)) }
    {
        let mut cells = cells;
        for timer in timers {
            cells = self.declare_timer(cells, &timer.name)?;
        }
        Ok(cells)
    }

    /// What one declaration of the component type declares.
    fn declare_member(&self, alloc: Global, cells: Cells, member: &Member) -> Result<Cells, Fault>
        requires known { NoneIsMissing self.now.test.now.names (names_of_member member.now) }
        requires within { HasSlotsWithin (size_of self.now) cells }
        ensures declared { Makes self.now (λ test itself snapshot. rules.declared_member test itself snapshot (frame_for self.now cells) member.now) result }
        ensures within { IfOk result (HasSlotsWithin (size_of self.now)) }
    {
        match member {
            Member::Ports(_, _) => Ok(cells),
            Member::Constants(declared) => {
                let constants = declared.constants.as_slice();
                self.declare_constants(alloc, cells, &declared.type_name, constants)
            }
            Member::Variables(type_name, declared) => {
                self.declare_variables(alloc, cells, type_name, declared.as_slice())
            }
            Member::Timers(declared) => Ok(self.declare_timers(cells, declared.as_slice())?),
        }
    }

    /// Declarations of a component type, one behind the other.
    fn declare_members(&self, alloc: Global, members: &[Member]) -> Result<Cells, Fault>
        requires { NoneIsMissing self.now.test.now.names (flat_map names_of_member members.now) }
        ensures declared { Makes self.now (λ test itself snapshot. rules.declared_in_turn (rules.declared_member test itself snapshot) members.now rules.empty_frame) result }
        ensures within { IfOk result (HasSlotsWithin (size_of self.now)) }
    {
        let mut cells = Cells::new(alloc);
        for member in members {
            cells = self.declare_member(alloc, cells, member)?;
        }
        Ok(cells)
    }

    /// The names of frame 0: the variables, constants and timers of the component's type.
    pub fn members(&self, alloc: Global) -> Result<Cells, Fault>
        ensures made { Makes self.now rules.new_members result }
        ensures within { IfOk result (HasSlotsWithin (size_of self.now)) }
    {
        self.declare_members(
            alloc,
            declarations_of(self.test, self.itself.component_type),
        )
    }
}
