//! The names that steps change or declare, and those of ports that they name.
ghost use Rattle.std.specs.Prelude.{◌≡◌, [], map, slice_get, OnOk, Some};
ghost use Rattle.std.specs.List.{flat_map};
ghost use Rattle.std.specs.Option.{option_map};
ghost use Rattle.semantics.specs.Items.{action_of};
ghost use Rattle.graph_items.specs.Standing.{part_of};
ghost use Rattle.graph_names.specs.Known as named;
ghost use Rattle.graph_names.specs.Known.{names_if_any, names_of_assignment, names_of_branch, names_of_component, names_of_event, names_of_kind, names_of_member, names_of_part, names_of_reference, names_of_whole};
ghost use Rattle.graph_names.specs.internal.Learning.{names_of_definition, names_of_first, with_name, with_names};

use graph_items::{First, Part};
use std::alloc::{AllocError, Global};
use std::collections::HashSet;
use std::marker::Model;
use ttcn_syntax::{
    Action, Alternative, Assignment, Branch, ComponentRef, Constant, Definition, DefinitionKind,
    Event, ForStart, Member, MemberVariable, Name, Parameter, Reference, Statement, Timer,
    Variable,
};

// ---- what parts of statements name

fn variable_name(variables: &[Variable], place: usize) -> Option<&Name>
    ensures { option_map (λ name. name.now) result ≡ option_map (λ v. v.name) (slice_get variables.now place) }
{
    Some(&variables.get(place)?.name)
}

fn constant_name(constants: &[Constant], place: usize) -> Option<&Name>
    ensures { option_map (λ name. name.now) result ≡ option_map (λ c. c.name) (slice_get constants.now place) }
{
    Some(&constants.get(place)?.name)
}

fn timer_name(timers: &[Timer], place: usize) -> Option<&Name>
    ensures { option_map (λ name. name.now) result ≡ option_map (λ t. t.name) (slice_get timers.now place) }
{
    Some(&timers.get(place)?.name)
}

/// The name that a `for` declares at a place, where it begins with variables.
fn name_at_start(start: &ForStart, place: usize) -> Option<&Name>
    ensures { option_map (λ name. name.now) result ≡ named.name_at_start start.now place }
{
    match start {
        ForStart::Variables(declared) => variable_name(declared.variables.as_slice(), place),
        ForStart::Assign(_assignment) => None,
    }
}

/// The name that a statement declares at a place.
fn name_declared(statement: &Statement, place: usize) -> Option<&Name>
    ensures { option_map (λ name. name.now) result ≡ named.name_declared (action_of statement.now) place }
{
    match statement.action.get() {
        Action::Variables(declared) => variable_name(declared.variables.as_slice(), place),
        Action::Constants(declared) => constant_name(declared.constants.as_slice(), place),
        Action::Timers(timers) => timer_name(timers.as_slice(), place),
        Action::For(start, _condition, _step, _body) => name_at_start(start, place),
        _ => None,
    }
}

/// The assignment that a `for` begins with, if it begins with one.
fn assignment_at_start(start: &ForStart) -> Option<&Assignment>
    ensures { option_map (λ a. a.now) result ≡ named.assignment_at_start start.now }
{
    match start {
        ForStart::Variables(_declared) => None,
        ForStart::Assign(assignment) => Some(assignment),
    }
}

fn first_assignment(statement: &Statement) -> Option<&Assignment>
    ensures { option_map (λ a. a.now) result ≡ named.first_assignment (action_of statement.now) }
{
    match statement.action.get() {
        Action::For(start, _condition, _step, _body) => assignment_at_start(start),
        _ => None,
    }
}

/// The assignment behind the block of a `for`.
fn last_assignment(statement: &Statement) -> Option<&Assignment>
    ensures { option_map (λ a. a.now) result ≡ named.last_assignment (action_of statement.now) }
{
    match statement.action.get() {
        Action::For(_start, _condition, step, _body) => Some(step),
        _ => None,
    }
}

// ---- the names

/// Names, no two of them alike. A contract sees their bytes.
pub struct Names<'a> {
    all: Vec<&'a Name>,
    met: HashSet<&'a [u8]>,
}

impl<'a> Drop for Names<'a> {
    fn drop(self) {
        let Names {
            all: _all,
            met: _met,
        } = self;
    }
}

impl<'a> Model for Names<'a> {
    ghost use Rattle.std.specs.Prelude.{◌≡◌, ℕ, List, map, bytes_eq};
    ghost use Rattle.std.specs.HashSet.{contains_by};
    ghost use Rattle.std.specs.List.{list_any};

    ghost Value = { List (List ℕ) };

    ghost view = { λ names. map (λ name. name.now) names.all.items };

    ghost invariant = { λ names. (name : List ℕ) → contains_by (λ key. bytes_eq name key.now) names.met ≡ list_any (bytes_eq name) (map (λ n. n.now) names.all.items) };
}

impl<'a> Names<'a> {
    /// No names.
    pub fn new(alloc: Global) -> Names<'a>
        ensures { result ≡ [] }
    {
        Names {
            all: Vec::new(alloc),
            met: HashSet::new(alloc),
        }
    }

    /// The names, in the order in which they were added.
    pub fn as_slice(&self) -> &[&'a Name]
        ensures { map (λ name. name.now) result.now ≡ self.now }
    {
        self.all.as_slice()
    }

    /// Adds a name, unless it is among them.
    fn add(&mut self, name: &'a Name) -> Result<(), AllocError>
        ensures { OnOk result (self.new ≡ with_name self.old name.now) }
    {
        if self.met.contains(name.as_bytes()) {
            return Ok(());
        }
        self.all.push(name)?;
        match self.met.insert(name.as_bytes()) {
            Ok(_) => Ok(()),
            Err(_) => {
                let _ = self.all.pop();
                Err(AllocError)
            }
        }
    }

    // ---- statements

    fn add_reference(&mut self, reference: &'a Option<Reference>) -> Result<(), AllocError>
        ensures { OnOk result (self.new ≡ with_names self.old (names_of_reference reference.now)) }
    {
        match reference {
            Some(reference) => self.add(&reference.name),
            None => Ok(()),
        }
    }

    fn add_event(&mut self, event: &'a Event) -> Result<(), AllocError>
        ensures { OnOk result (self.new ≡ with_names self.old (names_of_event event.now)) }
    {
        match event {
            Event::Receive(receive) => {
                self.add_reference(&receive.value)?;
                self.add_reference(&receive.sender)
            }
            Event::Timeout(name) => self.add(name),
            Event::Done(_component) => Ok(()),
            Event::AllDone => Ok(()),
        }
    }

    fn add_branch(&mut self, branch: &'a Branch) -> Result<(), AllocError>
        ensures { OnOk result (self.new ≡ with_names self.old (names_of_branch branch.now)) }
    {
        match branch.alternative.get() {
            Alternative::Event(_guard, event, _block) => self.add_event(event),
            Alternative::Call(_guard, _call, _block) => Ok(()),
            Alternative::Else(_block) => Ok(()),
        }
    }

    fn add_branches(&mut self, branches: &'a [Branch]) -> Result<(), AllocError>
        ensures { OnOk result (self.new ≡ with_names self.old (flat_map names_of_branch branches.now)) }
    {
        for branch in branches {
            self.add_branch(branch)?;
        }
        Ok(())
    }

    fn add_constants(&mut self, constants: &'a [Constant]) -> Result<(), AllocError>
        ensures { OnOk result (self.new ≡ with_names self.old (map (λ c. c.name) constants.now)) }
    {
        for constant in constants {
            self.add(&constant.name)?;
        }
        Ok(())
    }

    fn add_timers(&mut self, timers: &'a [Timer]) -> Result<(), AllocError>
        ensures { OnOk result (self.new ≡ with_names self.old (map (λ t. t.name) timers.now)) }
    {
        for timer in timers {
            self.add(&timer.name)?;
        }
        Ok(())
    }

    fn add_component(&mut self, component: &'a ComponentRef) -> Result<(), AllocError>
        ensures { OnOk result (self.new ≡ with_names self.old (names_of_component component.now)) }
    {
        match component {
            ComponentRef::Named(reference) => self.add(&reference.name),
            _ => Ok(()),
        }
    }

    /// Adds the names that a whole statement stores to, sets as a timer or names as a port.
    fn add_whole(&mut self, statement: &'a Statement) -> Result<(), AllocError>
        ensures { OnOk result (self.new ≡ with_names self.old (names_of_whole (action_of statement.now))) }
    {
        match statement.action.get() {
            Action::Assign(assignment) => self.add(&assignment.target.name),
            Action::Event(event) => self.add_event(event),
            Action::Alt(branches) => self.add_branches(branches.as_slice()),
            Action::Connect(one, other) => {
                self.add(&one.port)?;
                self.add(&other.port)
            }
            Action::Map(mapping) => {
                self.add(&mapping.port.port)?;
                self.add(&mapping.system_port)
            }
            Action::Send(send) => self.add(&send.port),
            Action::StartTimer(name) => self.add(name),
            Action::StopOf(component) => self.add_component(component),
            _ => Ok(()),
        }
    }

    fn add_if_any(&mut self, name: Option<&'a Name>) -> Result<(), AllocError>
        ensures { OnOk result (self.new ≡ with_names self.old (names_if_any (option_map (λ name. name.now) name.entry))) }
    {
        match name {
            Some(name) => self.add(name),
            None => Ok(()),
        }
    }

    fn add_assignment(&mut self, assignment: Option<&'a Assignment>) -> Result<(), AllocError>
        ensures { OnOk result (self.new ≡ with_names self.old (names_of_assignment (option_map (λ a. a.now) assignment.entry))) }
    {
        match assignment {
            Some(assignment) => self.add(&assignment.target.name),
            None => Ok(()),
        }
    }

    /// Adds the names in a part of a statement.
    fn add_part(&mut self, statement: &'a Statement, part: Part) -> Result<(), AllocError>
        ensures { OnOk result (self.new ≡ with_names self.old (names_of_part (action_of statement.now) (part_of part))) }
    {
        match part {
            Part::Whole => self.add_whole(statement),
            Part::Name(place) => self.add_if_any(name_declared(statement, place)),
            Part::From(_place) => Ok(()),
            Part::Start => self.add_assignment(first_assignment(statement)),
            Part::Loop => Ok(()),
            Part::Last => self.add_assignment(last_assignment(statement)),
        }
    }

    /// Adds the names in what stands first.
    pub fn add_first(&mut self, first: First<'_, 'a>) -> Result<(), AllocError>
        ensures { OnOk result (self.new ≡ with_names self.old (names_of_first first.entry)) }
    {
        match first {
            First::Doing {
                behaviour: _behaviour,
                statement,
                part,
            } => self.add_part(statement, part),
            First::Mark(_statement) => Ok(()),
            First::Waiting(target) => self.add(target.reference.name()),
        }
    }

    // ---- definitions

    fn add_parameters(&mut self, parameters: &'a [Parameter]) -> Result<(), AllocError>
        ensures { OnOk result (self.new ≡ with_names self.old (map (λ p. p.name) parameters.now)) }
    {
        for parameter in parameters {
            self.add(&parameter.name)?;
        }
        Ok(())
    }

    fn add_ports(&mut self, ports: &'a [Name]) -> Result<(), AllocError>
        ensures { OnOk result (self.new ≡ with_names self.old ports.now) }
    {
        for port in ports {
            self.add(port)?;
        }
        Ok(())
    }

    fn add_member_variables(&mut self, variables: &'a [MemberVariable]) -> Result<(), AllocError>
        ensures { OnOk result (self.new ≡ with_names self.old (map (λ v. v.name) variables.now)) }
    {
        for variable in variables {
            self.add(&variable.name)?;
        }
        Ok(())
    }

    fn add_member(&mut self, member: &'a Member) -> Result<(), AllocError>
        ensures { OnOk result (self.new ≡ with_names self.old (names_of_member member.now)) }
    {
        match member {
            Member::Ports(_port_type, ports) => self.add_ports(ports.as_slice()),
            Member::Constants(declared) => self.add_constants(declared.constants.as_slice()),
            Member::Variables(_type_name, variables) => {
                self.add_member_variables(variables.as_slice())
            }
            Member::Timers(timers) => self.add_timers(timers.as_slice()),
        }
    }

    fn add_members(&mut self, members: &'a [Member]) -> Result<(), AllocError>
        ensures { OnOk result (self.new ≡ with_names self.old (flat_map names_of_member members.now)) }
    {
        for member in members {
            self.add_member(member)?;
        }
        Ok(())
    }

    fn add_kind(&mut self, kind: &'a DefinitionKind) -> Result<(), AllocError>
        ensures { OnOk result (self.new ≡ with_names self.old (names_of_kind (Some kind.now))) }
    {
        match kind {
            DefinitionKind::Function(function) => {
                self.add_parameters(function.parameters.as_slice())
            }
            DefinitionKind::Altstep(altstep) => {
                self.add_parameters(altstep.parameters.as_slice())?;
                self.add_branches(altstep.branches.as_slice())
            }
            DefinitionKind::Component(component) => {
                self.add_members(component.members.as_slice())
            }
            _ => Ok(()),
        }
    }

    /// Adds the names in definitions.
    pub fn add_definitions(&mut self, definitions: &'a [Definition]) -> Result<(), AllocError>
        ensures { OnOk result (self.new ≡ with_names self.old (flat_map names_of_definition definitions.now)) }
    {
        for definition in definitions {
            self.add_kind(&definition.kind)?;
        }
        Ok(())
    }
}
