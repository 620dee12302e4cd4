//! Scopes outside of blocks.
ghost use Rattle.std.specs.Prelude.{◌≡◌, IfOk, OnOk, Some};
ghost use Rattle.check_scope.specs.internal.Checking.{both, least, least_in, view};
ghost use Rattle.check_scope.specs.Scopes.{check_module_names, component_scope, module_scope, outside, scope_on};

use super::Scope;
use super::define::define_all;
use super::fields::fields_by_name;
use super::members::tables_of;
use super::ports::ports_of;
use crate::least::Least;
use crate::table::Table;
use std::alloc::{AllocError, Global};
use ttcn_syntax::Definition;

impl<'a> Scope<'a> {
    /// The scope of a module. Each of its names is defined once, or a rule is broken.
    pub fn new(
        alloc: Global,
        definitions: &'a [Definition],
        found: &mut Least,
    ) -> Result<Scope<'a>, AllocError>
        ensures view { IfOk result (λ scope. view scope ≡ module_scope definitions.now) }
        ensures rules { OnOk result (least_in found.new ≡ both (least_in found.old) (least (check_module_names definitions.now))) }
    {
        let defined = define_all(alloc, definitions, found)?;
        let members = tables_of(alloc, &defined, definitions)?;
        let fields_by_name = fields_by_name(alloc, definitions)?;
        let ports = ports_of(alloc, &defined, definitions)?;
        Ok(Scope {
            definitions,
            defined,
            members,
            fields_by_name,
            ports,
            runs_on: None,
            blocks: Vec::new(alloc),
            locals: Table::new(alloc),
            itself: None,
        })
    }

    /// Goes to what belongs to no behaviour and no component type.
    pub fn go_to_module(&mut self, alloc: Global)
        ensures { view self.new ≡ module_scope (view self.old).definitions }
    {
        self.begin(alloc, None, None);
    }

    /// Goes to the beginning of the component type at a position.
    pub fn go_to_component(&mut self, alloc: Global, at: usize)
        ensures { view self.new ≡ component_scope (view self.old).definitions at }
    {
        self.begin(alloc, None, Some(at));
    }

    /// Goes to the beginning of a behaviour that runs on the component type at a position, or says nothing of it.
    pub fn go_to_behaviour(&mut self, alloc: Global, runs_on: Option<usize>)
        ensures { view self.new ≡ scope_on (view self.old).definitions runs_on }
    {
        self.begin(alloc, runs_on, runs_on);
    }

    fn begin(&mut self, alloc: Global, runs_on: Option<usize>, itself: Option<usize>)
        ensures { view self.new ≡ outside (view self.old).definitions runs_on itself }
    {
        self.locals = Table::new(alloc);
        self.blocks.clear();
        self.runs_on = runs_on;
        self.itself = itself;
    }
}
