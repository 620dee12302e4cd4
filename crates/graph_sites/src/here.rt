//! What names mean where a statement stands.
ghost use Rattle.std.specs.Prelude.{◌≡◌, is_some, IfOk, OnOk, OnErr};
ghost use Rattle.std.specs.Option.{option_map};
ghost use Rattle.check_rules.specs.Calls.{altstep_meant, template_type};
ghost use Rattle.check_rules.specs.Expressions as expressions;
ghost use Rattle.check_scope.specs.internal.Checking.{view};
ghost use Rattle.check_scope.specs.Names.{constants_type, kind_at, module_names, resolved};
ghost use Rattle.check_scope.specs.PortTypes as ports;
ghost use Rattle.check_scope.specs.internal.Tables.{has};
ghost use Rattle.check_rules.specs.Definitions.{with_parameters};
ghost use Rattle.semantics.specs.Sites as sites;
ghost use Rattle.semantics.specs.Storing.{type_of_name};
ghost use Rattle.graph_items.specs.Standing.{target_of};
ghost use Rattle.graph_sites.specs.Facts.{target_in};
ghost use Rattle.graph_sites.specs.internal.OwnNames.{is_one_of, retracted};

use crate::own::Own;
use check_rules::{component_named, parameters_of, runs_on_of, within};
use check_scope::least::Least;
use check_scope::name_set::NameSet;
use check_scope::names::Meaning;
use check_scope::scope::{Scope, built_in, kind_at, type_meant};
use check_scope::types::{DataType, Typing};
use graph_items::{Referred, Target};
use std::alloc::{AllocError, Global};
use std::marker::Model;
use ttcn_syntax::{Definition, DefinitionKind, Name, Parameter, Reference, TypeName};

/// A site, with what names mean there. A contract sees the definitions of the module, and the site.
pub struct Here<'a> {
    /// At the beginning of the behaviour.
    scope: Scope<'a>,
    parameters: NameSet<'a>,
    behaviour: usize,
    own: Own<'a>,
}

impl<'a> Drop for Here<'a> {
    fn drop(self) {
        let Here {
            scope: _scope,
            parameters: _parameters,
            behaviour: _behaviour,
            own: _own,
        } = self;
    }
}

impl<'a> Model for Here<'a> {
    ghost use Rattle.std.specs.Prelude.{◌≡◌, List};
    ghost use Rattle.std.specs.Coded.{codes};
    ghost use Rattle.ttcn_syntax.specs.contracts.tree.statement.Branch as branch;
    ghost use Rattle.ttcn_syntax.specs.contracts.tree.statement.Statement as statement;
    ghost use Rattle.ttcn_syntax.specs.contracts.tree.template.Template as template;
    ghost use Rattle.ttcn_syntax.specs.contracts.tree.value.Value as value;
    ghost use Rattle.ttcn_syntax.specs.declared.tree.definition.Definition.{Definition};
    ghost use Rattle.check_scope.specs.internal.Checking.{view as scope_view};
    ghost use Rattle.check_scope.specs.internal.Tables.{has};
    ghost use Rattle.semantics.specs.Sites.{Site, behaviour_scope};
    ghost use Rattle.graph_sites.specs.internal.OwnNames.{is_parameter};

    ghost Value = { List Definition × Site };

    ghost coded = { Prim.hlevel (codes, branch.the_row.coded, statement.the_row.coded, template.the_row.coded, value.the_row.coded) };

    ghost view = { λ here. (here.scope.definitions.now, record { behaviour = here.behaviour; declared = here.own }) };

    ghost invariant = { λ here. (scope_view here.scope ≡ behaviour_scope here.scope.definitions.now here.behaviour)
        × (has here.parameters ≡ is_parameter here.scope.definitions.now here.behaviour) };
}

/// The name of the component type that a behaviour runs on, where it says so.
fn component_name<'a>(kind: Option<&'a DefinitionKind>) -> Option<&'a Name>
    ensures { option_map (λ name. name.now) result ≡ sites.component_name (option_map (λ kind. kind.now) kind.entry) }
{
    match kind {
        Some(DefinitionKind::Testcase(testcase)) => Some(&testcase.runs_on),
        _ => runs_on_of(kind),
    }
}

/// Declares the parameters of a behaviour.
fn declare_parameters<'a>(
    scope: &mut Scope<'a>,
    parameters: &'a [Parameter],
) -> Result<(), AllocError>
    ensures { OnOk result (view scope.new ≡ with_parameters (view scope.old) parameters.now) }
{
    for parameter in parameters {
        let of = scope.resolved(&parameter.type_name);
        scope.declare(parameter.name.as_bytes(), Meaning::Variable(of))?;
    }
    Ok(())
}

/// The names of parameters.
fn names_of<'a>(alloc: Global, parameters: &'a [Parameter]) -> Result<NameSet<'a>, AllocError>
    ensures { IfOk result (λ names. has names ≡ is_one_of parameters.now) }
{
    let mut names = NameSet::new(alloc);
    for parameter in parameters {
        let _ = names.insert(parameter.name.as_bytes())?;
    }
    Ok(names)
}

impl<'a> Here<'a> {
    /// The beginning of the behaviour at position 0.
    pub fn new(alloc: Global, definitions: &'a [Definition]) -> Result<Here<'a>, AllocError>
        ensures { IfOk result (λ here. here ≡ (definitions.now, sites.beginning 0)) }
    {
        let scope = Scope::new(alloc, definitions, &mut Least { fault: None })?;
        Here::at(alloc, scope, 0)
    }

    /// The beginning of the behaviour at a position.
    fn at(alloc: Global, mut scope: Scope<'a>, behaviour: usize) -> Result<Here<'a>, AllocError>
        ensures { IfOk result (λ here. here ≡ ((view scope.entry).definitions, sites.beginning behaviour)) }
    {
        let kind = kind_at(scope.definitions, behaviour);
        let runs_on = component_named(&scope, component_name(kind));
        scope.go_to_behaviour(alloc, runs_on);
        declare_parameters(&mut scope, parameters_of(kind))?;
        let parameters = names_of(alloc, parameters_of(kind))?;
        Ok(Here {
            scope,
            parameters,
            behaviour,
            own: Own::new(alloc),
        })
    }

    /// Goes to the beginning of the behaviour at a position.
    pub fn go_to(self, alloc: Global, behaviour: usize) -> Result<Here<'a>, AllocError>
        ensures { IfOk result (λ here. here ≡ (self.entry.0, sites.beginning behaviour)) }
    {
        let Here {
            scope,
            parameters: _parameters,
            behaviour: _behaviour,
            own: _own,
        } = self;
        Here::at(alloc, scope, behaviour)
    }

    /// The position of the behaviour.
    pub fn behaviour(&self) -> usize
        ensures { result ≡ self.now.1.behaviour }
    {
        self.behaviour
    }

    /// What a name stands for.
    pub(crate) fn get(&self, name: &[u8]) -> Option<Meaning>
        ensures { result ≡ (sites.scope_at self.now.0 self.now.1).names name.now }
    {
        match self.own.get(name) {
            Some(meaning) => Some(meaning),
            None => self.scope.get(name),
        }
    }

    /// Whether a name is the behaviour's own.
    pub(crate) fn is_own(&self, name: &[u8]) -> bool
        ensures { result ≡ sites.is_own self.now.0 self.now.1 name.now }
    {
        self.parameters.contains(name) || self.own.get(name).is_some()
    }

    /// The component type that `self` is of.
    pub(crate) fn itself(&self) -> Option<usize>
        ensures { result ≡ (sites.scope_at self.now.0 self.now.1).itself }
    {
        self.scope.itself()
    }

    /// The type of the constants at a position of the module.
    pub(crate) fn type_of_constants(&self, at: usize) -> Option<DataType>
        ensures { result ≡ constants_type (module_names self.now.0) (kind_at self.now.0 at) }
    {
        self.scope.constants_type(at)
    }

    /// The type of the template at a position of the module.
    pub(crate) fn type_of_template(&self, at: usize) -> Option<DataType>
        ensures { result ≡ template_type self.now.0 (kind_at self.now.0 at) }
    {
        match self.scope.kind(at) {
            Some(DefinitionKind::Template(template)) => {
                self.scope.resolved_in_module(&template.type_name)
            }
            _ => None,
        }
    }

    /// What is known of a field of something.
    pub(crate) fn typing_within(&self, typing: Typing, name: &Name) -> Typing
        ensures { result ≡ (expressions.within self.now.0 typing name.now).typing }
    {
        within(&self.scope, typing, name).typing
    }

    /// The only type of messages that pass in a direction at ports of the type at a position.
    pub(crate) fn type_passing(&self, incoming: bool, at: usize) -> Option<DataType>
        ensures { result ≡ ports.only_type (ports.types_of_port (module_names self.now.0) incoming (kind_at self.now.0 at)) }
    {
        match self.scope.traffic(at) {
            Some(traffic) => traffic.towards(incoming).only_type(),
            None => None,
        }
    }

    /// The type that a declaration names.
    pub fn resolved(&self, type_name: &TypeName) -> Option<DataType>
        ensures { result ≡ resolved (sites.scope_at self.now.0 self.now.1).names type_name.now }
    {
        match type_name {
            TypeName::Named(name) => type_meant(self.get(name.as_bytes())),
            _ => built_in(type_name),
        }
    }

    /// The type of what a name stands for.
    fn type_of_name(&self, name: &[u8]) -> Option<DataType>
        ensures { result ≡ type_of_name (sites.scope_at self.now.0 self.now.1) name.now }
    {
        match self.get(name) {
            Some(Meaning::Variable(of) | Meaning::Constant(of)) => of,
            Some(Meaning::ModuleConstant(at, _)) => self.scope.constants_type(at),
            Some(Meaning::Enumerator(at)) => Some(DataType::Enumerated(at)),
            _ => None,
        }
    }

    /// What a reference means as a target.
    pub fn target(&self, reference: &'a Reference) -> Target<'a>
        ensures { target_of result ≡ target_in self.now.0 self.now.1 reference.now }
    {
        let name = reference.name.as_bytes();
        let data_type = if reference.fields.len() == 0 {
            None
        } else {
            self.type_of_name(name)
        };
        Target {
            own: self.is_own(name),
            reference: Referred::to(reference),
            data_type,
        }
    }

    /// What is defined at a position.
    pub(crate) fn kind(&self, at: usize) -> Option<&'a DefinitionKind>
        ensures { option_map (λ kind. kind.now) result ≡ kind_at self.now.0 at }
    {
        self.scope.kind(at)
    }

    /// Whether a name is that of an altstep of the module.
    pub fn is_altstep(&self, name: &Name) -> bool
        ensures { result ≡ is_some (altstep_meant (module_names self.now.0 name.now)) }
    {
        matches!(
            self.scope.in_module(name.as_bytes()),
            Some(Meaning::Altstep(_))
        )
    }

    /// Goes on behind the declaration of one more name.
    pub fn declare(&mut self, name: &'a Name, meaning: Meaning) -> Result<(), AllocError>
        ensures ok { OnOk result (self.new ≡ (self.old.0, sites.site_with self.old.1 (name.now, meaning))) }
        ensures refused { OnErr result (self.new ≡ self.old) }
    {
        self.own.declare(name, meaning)
    }

    /// Goes back before the name that was declared last.
    pub fn retract(&mut self)
        ensures { self.new ≡ (self.old.0, retracted self.old.1) }
    {
        self.own.retract();
    }
}
