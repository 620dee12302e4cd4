//! What is evaluated where a component stands (ES 201 873-1, 5.4, 7, 15 and 22.2).
ghost use Rattle.std.specs.Prelude.{◌≡◌};
ghost use Rattle.check_rules.specs.Calls.{parameters_of};
ghost use Rattle.check_scope.specs.Names.{kind_at};
ghost use Rattle.step_forms.specs.internal.Stands.{site_of, stand_by};
ghost use Rattle.semantics.specs.Statements as said;
ghost use Rattle.value_types.specs.Evaluation.{condition_of};
ghost use Rattle.value_types.specs.Frames.{reading};
ghost use Rattle.value_types.specs.Literals.{value_wanted};
ghost use Rattle.value_types.specs.Outcomes.{Gives};
ghost use Rattle.value_types.specs.Readings.{referred, timer_at};
ghost use Rattle.value_types.specs.Templates.{arguments, template_wanted};

use crate::stand::Stand;
use check_rules::{DataType, parameters_of};
use std::alloc::Global;
use ttcn_syntax::{
    Call, ComponentRef, Expr, Reference, Seq, Template as WrittenTemplate, Value as WrittenValue,
};
use ttcn_values::{
    eval_arguments, eval_component, eval_condition, eval_reference, eval_template, eval_value,
    timer_runs,
};
use value_types::{ComponentId, Fault, Frame, Template, Value};

impl<'t, 'a> Stand<'t, 'a> {
    /// What expressions read here.
    fn reads(&self) -> Frame<'a>
        ensures { reading result ≡ said.reads (stand_by self.now) (site_of self.now) }
    {
        self.snapshot.frame(self.behaviour, self.frame.cells.get())
    }

    /// A value, where one of a type is wanted.
    pub fn value(
        &self,
        alloc: Global,
        value: &WrittenValue,
        wanted: Option<DataType>,
    ) -> Result<Value, Fault>
        ensures { Gives (value_wanted value.now (said.reads (stand_by self.now) (site_of self.now)) wanted) result }
    {
        eval_value(alloc, value, wanted, &self.reads())
    }

    /// A condition.
    pub fn condition(&self, alloc: Global, condition: &Expr) -> Result<bool, Fault>
        ensures { Gives (condition_of condition.now (said.reads (stand_by self.now) (site_of self.now))) result }
    {
        eval_condition(alloc, condition, &self.reads())
    }

    /// A template, where one of a type is wanted.
    pub fn template(
        &self,
        alloc: Global,
        template: &WrittenTemplate,
        wanted: Option<DataType>,
    ) -> Result<Template, Fault>
        ensures { Gives (template_wanted template.now (said.reads (stand_by self.now) (site_of self.now)) wanted) result }
    {
        eval_template(alloc, template, wanted, &self.reads())
    }

    /// The component that a reference means: `null` is a dynamic error.
    pub fn component(&self, alloc: Global, reference: &ComponentRef) -> Result<ComponentId, Fault>
        ensures { Gives (said.component_meant_at (stand_by self.now) (site_of self.now) reference.now) result }
    {
        eval_component(alloc, reference, &self.reads())
    }

    /// The value of a name, or of fields behind it.
    pub fn reference(&self, alloc: Global, reference: &Reference) -> Result<Value, Fault>
        ensures { Gives (referred (said.reads (stand_by self.now) (site_of self.now)) reference.now) result }
    {
        eval_reference(alloc, reference, &self.reads())
    }

    /// What a call gives the parameters of the behaviour at a position.
    pub fn arguments(
        &self,
        alloc: Global,
        behaviour: usize,
        call: &Call,
    ) -> Result<Seq<Value>, Fault>
        ensures { Gives (arguments (said.reads (stand_by self.now) (site_of self.now)) (parameters_of (kind_at self.now.snapshot.now.test.now.definitions behaviour)) call.now.arguments) result }
    {
        let parameters = parameters_of(self.snapshot.test.definitions.kind(behaviour));
        eval_arguments(alloc, parameters, call.arguments.as_slice(), &self.reads())
    }

    /// Whether the timer runs that a reference means, if it means one.
    pub fn timer_runs(&self, reference: &ComponentRef) -> Option<bool>
        ensures { result ≡ timer_at (said.reads (stand_by self.now) (site_of self.now)) reference.now }
    {
        timer_runs(reference, &self.reads())
    }
}
