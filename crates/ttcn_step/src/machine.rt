//! Machines, which run test cases (ES 201 873-4).
ghost use Rattle.std.specs.Prelude.{◌≡◌, ◌↔◌, [], false, IfOk, IsTrue, map};
ghost use Rattle.std.specs.List.{All};
ghost use Rattle.graph_numbers.specs.Lists.{AreDifferent};
ghost use Rattle.semantics.specs.Labels as rules;
ghost use Rattle.semantics.specs.Places.{blocked, branch_of};
ghost use Rattle.semantics.specs.Runs as runs;
ghost use Rattle.semantics.specs.Steps as steps;
ghost use Rattle.semantics.specs.Telling.{place_of_step, request_of, sent_of};
ghost use Rattle.std.specs.Option.{option_map};
ghost use Rattle.config_parts.specs.Acts.{request_by};
ghost use Rattle.config_parts.specs.Names.{AreInOrder};
ghost use Rattle.ttcn_step.specs.Answers.{Ends, IsSuccessor, Leads};
ghost use Rattle.ttcn_step.specs.FineAnswers.{Coarsens, Doubles, IsDoubling, StandsFor};
ghost use Rattle.ttcn_step.specs.Machines.{Fits, legend, said};
ghost use Rattle.ttcn_step.specs.Standing.{standing_of};
ghost use Rattle.ttcn_step.specs.Telling.{sent_by};
ghost use Rattle.ttcn_step.specs.Parts.{part_of_step};
ghost use Rattle.graph_items.specs.Standing.{part_of};
ghost use Rattle.check_rules.specs.Rules.{AreWellTyped};

use crate::error::{CoarsenError, ReplayError, StepError};
use crate::successor::Successor;
use crate::telling::Sent;
use crate::{
    branches, coarsen, double, labels, places, replay, start, step, successors, telling, testcases,
};
use check_rules::{Program, TestId};
use config_parts::{Config, Request};
use std::alloc::{AllocError, Global};
use std::marker::Model;
use step_labels::{FineLabel, Label, Standing};
use step_script::Script;
use step_snapshot::TestCase;
use ttcn_graph::Part;
use ttcn_syntax::{Name, Span};

/// What runs a test case of a module that breaks no rule. A contract sees the test case, the lists that positions stand for,
/// and the names that have slots.
pub struct Machine<'a> {
    test: TestCase<'a>,
}

impl<'a> Drop for Machine<'a> {
    fn drop(self) {
        let Machine { test: _test } = self;
    }
}

impl<'a> Model for Machine<'a> {
    ghost use Rattle.std.specs.Coded.{codes};
    ghost use Rattle.ttcn_syntax.specs.contracts.tree.statement.Action as action;
    ghost use Rattle.ttcn_syntax.specs.contracts.tree.statement.Branch as branch;
    ghost use Rattle.ttcn_syntax.specs.contracts.tree.statement.Statement as statement;
    ghost use Rattle.ttcn_syntax.specs.contracts.tree.template.Template as template;
    ghost use Rattle.ttcn_syntax.specs.contracts.tree.value.Value as tree_value;
    ghost use Rattle.value_types.specs.contracts.value.Value as value;
    ghost use Rattle.ttcn_step.specs.Machines as definition;

    ghost Value = { definition.Machine };

    ghost coded = { Prim.hlevel (codes, action.the_row.coded, branch.the_row.coded, statement.the_row.coded, template.the_row.coded, tree_value.the_row.coded, value.the_row.coded) };

    ghost view = { λ machine. definition.machine_of machine.test };
}

impl<'a> Machine<'a> {
    /// What runs a test case of a program, at whose system ports nothing comes in. A program with more names than 32 bits
    /// can count is refused as if an allocation failed.
    pub fn new(
        alloc: Global,
        program: &'a Program,
        testcase: TestId,
    ) -> Result<Machine<'a>, AllocError>
        ensures { IfOk result (λ machine. machine.test ≡ record { definitions = program.now.definitions; testcase = testcase; script = [] }) }
    {
        let test = testcases::testcase_at(alloc, program, testcase.position(), &[])?;
        Ok(Machine { test })
    }

    /// What runs a test case of a program, at whose system ports the messages of a script come in. A program with more names
    /// than 32 bits can count is refused as if an allocation failed.
    pub fn with_script(
        alloc: Global,
        program: &'a Program,
        testcase: TestId,
        script: &'a Script,
    ) -> Result<Machine<'a>, AllocError>
        ensures { IfOk result (λ machine. machine.test ≡ record { definitions = program.now.definitions; testcase = testcase; script = script.now.ports }) }
    {
        let ports = script.ports.as_slice();
        let test = testcases::testcase_at(alloc, program, testcase.position(), ports)?;
        Ok(Machine { test })
    }

    /// The module of the test case breaks no rule.
    pub fn breaks_no_rule(&self)
        ensures { AreWellTyped self.now.test.definitions }
    {
        self.test.breaks_no_rule();
    }

    /// No list has two positions, and slots are in the order of their names.
    pub fn lists_and_names_differ(&self)
        ensures lists { AreDifferent self.now.lists }
        ensures names { AreInOrder self.now.names }
    {
        self.test.graphs.lists_differ();
        self.test.names.are_in_order();
    }

    /// The configuration in which runs start.
    pub fn start(&self, alloc: Global) -> Result<Config, AllocError>
        ensures start { IfOk result (λ config. said self.now config ≡ runs.start self.now.test) }
        ensures fits { IfOk result (Fits self.now) }
    {
        start::start(alloc, &self.test)
    }

    /// The enabled labels of a configuration, ascending.
    pub fn labels(&self, alloc: Global, config: &Config) -> Result<Vec<Label>, AllocError>
        requires { Fits self.now config.now }
        ensures { IfOk result (λ found. found.items ≡ rules.labels self.now.test (said self.now config.now)) }
    {
        labels::labels(alloc, &self.test, config)
    }

    /// The configuration to which a label leads.
    pub fn next(&self, alloc: Global, config: &Config, label: &Label) -> Result<Config, StepError>
        requires { Fits self.now config.now }
        ensures leads { Leads self.now (steps.next self.now.test (said self.now config.now) label.now) result }
        ensures fits { IfOk result (Fits self.now) }
    {
        step::next(alloc, &self.test, config, label)
    }

    /// The enabled labels of a configuration, ascending, each with the configuration to which it leads. No `alt` is
    /// evaluated twice.
    pub fn successors(&self, alloc: Global, config: &Config) -> Result<Vec<Successor>, AllocError>
        requires { Fits self.now config.now }
        ensures labels { IfOk result (λ found. map (λ s. s.label) found.items ≡ rules.labels self.now.test (said self.now config.now)) }
        ensures leads { IfOk result (λ found. All (IsSuccessor self.now config.now) found.items) }
        ensures fits { IfOk result (λ found. All (λ s. Fits self.now s.config) found.items) }
    {
        successors::successors(alloc, &self.test, config)
    }

    /// The configuration in which a run ends, or the number of its first label that is not enabled where it stands.
    pub fn replay(&self, alloc: Global, run: &[Label]) -> Result<Config, ReplayError>
        ensures ends { Ends self.now (runs.replay self.now.test run.now) result }
        ensures fits { IfOk result (Fits self.now) }
    {
        replay::replay(alloc, &self.test, run)
    }

    /// The run that a fine run stands for: each choice that takes a branch or meets a fault moves to the place of its
    /// snapshot, other snapshots and choices go, and so does all behind a fault. Refused is the number of the first label that
    /// can't follow, and a fine run that does not end the test case.
    pub fn coarsen(&self, alloc: Global, labels: &[FineLabel]) -> Result<Vec<Label>, CoarsenError>
        ensures coarsens { Coarsens self.now labels.now result }
        ensures runs { IfOk result (λ run. StandsFor self.now.test labels.now run.items) }
    {
        self.test.breaks_no_rule();
        coarsen::coarsen(alloc, &self.test, labels)
    }

    /// The doubling of a run: each step at an `alt` becomes a snapshot and the choice by it. Refused is the number of the first
    /// label that is not enabled where it stands.
    pub fn double(&self, alloc: Global, run: &[Label]) -> Result<Vec<FineLabel>, ReplayError>
        ensures doubles { Doubles self.now run.now result }
        ensures fine { IfOk result (λ labels. IsDoubling self.now.test run.now labels.items) }
    {
        double::double(alloc, &self.test, run)
    }

    /// The place of the branch that the step of a label takes, if it takes one.
    pub fn branch(
        &self,
        alloc: Global,
        config: &Config,
        label: &Label,
    ) -> Result<Option<Span>, AllocError>
        requires { Fits self.now config.now }
        ensures { IfOk result (λ place. place ≡ branch_of self.now.test (said self.now config.now) label.now) }
    {
        branches::branch(alloc, &self.test, config, label)
    }

    /// The place of the statement that the step of a label begins with, where it is that of a statement.
    pub fn place(&self, config: &Config, label: &Label) -> Option<Span>
        ensures { result ≡ place_of_step (said self.now config.now) label.now }
    {
        telling::place(&self.test, config, label)
    }

    /// What of this statement the step begins with.
    pub fn part(&self, config: &Config, label: &Label) -> Option<Part>
        ensures { option_map part_of result ≡ part_of_step (said self.now config.now) label.now }
    {
        telling::part(&self.test, config, label)
    }

    /// What the step of a label asks for, where it is that of a statement and nothing fails before it asks.
    pub fn request(
        &self,
        alloc: Global,
        config: &Config,
        label: &Label,
    ) -> Result<Option<Request>, AllocError>
        requires { Fits self.now config.now }
        ensures { IfOk result (λ request. option_map (request_by (legend self.now)) request ≡ request_of self.now.test (said self.now config.now) label.now) }
    {
        telling::request(alloc, &self.test, config, label)
    }

    /// The message that the step of a label sends, or that comes in with it.
    pub fn sent(
        &self,
        alloc: Global,
        config: &Config,
        label: &Label,
    ) -> Result<Option<Sent>, AllocError>
        requires { Fits self.now config.now }
        ensures { IfOk result (λ sent. option_map (sent_by (legend self.now)) sent ≡ sent_of self.now.test (said self.now config.now) label.now) }
    {
        telling::message(alloc, &self.test, config, label)
    }

    /// The names of slots.
    pub fn names(&self) -> &[Name]
        ensures { result.now ≡ self.now.names }
    {
        self.test.names.as_slice()
    }

    /// Whether no label of a configuration is enabled.
    pub fn is_stuck(&self, alloc: Global, config: &Config) -> Result<bool, AllocError>
        requires { Fits self.now config.now }
        ensures { IfOk result (λ stuck. IsTrue stuck ↔ rules.labels self.now.test (said self.now config.now) ≡ []) }
    {
        labels::is_stuck(alloc, &self.test, config)
    }

    /// The components that run, each with the place of its first remaining statement.
    pub fn standings(&self, alloc: Global, config: &Config) -> Result<Vec<Standing>, AllocError>
        ensures { IfOk result (λ found. found.items ≡ standing_of (said self.now config.now)) }
    {
        places::standings(alloc, &self.test, config)
    }

    /// The components that are blocked: where no label is enabled, all that run, each with the place of its first remaining
    /// statement.
    pub fn blocked(&self, alloc: Global, config: &Config) -> Result<Vec<Standing>, AllocError>
        requires { Fits self.now config.now }
        ensures { IfOk result (λ found. found.items ≡ blocked self.now.test (said self.now config.now)) }
    {
        places::blocked(alloc, &self.test, config)
    }
}
