//! Programs: modules that are well typed.
ghost use Rattle.std.specs.Prelude.{◌≡◌, IfOk, IfSome};
ghost use Rattle.check_rules.specs.Programs.{IsTestCaseAt, test_case_named};
ghost use Rattle.check_rules.specs.Rules.{AreWellTyped};

use crate::definition_table::Definitions;
use crate::test_cases::TestCases;
use std::alloc::{AllocError, Global};
use std::marker::Model;
use ttcn_syntax::Module;

/// A test case of a program, by its position among the definitions.
#[derive(Clone, Copy, Debug, PartialEq, Eq)]
pub struct TestId {
    position: usize,
}

impl Model for TestId {
    ghost use Rattle.std.specs.Prelude.{ℕ};

    ghost Value = { ℕ };

    ghost view = { λ id. id.position };

    ghost inverse = { λ position. record { position = position } };
}

impl TestId {
    /// The position of the test case among the definitions.
    pub fn position(self) -> usize
        ensures { result ≡ self }
    {
        self.position
    }
}

/// A module that is well typed, and its test cases by their names. A contract sees the module.
#[derive(Drop)]
pub struct Program {
    module: Module,
    test_cases: TestCases,
}

impl Model for Program {
    ghost use Rattle.ttcn_syntax.specs.declared.tree.definition.Module.{Module};
    ghost use Rattle.std.specs.Coded.{codes};
    ghost use Rattle.ttcn_syntax.specs.contracts.tree.statement.Branch as branch;
    ghost use Rattle.ttcn_syntax.specs.contracts.tree.statement.Statement as statement;
    ghost use Rattle.ttcn_syntax.specs.contracts.tree.template.Template as template;
    ghost use Rattle.ttcn_syntax.specs.contracts.tree.value.Value as value;

    ghost Value = { Module };

    ghost coded = { Prim.hlevel (codes, branch.the_row.coded, statement.the_row.coded, template.the_row.coded, value.the_row.coded) };

    ghost view = { λ program. program.module };

    ghost use Rattle.check_rules.specs.internal.ProgramFields.{IsProgram};

    ghost invariant = { IsProgram };
}

impl Program {
    /// A module that is well typed.
    pub fn new(alloc: Global, tree: Module) -> Result<Program, AllocError>
        requires { AreWellTyped tree.definitions }
        ensures { IfOk result (λ program. program ≡ tree) }
    {
        let test_cases = TestCases::of(alloc, tree.definitions.as_slice())?;
        Ok(Program {
            module: tree,
            test_cases,
        })
    }

    /// The module. It breaks no rule.
    pub fn module(&self) -> &Module
        ensures same { result.now ≡ self.now }
        ensures well_typed { AreWellTyped self.now.definitions }
    {
        &self.module
    }

    /// The definitions of the module, by their names.
    pub fn definitions(&self, alloc: Global) -> Result<Definitions<'_>, AllocError>
        ensures { IfOk result (λ definitions. definitions ≡ self.now.definitions) }
    {
        Definitions::of(alloc, self.module.definitions.as_slice())
    }

    /// The test case of a name, if there is one.
    pub fn testcase(&self, name: &str) -> Option<TestId>
        ensures named { result ≡ test_case_named self.now.definitions name.now }
        ensures at { IfSome result (IsTestCaseAt self.now.definitions name.now) }
    {
        let position = self.test_cases.get(name.as_bytes())?;
        Some(TestId { position })
    }
}
