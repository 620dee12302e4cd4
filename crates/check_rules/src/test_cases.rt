//! The test cases of a module, by their names.
ghost use Rattle.std.specs.Prelude.{◌≡◌, IfOk, OnOk, None};
ghost use Rattle.check_rules.specs.Programs.{test_case_named};
ghost use Rattle.check_rules.specs.internal.TestCases.{placed, with_position};

use std::alloc::{AllocError, Global};
use std::collections::HashMap;
use ttcn_syntax::{Definition, DefinitionKind, Name};

/// The positions of test cases among the definitions, by their names.
#[derive(Drop)]
pub(crate) struct TestCases {
    positions: HashMap<Vec<u8>, usize>,
}

impl TestCases {
    fn new(alloc: Global) -> TestCases
        ensures { placed result ≡ (λ name. None) }
    {
        TestCases {
            positions: HashMap::new(alloc),
        }
    }

    /// The position of the test case of a name.
    pub(crate) fn get(&self, name: &[u8]) -> Option<usize>
        ensures { result ≡ placed self.now name.now }
    {
        self.positions.get(name).copied()
    }

    /// Adds a test case. The first one of a name counts.
    fn add(&mut self, alloc: Global, name: &Name, at: usize) -> Result<(), AllocError>
        ensures { OnOk result (placed self.new ≡ with_position (placed self.old) name.now at) }
    {
        if self.get(name.as_bytes()).is_none() {
            let key = Vec::from_slice(alloc, name.as_bytes())?;
            self.positions.insert(key, at)?;
        }
        Ok(())
    }

    /// The test cases among definitions.
    pub(crate) fn of(alloc: Global, definitions: &[Definition]) -> Result<TestCases, AllocError>
        ensures { IfOk result (λ cases. placed cases ≡ test_case_named definitions.now) }
    {
        let mut cases = TestCases::new(alloc);
        for (at, definition) in definitions.iter().enumerate() {
            if let DefinitionKind::Testcase(testcase) = &definition.kind {
                cases.add(alloc, &testcase.name, at)?;
            }
        }
        Ok(cases)
    }
}
