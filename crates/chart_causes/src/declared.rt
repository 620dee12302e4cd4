//! The types of variables and parameters, by their declarations (ES 201 873-1, 5.3, 6.2.10 and 11).
use crate::scene::Scene;
use check_rules::{DataType, Definitions};
use std::alloc::{AllocError, Global};
use ttcn_syntax::{
    Action, Alternative, Branch, Conditional, DefinitionKind, ForStart, Member, Name, Parameter,
    Reference, Statement, TypeName, Variables,
};

/// The types with which a name is declared, as far as they were found.
#[derive(Drop)]
struct Declared<'a> {
    defined: &'a Definitions<'a>,
    name: &'a Name,
    types: Vec<DataType>,
}

impl<'a> Declared<'a> {
    fn push(&mut self, type_name: &TypeName) -> Result<(), AllocError> {
        if let Some(data_type) = self.defined.resolved(type_name) {
            self.types.push(data_type)?;
        }
        Ok(())
    }

    fn parameters(&mut self, parameters: &[Parameter]) -> Result<(), AllocError> {
        for parameter in parameters {
            if parameter.name == *self.name {
                self.push(&parameter.type_name)?;
            }
        }
        Ok(())
    }

    fn members(&mut self, members: &[Member]) -> Result<(), AllocError> {
        for member in members {
            if let Member::Variables(type_name, variables) = member {
                let name = self.name;
                if variables.as_slice().iter().any(|one| one.name == *name) {
                    self.push(type_name)?;
                }
            }
        }
        Ok(())
    }

    fn variables(&mut self, declared: &Variables) -> Result<(), AllocError> {
        let (variables, name) = (declared.variables.as_slice(), self.name);
        if variables.iter().any(|one| one.name == *name) {
            self.push(&declared.type_name)?;
        }
        Ok(())
    }

    #[cycle(declared)]
    fn block(&mut self, block: &[Statement]) -> Result<(), AllocError> {
        for statement in block {
            self.action(statement.action.get())?;
        }
        Ok(())
    }

    #[cycle(declared)]
    fn action(&mut self, action: &Action) -> Result<(), AllocError> {
        match action {
            Action::Variables(declared) => self.variables(declared),
            Action::Alt(branches) => self.branches(branches.as_slice()),
            Action::If(conditionals, last) => {
                self.conditionals(conditionals.as_slice())?;
                match last {
                    Some(block) => self.block(block.as_slice()),
                    None => Ok(()),
                }
            }
            Action::While(_, block) | Action::DoWhile(block, _) => self.block(block.as_slice()),
            Action::For(start, _, _, block) => {
                if let ForStart::Variables(declared) = start {
                    self.variables(declared)?;
                }
                self.block(block.as_slice())
            }
            _ => Ok(()),
        }
    }

    #[cycle(declared)]
    fn conditionals(&mut self, conditionals: &[Conditional]) -> Result<(), AllocError> {
        for conditional in conditionals {
            self.block(conditional.block.as_slice())?;
        }
        Ok(())
    }

    #[cycle(declared)]
    fn branches(&mut self, branches: &[Branch]) -> Result<(), AllocError> {
        for branch in branches {
            match branch.alternative.get() {
                Alternative::Event(_, _, Some(block)) | Alternative::Call(_, _, Some(block)) => {
                    self.block(block.as_slice())?
                }
                Alternative::Else(block) => self.block(block.as_slice())?,
                Alternative::Event(_, _, None) | Alternative::Call(_, _, None) => {}
            }
        }
        Ok(())
    }

    /// The type, where all declarations have one.
    fn only(&self) -> Option<DataType> {
        let first = self.types.first()?;
        if self.types.iter().all(|other| *other == *first) {
            Some(*first)
        } else {
            None
        }
    }
}

impl<'a> Scene<'a> {
    /// The type of a variable or a parameter of the behaviour at a position, or else of a variable of the component.
    fn variable_type(
        &self,
        alloc: Global,
        behaviour: usize,
        name: &Name,
    ) -> Result<Option<DataType>, AllocError> {
        let mut declared = Declared {
            defined: self.defined,
            name,
            types: Vec::new(alloc),
        };
        match self.defined.kind(behaviour) {
            Some(DefinitionKind::Function(function)) => {
                declared.parameters(function.parameters.as_slice())?;
                declared.block(function.body.as_slice())?;
            }
            Some(DefinitionKind::Altstep(altstep)) => {
                declared.parameters(altstep.parameters.as_slice())?;
                declared.branches(altstep.branches.as_slice())?;
            }
            Some(DefinitionKind::Testcase(testcase)) => declared.block(testcase.body.as_slice())?,
            _ => {}
        }
        if declared.types.is_empty() {
            let own = self.component.itself.component_type;
            if let Some(DefinitionKind::Component(component)) = self.defined.kind(own) {
                declared.members(component.members.as_slice())?;
            }
        }
        Ok(declared.only())
    }

    /// The type of a field of the record at a position.
    fn field_type(&self, at: usize, name: &Name) -> Option<DataType> {
        let field = self
            .names
            .fields(at)
            .iter()
            .find(|field| field.name == *name)?;
        self.defined.resolved(&field.type_name)
    }

    /// The type of what a reference in the behaviour at a position means, where that is known.
    pub(crate) fn type_of_reference(
        &self,
        alloc: Global,
        behaviour: usize,
        reference: &Reference,
    ) -> Result<Option<DataType>, AllocError> {
        let mut found = self.variable_type(alloc, behaviour, &reference.name)?;
        for name in reference.fields.as_slice() {
            found = match found {
                Some(DataType::Record(at)) => self.field_type(at, name),
                _ => None,
            };
        }
        Ok(found)
    }
}
