//! The constants of the module that values name.
use check_rules::{Definitions, Meaning};
use std::alloc::{AllocError, Global};
use ttcn_syntax::{ComponentRef, Expr, Name, Value as Written};

/// The constants that a value names, each once, by the positions of their declarations and their own in those.
pub(super) fn constants_in(
    alloc: Global,
    definitions: &Definitions<'_>,
    value: &Written,
) -> Result<Vec<(usize, usize)>, AllocError> {
    let mut names = ConstantNames {
        definitions,
        places: Vec::new(alloc),
    };
    names.value(value)?;
    Ok(names.places)
}

/// The constants among the names that were met.
#[derive(Drop)]
struct ConstantNames<'a> {
    definitions: &'a Definitions<'a>,
    places: Vec<(usize, usize)>,
}

impl ConstantNames<'_> {
    fn value(&mut self, value: &Written) -> Result<(), AllocError> {
        match value {
            Written::Expr(expr) => self.expression(expr)?,
            Written::Omit => {}
            Written::Listed(elements) => {
                for element in elements.as_slice() {
                    self.value(element)?;
                }
            }
            Written::Assigned(elements) => {
                for element in elements.as_slice() {
                    self.value(&element.value)?;
                }
            }
        }
        Ok(())
    }

    fn expression(&mut self, expr: &Expr) -> Result<(), AllocError> {
        match expr {
            Expr::Int(_) | Expr::Bool(_) | Expr::Null => Ok(()),
            Expr::Reference(component) | Expr::Running(component) => self.component(component),
            Expr::Ispresent(reference) => self.name(&reference.name),
            Expr::Not(operand) | Expr::Signed(_, operand) => self.expression(operand.get()),
            Expr::Chain(first, links) => {
                self.expression(first.get())?;
                for link in links.as_slice() {
                    self.expression(&link.operand)?;
                }
                Ok(())
            }
        }
    }

    fn component(&mut self, component: &ComponentRef) -> Result<(), AllocError> {
        match component {
            ComponentRef::Itself | ComponentRef::Mtc => Ok(()),
            ComponentRef::Named(reference) => self.name(&reference.name),
        }
    }

    fn name(&mut self, name: &Name) -> Result<(), AllocError> {
        if let Some(Meaning::ModuleConstant(at, item)) = self.definitions.meaning(name.as_bytes()) {
            if !self.places.contains(&(at, item)) {
                self.places.push((at, item))?;
            }
        }
        Ok(())
    }
}
