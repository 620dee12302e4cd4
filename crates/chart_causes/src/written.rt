//! Why a value of the text is a dynamic error (ES 201 873-1, 5.4 and 6.2): the first of its expressions that is one.
use crate::sight::Sight;
use std::alloc::{AllocError, Global};
use ttcn_syntax::{FieldValue, Value as Written};

impl<'a> Sight<'a> {
    /// Why a value is a dynamic error.
    #[cycle(written)]
    pub(crate) fn written(
        &self,
        alloc: Global,
        value: &Written,
    ) -> Result<Option<String>, AllocError> {
        match value {
            Written::Expr(expr) => self.expression(alloc, expr),
            Written::Omit => Ok(None),
            Written::Listed(elements) => self.values(alloc, elements.as_slice()),
            Written::Assigned(elements) => self.elements(alloc, elements.as_slice()),
        }
    }

    /// Why the first of values is a dynamic error that is one.
    #[cycle(written)]
    pub(crate) fn values(
        &self,
        alloc: Global,
        values: &[Written],
    ) -> Result<Option<String>, AllocError> {
        for value in values {
            if let Some(cause) = self.written(alloc, value)? {
                return Ok(Some(cause));
            }
        }
        Ok(None)
    }

    /// Why the first of elements is a dynamic error that is one.
    #[cycle(written)]
    fn elements(
        &self,
        alloc: Global,
        elements: &[FieldValue],
    ) -> Result<Option<String>, AllocError> {
        for element in elements {
            if let Some(cause) = self.written(alloc, &element.value)? {
                return Ok(Some(cause));
            }
        }
        Ok(None)
    }
}
