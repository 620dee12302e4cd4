//! What the constants of the module give (ES 201 873-1, section 10).
ghost use Rattle.std.specs.Prelude.{IfOk, IfSome};
ghost use Rattle.ttcn_values.specs.internal.Readers.{AreResults, KnowsConstants, read_by};
ghost use Rattle.value_types.specs.Outcomes.{Gives};

use super::named_constants::constants_in;
use super::{ConstantResult, Reader, Visible};
use crate::{Fault, Value};
use std::alloc::{AllocError, Global};
use ttcn_syntax::Value as Written;

impl<'a> Reader<'a> {
    /// What a constant gives, if it was evaluated before.
    pub(super) fn result_of(&self, at: usize, item: usize) -> Option<&'a Result<Value, Fault>>
        requires { KnowsConstants self.now }
        ensures { IfSome result (λ known. Gives ((read_by self.now).constants at item) known.now) }
    {
        for constant in self.constants {
            if constant.at == at && constant.item == item {
                return Some(&constant.result);
            }
        }
        None
    }
}

impl Reader<'_> {
    /// What a constant of the module gives. It is evaluated anew each time that a frame names it. The constants that its
    /// value names come first: so evaluation goes down one tree at a time, however long chains of constants are.
    #[cycle(reader)]
    pub(super) fn constant(&self, alloc: Global, at: usize, item: usize) -> Result<Value, Fault>
        ensures { Gives ((read_by self.now).constants at item) result }
    {
        let definitions = self.frame.definitions;
        let Some(depth) = self.depth.checked_sub(1) else {
            return Err(Fault::Dynamic);
        };
        let Some(constant) = definitions.constant(at, item) else {
            return Err(Fault::Dynamic);
        };
        let reader = Reader {
            frame: self.frame,
            visible: Visible::Nothing,
            depth,
            constants: &[],
        };
        let constants = reader.results(alloc, &constant.value)?;
        let reader = Reader {
            frame: self.frame,
            visible: Visible::Nothing,
            depth,
            constants: constants.as_slice(),
        };
        reader.value(alloc, &constant.value, definitions.constants_type(at))
    }

    /// What the constants give that a value names. A fault is kept, since the value may not ask for the constant.
    #[cycle(reader)]
    fn results(&self, alloc: Global, value: &Written) -> Result<Vec<ConstantResult>, AllocError>
        ensures { IfOk result (λ constants. AreResults (read_by self.now) constants.items) }
    {
        let places = constants_in(alloc, self.frame.definitions, value)?;
        let mut constants = Vec::with_capacity(alloc, places.len())?;
        for (at, item) in places {
            let result = match self.constant(alloc, at, item) {
                Err(Fault::Memory) => return Err(AllocError),
                result => result,
            };
            constants.push(ConstantResult { at, item, result })?;
        }
        Ok(constants)
    }
}
