//! The names of components (ES 201 873-4).
ghost use Rattle.std.specs.Prelude.{◌≡◌, IfOk};

use std::alloc::{AllocError, Global};
use ttcn_syntax::Seq;

/// A component's name: that of the MTC has no numbers, and that of the k-th component that another creates has the other's
/// numbers and then k.
#[derive(Debug, PartialEq, Eq)]
pub struct Path {
    pub numbers: Seq<u32>,
}

impl Drop for Path {
    fn drop(self) {
        let Path { numbers: _numbers } = self;
    }
}

impl Path {
    /// A copy in memory of its own.
    pub fn try_clone(&self, alloc: Global) -> Result<Path, AllocError>
        ensures { IfOk result (λ copy. copy ≡ self.now) }
    {
        let numbers = Vec::from_slice(alloc, self.numbers.as_slice())?;
        Ok(Path {
            numbers: Seq::from_vec(numbers),
        })
    }
}
