//! The machine that states belong to, where proofs know of it.
ghost use Rattle.ttcnx_runs.specs.Schemes.{no_machine};
ghost use Rattle.ttcn_step.specs.Machines.{Machine};

use std::marker::Brand;

/// A machine, as a type names it. Code doesn't read it.
pub trait Scheme {
    ghost machine: { Machine };
}

impl Scheme for Brand {
    ghost machine = { no_machine };
}
