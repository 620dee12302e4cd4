//! Constants and templates stand for what is written of them, however deep they refer to each other: the checker lets them
//! refer to each other in chains of at most 200, so as many links are enough.
ghost use Rattle.std.specs.Prelude.{◌≡◌, ◌≤◌, ℕ};
ghost use Rattle.laws_evaluation.specs.Standing.{ConstantsStandForTheirValues, GiveTheSame, TemplatesStandForTheirBodies};
ghost use Rattle.value_types.specs.Chains.{Outcomes, with_outcomes, within_chains};
ghost use Rattle.value_types.specs.Frames.{longest_chain, reading};
ghost use Rattle.value_types.specs.Readings.{Reading};
ghost use Rattle.value_types.specs.declared.frame.Frame.{Frame};

use check_rules::Program;

/// A constant gives what its written value gives, wherever it is named.
#[tactic(auto, using(crate::proofs::Steps::constants_stand))]
pub fn constants_stand_for_their_values(program: &Program)
    ensures in_frames { (frame : Frame) → frame.definitions.now ≡ program.now.definitions → ConstantsStandForTheirValues (reading frame) }
    ensures in_readings { (links : ℕ) → longest_chain ≤ links → (facts : Reading) → facts.definitions ≡ program.now.definitions → ConstantsStandForTheirValues (within_chains links facts) }
{
    let _ = program.module();
}

/// A template gives what its body gives with its arguments, wherever it is named.
#[tactic(auto, using(crate::proofs::Steps::templates_stand))]
pub fn templates_stand_for_their_bodies(program: &Program)
    ensures in_frames { (frame : Frame) → frame.definitions.now ≡ program.now.definitions → TemplatesStandForTheirBodies (reading frame) }
    ensures in_readings { (links : ℕ) → longest_chain ≤ links → (facts : Reading) → facts.definitions ≡ program.now.definitions → TemplatesStandForTheirBodies (within_chains links facts) }
{
    let _ = program.module();
}

/// What constants and templates give is the only thing that they can give where each stands for what is written of it.
#[tactic(auto, using(crate::proofs::Steps::nothing_else))]
pub fn nothing_else_stands_so(program: &Program)
    ensures { (links : ℕ) → longest_chain ≤ links → (facts : Reading) → facts.definitions ≡ program.now.definitions → (outcomes : Outcomes) → ConstantsStandForTheirValues (with_outcomes outcomes facts) → TemplatesStandForTheirBodies (with_outcomes outcomes facts) → GiveTheSame (with_outcomes outcomes facts) (within_chains links facts) }
{
    let _ = program.module();
}

/// Constants and templates give the same with more links.
#[tactic(auto, using(crate::proofs::Steps::more_links))]
pub fn more_links_change_nothing(program: &Program)
    ensures { (links more : ℕ) → longest_chain ≤ links → longest_chain ≤ more → (facts : Reading) → facts.definitions ≡ program.now.definitions → GiveTheSame (within_chains more facts) (within_chains links facts) }
{
    let _ = program.module();
}
