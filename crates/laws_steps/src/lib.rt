//! What laws of steps are made of: one walk over what statements ask for, one over what is done among components, and one over runs.
#![tactic(auto)]
