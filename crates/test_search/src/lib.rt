//! Tests of the search, its summaries and what its threads share, of what no clause says: that threads overlap, what worked
//! rows give, which calls hash and compare, and that calls succeed.
#![tactic(auto)]

#[cfg(test)]
mod boards;
#[cfg(test)]
mod bounds;
#[cfg(test)]
mod counted;
#[cfg(test)]
mod faults;
#[cfg(test)]
mod fork;
#[cfg(test)]
mod gate;
#[cfg(test)]
mod items;
#[cfg(test)]
mod kept;
#[cfg(test)]
mod memory;
#[cfg(test)]
mod numbers;
#[cfg(test)]
mod ordinals;
#[cfg(test)]
mod places;
#[cfg(test)]
mod plane;
#[cfg(test)]
mod rings;
