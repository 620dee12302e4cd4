//! Tests of what no row of texts shows: of the language, of the layers below the machine, of files of rows, and of the calls
//! behind the commands; and the public surface.
#![tactic(auto)]

#[cfg(test)]
mod activations;
#[cfg(test)]
mod deep;
#[cfg(test)]
mod definitions;
#[cfg(test)]
mod devices;
#[cfg(test)]
mod equality;
#[cfg(test)]
mod expressions;
#[cfg(test)]
mod faults;
#[cfg(test)]
mod files;
#[cfg(test)]
mod graphs;
#[cfg(test)]
mod letter;
#[cfg(test)]
mod lexer;
#[cfg(test)]
mod lists;
#[cfg(test)]
mod matching;
#[cfg(test)]
mod order;
#[cfg(test)]
mod statuses;
#[cfg(test)]
pub mod surface;
#[cfg(test)]
mod workers;
