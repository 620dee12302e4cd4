//! Configurations.
use crate::component::Component;
use crate::connection::Links;
use crate::shared::Shared;
use ttcn_syntax::{Seq, Verdict};

/// A test case that goes on.
#[derive(Drop, PartialEq, Eq)]
pub struct Going {
    /// The components by their paths, ascending.
    pub components: Seq<Component>,
    pub links: Shared<Links>,
    /// The worst verdict of the components of which nothing but their paths is left.
    pub forgotten: Verdict,
}

/// A configuration of a test case.
#[derive(Drop, PartialEq, Eq)]
pub enum Config {
    /// The test case ended with a verdict.
    Ended(Verdict),
    Going(Going),
}
