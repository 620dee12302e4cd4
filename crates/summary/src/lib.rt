//! Systems that move by labelled steps, and summaries of all their runs.
#![tactic(auto)]

mod blocked;
mod both;
mod branches;
mod key;
mod located;
mod ordered_set;
mod small_set;
mod summary;
mod system;
mod verdicts;

pub use blocked::Blocked;
pub use both::Both;
pub use branches::Branches;
pub use key::Key;
pub use located::Located;
pub use ordered_set::OrderedSet;
pub use small_set::SmallSet;
pub use summary::Summary;
pub use system::System;
pub use verdicts::Verdicts;
