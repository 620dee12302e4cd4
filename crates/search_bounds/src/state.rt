/// A state of a system, and how many timers may still expire on the way, where that is bounded.
#[derive(Debug, Drop, PartialEq, Eq, Hash)]
pub struct Bounded<S> {
    pub state: S,
    pub left: Option<u32>,
}
