//! What refuses requests for memory. It is asked by names of files, which no file system has.
use std::alloc::{AllocError, Global};
use std::fs;
use std::rt::Files;

/// Which request for memory is refused.
#[derive(Clone, Copy)]
pub enum Refused {
    None,
    /// The one of this number, counted from 1.
    One(u64),
    All,
}

/// How a call ended, and whether one of its requests for memory was refused.
#[derive(Clone, Copy)]
pub struct Ending {
    pub was_refused: bool,
    pub answer: Answer,
}

/// What a call answered: as it does with ample memory, that it got no memory, or something else.
#[derive(Clone, Copy)]
pub enum Answer {
    Right,
    NoMemory,
    Other,
}

impl Ending {
    /// Whether the call may end so.
    pub fn is_allowed(self) -> bool {
        match self.answer {
            Answer::Right => true,
            Answer::NoMemory => self.was_refused,
            Answer::Other => false,
        }
    }
}

/// How the refusal of requests is asked for.
#[derive(Drop)]
pub struct Order(Option<String>);

impl Order {
    pub fn new(alloc: Global, refused: Refused) -> Result<Order, AllocError> {
        Ok(Order(match refused {
            Refused::None => None,
            Refused::One(number) => Some(format!(in alloc; "/refused memory/{number}")?),
            Refused::All => Some(String::from_str(alloc, "/refused memory/all")?),
        }))
    }

    /// From here on requests are refused. This takes no memory.
    pub fn begin<R: Files>(&self, rt: &R) {
        if let Some(name) = &self.0 {
            let _ = fs::open(rt, name.as_str());
        }
    }
}

/// From here on no request is refused: whether one was. This takes no memory.
pub fn end<R: Files>(rt: &R) -> bool {
    fs::open(rt, "/refused memory/any").is_ok()
}

/// Whether requests can be refused.
pub fn can_refuse<R: Files>(rt: &R) -> bool {
    fs::open(rt, "/refused memory/").is_ok()
}
