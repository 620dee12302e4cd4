//! A depth-first search of things.
ghost use Rattle.std.specs.Prelude.{◌≡◌, ◌≢◌, ◌++◌, ◌∷◌, ◌<◌, ℕ, [], length, slice_set, IfNone, IfOk, IfSome, OnOk};
ghost use Rattle.check_survey.specs.Graphs.{AreComplete, IsOnCircle};
ghost use Rattle.check_survey.specs.internal.Search.{IsSearched, StayBegun, at_first, left, size_of, state_of};

use crate::size::Size;
use crate::thing::Thing;
use std::alloc::{AllocError, Global};

/// How far a thing is searched.
#[derive(Clone, Copy)]
pub(crate) enum State {
    /// Nothing led to the thing so far.
    New,
    /// The thing is on the path.
    Open,
    /// All that the thing leads to is searched.
    Done(Size),
}

/// A thing on the path, how many of its references are passed, and the size of these.
#[derive(Clone, Copy)]
pub(crate) struct Step {
    thing: usize,
    passed: usize,
    size: Size,
}

/// A depth-first search, whose path is a list, since it may be as long as there are things.
#[derive(Drop)]
pub(crate) struct Search {
    /// How far each thing is searched.
    pub(crate) states: Vec<State>,
    /// The things that are begun and not done, each referred to by the one before it.
    path: Vec<Step>,
}

impl Search {
    pub(crate) fn new(alloc: Global, count: usize) -> Result<Self, AllocError>
        ensures count { IfOk result (λ search. length search.states.items ≡ count) }
        ensures states { IfOk result (λ search. (i : ℕ) → state_of search.states.items i ≡ State.New) }
        ensures path { IfOk result (λ search. search.path.items ≡ []) }
    {
        Ok(Search {
            states: vec![in alloc; State::New; count]?,
            path: Vec::new(alloc),
        })
    }

    /// Goes through all that a thing leads to. The answer is a thing on a circle.
    pub(crate) fn visit(
        &mut self,
        things: &[Thing],
        start: usize,
    ) -> Result<Option<usize>, AllocError>
        requires complete { AreComplete things.now }
        requires within { start < length things.now }
        requires searched { IsSearched things.now self.old.states.items [] }
        requires path { self.old.path.items ≡ [] }
        ensures circle { IfOk result (λ found. IfSome found (IsOnCircle things.now)) }
        ensures searched { IfOk result (λ found. IfNone found (IsSearched things.now self.new.states.items [])) }
        ensures path { IfOk result (λ found. IfNone found (self.new.path.items ≡ [])) }
        ensures start { IfOk result (λ found. IfNone found (state_of self.new.states.items start ≢ State.New)) }
        ensures begun { IfOk result (λ found. IfNone found (StayBegun self.old.states.items self.new.states.items)) }
    {
        if let State::New = self.states[start] {
            self.begin(start)?;
        }
        while let Some(step) = self.path.pop() {
            if let Some(thing) = self.advance(things, step)? {
                return Ok(Some(thing));
            }
        }
        Ok(None)
    }

    /// Puts a new thing on the path.
    fn begin(&mut self, thing: usize) -> Result<(), AllocError>
        requires { thing < length self.old.states.items }
        ensures states { OnOk result (self.new.states.items ≡ slice_set self.old.states.items thing State.Open) }
        ensures path { OnOk result (self.new.path.items ≡ self.old.path.items ++ at_first thing ∷ []) }
    {
        self.path.push(Step {
            thing,
            passed: 0,
            size: Size::NONE,
        })?;
        self.states[thing] = State::Open;
        Ok(())
    }

    /// Goes on from the last thing of the path, which is taken from it. The answer is a thing on a circle.
    fn advance(&mut self, things: &[Thing], step: Step) -> Result<Option<usize>, AllocError>
        requires complete { AreComplete things.now }
        requires searched { IsSearched things.now self.old.states.items (self.old.path.items ++ step ∷ []) }
        ensures circle { IfOk result (λ found. IfSome found (IsOnCircle things.now)) }
        ensures searched { IfOk result (λ found. IfNone found (IsSearched things.now self.new.states.items self.new.path.items)) }
        ensures begun { IfOk result (λ found. IfNone found (StayBegun self.old.states.items self.new.states.items)) }
        ensures less { IfOk result (λ found. IfNone found (left things.now self.new.states.items self.new.path.items
            < left things.now self.old.states.items (self.old.path.items ++ step ∷ []))) }
    {
        let thing = &things[step.thing];
        if step.passed == thing.references.len() {
            self.states[step.thing] = State::Done(step.size.around(thing.own));
            return Ok(None);
        }
        let next = thing.reference(step.passed);
        match self.states[next] {
            State::Open => return Ok(Some(next)),
            State::New => {
                self.path.push(step)?;
                self.begin(next)?;
            }
            State::Done(size) => self.path.push(Step {
                thing: step.thing,
                passed: step.passed + 1,
                size: step.size.beside(size),
            })?,
        }
        Ok(None)
    }
}

impl State {
    /// The size of a thing that is done.
    pub(crate) fn size(&self) -> Size
        ensures { result ≡ size_of self.now }
    {
        match self {
            State::New | State::Open => Size::NONE,
            State::Done(size) => *size,
        }
    }
}
