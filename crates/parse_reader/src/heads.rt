//! What a statement and a branch are read as, up to their first block.
ghost use Rattle.std.specs.Prelude.{◌≡◌};
ghost use Rattle.ttcn_syntax.specs.declared.tree.statement.Action.TheVariants as action;

use ttcn_syntax::{Action, Assignment, Call, Event, Expr, ForStart, Seq, Statement};

/// A statement, up to its first block.
#[derive(Drop)]
pub enum Head {
    /// One that holds no block.
    Whole(Action),
    Alt,
    If,
    Do,
    While(Expr),
    For(ForHeader),
}

/// What stands between the brackets of a `for`.
#[derive(Drop)]
pub struct ForHeader {
    pub start: ForStart,
    pub condition: Expr,
    pub step: Assignment,
}

/// A branch, up to its block: its guard and what it waits for.
#[derive(Drop)]
pub enum Wait {
    Else,
    Event(Option<Expr>, Event),
    Call(Option<Expr>, Call),
}

impl ForHeader {
    /// The loop with its block.
    pub fn into_action(self, block: Seq<Statement>) -> Action
        ensures { result ≡ action.For self.start self.condition self.step block }
    {
        let ForHeader {
            start,
            condition,
            step,
        } = self;
        Action::For(start, condition, step, block)
    }
}
