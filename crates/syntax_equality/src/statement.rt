//! Statements, branches and what they hold.
use crate::Exact;
use ttcn_syntax::{Action, Alternative, Branch, Conditional, Statement};

impl Exact for Action {
    ghost use Rattle.syntax_equality.specs.Statements.{action_one};

    ghost exact = { action_one };
}

impl Exact for Alternative {
    ghost use Rattle.syntax_equality.specs.Statements.{alternative_one};

    ghost exact = { alternative_one };
}

impl Exact for Branch {
    ghost use Rattle.syntax_equality.specs.Statements.{branch_one};

    ghost exact = { branch_one };
}

impl Exact for Conditional {
    ghost use Rattle.syntax_equality.specs.Statements.{conditional_one};

    ghost exact = { conditional_one };
}

impl Exact for Statement {
    ghost use Rattle.syntax_equality.specs.Statements.{statement_one};

    ghost exact = { statement_one };
}
