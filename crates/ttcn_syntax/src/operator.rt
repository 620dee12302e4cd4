//! Operators, and the levels at which they bind.
ghost use Rattle.std.specs.Prelude.{◌≡◌};
ghost use Rattle.ttcn_syntax.specs.Operators as spec;

use crate::{Symbol, Token, Word};

/// The sign before an operand.
#[derive(Clone, Copy, Debug, PartialEq, Eq)]
pub enum Sign {
    Plus,
    Minus,
}

/// The operators between two operands.
#[derive(Clone, Copy, Debug, PartialEq, Eq)]
pub enum Operator {
    Or,
    Xor,
    And,
    Equal,
    NotEqual,
    Less,
    Greater,
    LessEqual,
    GreaterEqual,
    Add,
    Subtract,
    Multiply,
    Divide,
    Mod,
    Rem,
}

/// The levels at which operators bind, from the loosest on.
#[derive(Clone, Copy, Debug, PartialEq, Eq)]
pub enum Level {
    Or,
    Xor,
    And,
    Not,
    Equality,
    Order,
    Sum,
    Product,
    Sign,
}

impl Operator {
    /// The level at which the operator binds.
    pub fn level(self) -> Level
        ensures { result ≡ spec.level_of self }
    {
        match self {
            Operator::Or => Level::Or,
            Operator::Xor => Level::Xor,
            Operator::And => Level::And,
            Operator::Equal | Operator::NotEqual => Level::Equality,
            Operator::Less | Operator::Greater | Operator::LessEqual | Operator::GreaterEqual => {
                Level::Order
            }
            Operator::Add | Operator::Subtract => Level::Sum,
            Operator::Multiply | Operator::Divide | Operator::Mod | Operator::Rem => Level::Product,
        }
    }
}

impl Token {
    /// The operator between two operands that the token is.
    pub fn operator(&self) -> Option<Operator>
        ensures { result ≡ spec.operator_of self.now }
    {
        match self {
            Token::Word(word) => word_operator(*word),
            Token::Symbol(symbol) => symbol_operator(*symbol),
            _ => None,
        }
    }
}

fn word_operator(word: Word) -> Option<Operator>
    ensures { result ≡ spec.word_operator word }
{
    match word {
        Word::Or => Some(Operator::Or),
        Word::Xor => Some(Operator::Xor),
        Word::And => Some(Operator::And),
        Word::Mod => Some(Operator::Mod),
        Word::Rem => Some(Operator::Rem),
        _ => None,
    }
}

fn symbol_operator(symbol: Symbol) -> Option<Operator>
    ensures { result ≡ spec.symbol_operator symbol }
{
    match symbol {
        Symbol::Equal => Some(Operator::Equal),
        Symbol::NotEqual => Some(Operator::NotEqual),
        Symbol::Less => Some(Operator::Less),
        Symbol::Greater => Some(Operator::Greater),
        Symbol::LessEqual => Some(Operator::LessEqual),
        Symbol::GreaterEqual => Some(Operator::GreaterEqual),
        Symbol::Plus => Some(Operator::Add),
        Symbol::Minus => Some(Operator::Subtract),
        Symbol::Star => Some(Operator::Multiply),
        Symbol::Slash => Some(Operator::Divide),
        _ => None,
    }
}
