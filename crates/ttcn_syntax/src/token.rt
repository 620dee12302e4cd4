//! Tokens: what the text is cut into.
use crate::{Name, Span};

/// The words that the language uses.
#[derive(Clone, Copy, Debug, PartialEq, Eq, PartialOrd, Ord, Hash)]
pub enum Word {
    Activate,
    All,
    Alt,
    Altstep,
    And,
    Any,
    Boolean,
    Complement,
    Component,
    Connect,
    Const,
    Control,
    Create,
    Deactivate,
    Default,
    Do,
    Done,
    Else,
    Enumerated,
    Error,
    Fail,
    False,
    For,
    From,
    Function,
    If,
    Ifpresent,
    In,
    Inconc,
    Infinity,
    Inout,
    Integer,
    Ispresent,
    Language,
    Log,
    Map,
    Message,
    Mod,
    Module,
    Mtc,
    None,
    Not,
    Null,
    Omit,
    On,
    Optional,
    Or,
    Out,
    Pass,
    Port,
    Receive,
    Record,
    Rem,
    Repeat,
    Return,
    Running,
    Runs,
    /// `self`
    SelfWord,
    Send,
    Sender,
    Setverdict,
    Start,
    Stop,
    System,
    Template,
    Testcase,
    Timeout,
    Timer,
    To,
    True,
    Type,
    Unmap,
    Value,
    Var,
    While,
    With,
    Xor,
}

/// Punctuation.
#[derive(Clone, Copy, Debug, PartialEq, Eq, PartialOrd, Ord, Hash)]
pub enum Symbol {
    /// `:=`
    Assign,
    /// `->`
    Arrow,
    /// `..`
    DotDot,
    /// `==`
    Equal,
    /// `!=`
    NotEqual,
    /// `<=`
    LessEqual,
    /// `>=`
    GreaterEqual,
    /// `{`
    LeftBrace,
    /// `}`
    RightBrace,
    /// `(`
    LeftParen,
    /// `)`
    RightParen,
    /// `[`
    LeftBracket,
    /// `]`
    RightBracket,
    /// `,`
    Comma,
    /// `;`
    Semicolon,
    /// `.`
    Dot,
    /// `:`
    Colon,
    /// `+`
    Plus,
    /// `-`
    Minus,
    /// `*`
    Star,
    /// `/`
    Slash,
    /// `<`
    Less,
    /// `>`
    Greater,
    /// `?`
    Question,
}

/// A token, without its place.
#[derive(Debug, Drop, PartialEq, Eq)]
pub enum Token {
    Id(Name),
    Word(Word),
    /// One of the words of the standard that this subset leaves out.
    LeftOut,
    /// A whole number of at most 9223372036854775807.
    Int(u64),
    /// A duration, which has no value here.
    Float,
    /// Free text, whose content has no effect.
    Text,
    Symbol(Symbol),
    /// Any other visible ASCII character.
    Other(u8),
}

/// A token and where it begins.
#[derive(Debug, Drop, PartialEq, Eq)]
pub struct Spanned {
    pub token: Token,
    pub place: Span,
}
