//! Types, sizes, and words that can't stand where they do.
use crate::scene::Scene;
use crate::sought::Sought;
use check_scope::rule::Rule;
use lint_names::{Kind, Remark, definition_at, is_word, token_at};
use std::alloc::AllocError;
use ttcn_syntax::{Token, Word};

/// How large what is defined may be.
fn limits(kind: Kind) -> &'static str {
    match kind {
        Kind::Record =>
            "a record has at most 1,000 fields of simple types, and is at most 200 deep",
        Kind::Altstep => {
            "written out an altstep has at most 10,000 branches, and at most 200 in a chain"
        }
        _ => "written out it has at most 10,000 parts, and at most 200 definitions in a chain",
    }
}

impl Scene<'_> {
    /// `C5`: what is too large.
    fn size(&self) -> Result<Remark, AllocError> {
        let help = match definition_at(self.defined, self.part.from) {
            Some(definition) => limits(definition.known.kind),
            None => limits(Kind::Constant),
        };
        self.helped(self.defined_name(), "this is too large", help)
    }

    /// The position of the name of the definition that the part stands in, or the part's beginning.
    fn defined_name(&self) -> usize {
        match definition_at(self.defined, self.part.from) {
            Some(definition) => definition.known.at,
            None => self.part.from,
        }
    }

    /// `C3`: a type that can't stand where it does.
    fn bad_type(&self) -> Result<Remark, AllocError> {
        let at = self.first(Sought::Type);
        let help = if is_word(self.tokens, at, Word::Default) {
            "`default` is the type of variables and parameters alone"
        } else {
            "records and messages hold integers, booleans, enumerations and records, and no record holds itself"
        };
        self.helped(at, "this type can't stand here", help)
    }

    /// Whether a number of the part stands in it before, too.
    fn is_repeated(&self, at: usize) -> bool {
        let Some(Token::Int(number)) = token_at(self.tokens, at) else {
            return false;
        };
        for other in self.part.from..at {
            if let Some(Token::Int(earlier)) = token_at(self.tokens, other) {
                if *earlier == *number {
                    return true;
                }
            }
        }
        false
    }

    /// The first number of the part that stands in it before, too, or the first one.
    fn repeated_number(&self) -> usize {
        for at in self.part.from..self.part.to {
            if self.is_repeated(at) {
                return at;
            }
        }
        self.first(Sought::Number)
    }

    /// The target of a redirect, or the beginning of the part.
    fn target(&self) -> usize {
        match self.find(Sought::Words(&[Word::Value, Word::Sender])) {
            Some(at) => at.saturating_add(1),
            None => self.part.from,
        }
    }

    /// What is said of a rule that is broken by other words than names, calls and values.
    pub(crate) fn statement(&self, rule: Rule) -> Result<Remark, AllocError> {
        let start = self.part.from;
        match rule {
            Rule::BadType => self.bad_type(),
            Rule::Cycle => self.named(self.defined_name(), "", " refers to itself in a circle"),
            Rule::Size => self.size(),
            Rule::EnumNumbers => {
                self.fixed(self.repeated_number(), "this number is given twice")
            }
            Rule::NotAssignable => {
                let help = "a constant keeps its value; declare it by `var`";
                self.helped(self.target(), "a constant can't be assigned to", help)
            }
            Rule::Condition => self.fixed(start, "this condition isn't boolean"),
            Rule::Redirect => {
                let help =
                    "`value` wants a template, and a target of the message's type; `sender` one of a component type";
                let message = "what is received doesn't go into this target";
                self.helped(self.target(), message, help)
            }
            _ => self.misplaced_word(rule),
        }
    }

    /// What is said of a word of the language that can't stand where it does.
    fn misplaced_word(&self, rule: Rule) -> Result<Remark, AllocError> {
        match rule {
            Rule::ReturnPlace => {
                let help = "a function returns a value exactly where its head has `return`";
                let at = self.first_word(&[Word::Return]);
                self.helped(at, "this `return` can't stand here", help)
            }
            Rule::RepeatPlace => {
                let at = self.first_word(&[Word::Repeat]);
                let help = "it stands in the block of a branch";
                self.helped(at, "`repeat` can't stand here", help)
            }
            Rule::VerdictError => {
                let at = self.first_word(&[Word::Error]);
                let help = "dynamic errors give it";
                self.helped(at, "the verdict `error` can't be set", help)
            }
            _ => {
                let at = self.first_word(&[Word::Mtc, Word::SelfWord]);
                let help = "nothing says here of which component type it is";
                self.helped(at, "this reference can't stand here", help)
            }
        }
    }
}
