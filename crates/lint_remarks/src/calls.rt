//! Calls with wrong arguments, on other component types, or of the wrong kind.
use crate::scene::{Scene, quoted};
use crate::sought::Sought;
use lint_names::{
    Defined, Kind, Remark, closing, definition_at, definition_of, is_symbol, meaning, name_at,
    outside, symbol_before,
};
use std::alloc::AllocError;
use ttcn_syntax::{Symbol, Word};

/// A call: the position of its name, and what is defined by that name.
type Called<'a> = (usize, Defined<'a>);

impl<'a> Scene<'a> {
    /// The calls of the part: names of definitions before a bracket.
    fn calls(&self) -> Result<Vec<Called<'a>>, AllocError> {
        let mut calls = Vec::new(self.alloc);
        for at in self.part.from..self.part.to {
            let is_call = is_symbol(self.tokens, at.saturating_add(1), Symbol::LeftParen);
            if let (true, Some(name)) = (is_call, name_at(self.tokens, at)) {
                if let Some(definition) = definition_of(self.defined, name) {
                    if definition.known.at != at {
                        calls.push((at, definition))?;
                    }
                }
            }
        }
        Ok(calls)
    }

    /// How many parts a bracket has that commas part.
    fn count(&self, open: usize) -> usize {
        let close = closing(self.tokens, open);
        let mut from = open.saturating_add(1);
        if from >= close {
            return 0;
        }
        let mut count: usize = 1;
        for _turn in open..close {
            let Some(comma) = outside(self.tokens, from, close, Symbol::Comma) else {
                return count;
            };
            count = count.saturating_add(1);
            from = comma.saturating_add(1);
        }
        count
    }

    /// `C10`: a call with another number of arguments than parameters.
    pub(crate) fn arguments(&self) -> Result<Remark, AllocError> {
        for (at, definition) in self.calls()? {
            let given = self.count(at.saturating_add(1));
            let wanted = match definition.parameters(self.tokens) {
                Some(open) => self.count(open),
                None => 0,
            };
            if given != wanted {
                let ending = if given == 1 { "" } else { "s" };
                let behind = format!(in self.alloc; " is given {given} argument{ending}")?;
                let help = format!(in self.alloc; "it takes {wanted}")?;
                return Ok(self.named(at, "", behind.as_str())?.with_help(help));
            }
        }
        let message = "there are more or fewer arguments here than parameters";
        self.fixed(self.part.from, message)
    }

    /// The name of the component type on which a call of the part would run: that of the component that is started, or
    /// of the caller.
    fn component(&self) -> Result<Option<&'a [u8]>, AllocError> {
        match self.find(Sought::Words(&[Word::Start])) {
            Some(start) => self.started(start),
            None => Ok(match definition_at(self.defined, self.whole.from) {
                Some(caller) => caller.runs_on(self.tokens),
                None => None,
            }),
        }
    }

    /// The name of the type of the component before `.start`.
    fn started(&self, start: usize) -> Result<Option<&'a [u8]>, AllocError> {
        let Some(name) = name_at(self.tokens, start.saturating_sub(2)) else {
            return Ok(None);
        };
        let known = self.visible()?;
        let Some(item) = meaning(known.as_slice(), name) else {
            return Ok(None);
        };
        Ok(match item.typed {
            Some(at) => name_at(self.tokens, at),
            None => None,
        })
    }

    /// What is wrong with the component type of a call.
    fn wrong_component(
        &self,
        called: Called<'a>,
        here: Option<&'a [u8]>,
    ) -> Result<Option<Remark>, AllocError> {
        let (at, definition) = called;
        let Some(there) = definition.runs_on(self.tokens) else {
            if self.find(Sought::Words(&[Word::Start])).is_none() {
                return Ok(None);
            }
            let help = "a component is started with a function that has `runs on`";
            let remark = self.named(at, "", " doesn't say on what it runs")?;
            return Ok(Some(remark.with_fixed_help(self.alloc, help)?));
        };
        if here == Some(there) {
            return Ok(None);
        }
        let behind = quoted(self.alloc, " runs on ", there, "")?;
        let remark = self.named(at, "", behind.as_str())?;
        Ok(Some(match here {
            Some(here) => {
                let help = quoted(self.alloc, "here it would run on ", here, "")?;
                remark.with_help(help)
            }
            None => remark,
        }))
    }

    /// `C13`: a behaviour that runs on another component type.
    pub(crate) fn runs_on(&self) -> Result<Remark, AllocError> {
        let here = self.component()?;
        for called in self.calls()? {
            if let Some(remark) = self.wrong_component(called, here)? {
                return Ok(remark);
            }
        }
        let at = self.first_word(&[Word::Start]);
        self.fixed(at, "the function runs on another component type")
    }

    /// What is wrong with a call of a definition's kind, or nothing.
    fn wrong_kind(&self, called: Called<'a>) -> Option<&'static str> {
        let (at, definition) = called;
        let is_branch = is_symbol(self.tokens, self.whole.from, Symbol::LeftBracket);
        let is_value = symbol_before(self.tokens, at) == Some(Symbol::Assign);
        let is_started = self.find(Sought::Words(&[Word::Start])).is_some();
        match definition.known.kind {
            Kind::Testcase => Some(" is a test case, which can't be called"),
            Kind::Altstep if is_started || is_value => {
                Some(" is an altstep, which can't be called here")
            }
            Kind::Function if is_branch => Some(" is no altstep"),
            Kind::Function if definition.result(self.tokens).is_none() => {
                Some(" returns no value")
            }
            _ => None,
        }
    }

    /// `C16`: a call of the wrong kind.
    pub(crate) fn call_kind(&self) -> Result<Remark, AllocError> {
        for called in self.calls()? {
            if let Some(wrong) = self.wrong_kind(called) {
                return self.named(called.0, "", wrong);
            }
        }
        self.fixed(self.part.from, "this can't be called here")
    }
}
