//! What looks wrong in a module, and refuses nothing.
use crate::scene::quoted;
use lint_names::{
    Defined, Kind, Known, Remark, Wanted, add_declaration, add_members, closing, definition_at,
    definition_of, depth_behind, end_of_event, is_symbol, is_word, meaning, name_at, nearest_name,
    place_at, symbol_at, visible, word_at,
};
use std::alloc::{AllocError, Global};
use std::fmt;
use ttcn_syntax::{Spanned, Symbol, Word};

/// What looks wrong, and refuses nothing.
#[derive(Clone, Copy, PartialEq, Eq)]
pub enum Oddity {
    /// A port that the component type doesn't have.
    NoSuchPort,
    /// A timer that is never started.
    IdleTimer,
    /// A branch that is never taken.
    DeadBranch,
    /// A function or an altstep that nothing calls.
    NotCalled,
}

impl fmt::Display for Oddity {
    fn fmt<W: fmt::Write>(&self, f: &mut fmt::Formatter<W>) -> fmt::Result {
        f.write_str(match self {
            Oddity::NoSuchPort => "NoSuchPort",
            Oddity::IdleTimer => "IdleTimer",
            Oddity::DeadBranch => "DeadBranch",
            Oddity::NotCalled => "NotCalled",
        })
    }
}

/// What looks wrong, and what is said of it.
#[derive(Drop)]
pub struct Warning {
    pub oddity: Oddity,
    pub remark: Remark,
}

/// A module's text that is looked through.
#[derive(Clone, Copy)]
struct Look<'a> {
    alloc: Global,
    tokens: &'a [Spanned],
    defined: &'a [Defined<'a>],
}

impl<'a> Look<'a> {
    /// Adds a warning.
    fn warn(
        &self,
        warnings: &mut Vec<Warning>,
        (oddity, at): (Oddity, usize),
        message: String,
        help: Option<String>,
    ) -> Result<(), AllocError> {
        let place = place_at(self.tokens, at);
        let remark = Remark {
            place,
            message,
            help,
        };
        warnings.push(Warning { oddity, remark })?;
        Ok(())
    }

    // ---- ports that aren't there

    /// The component type of the reference that ends before a colon, where its type is written in the text.
    fn component_before(&self, colon: usize) -> Result<Option<Defined<'a>>, AllocError> {
        let at = colon.saturating_sub(1);
        let Some(definition) = definition_at(self.defined, at) else {
            return Ok(None);
        };
        let type_name = match word_at(self.tokens, at) {
            Some(Word::SelfWord) => definition.runs_on(self.tokens),
            Some(Word::System) => definition.system(self.tokens),
            _ => self.type_of(at)?,
        };
        let found = match type_name {
            Some(name) => definition_of(self.defined, name),
            None => None,
        };
        Ok(match found {
            Some(component) if component.known.kind == Kind::Component => Some(component),
            _ => None,
        })
    }

    /// The name of the type of a variable at a position, which no path leads to.
    fn type_of(&self, at: usize) -> Result<Option<&'a [u8]>, AllocError> {
        let Some(name) = name_at(self.tokens, at) else {
            return Ok(None);
        };
        if is_symbol(self.tokens, at.saturating_sub(1), Symbol::Dot) {
            return Ok(None);
        }
        let known = visible(self.alloc, self.tokens, self.defined, at)?;
        Ok(match meaning(known.as_slice(), name) {
            Some(item) => match item.typed {
                Some(typed) => name_at(self.tokens, typed),
                None => None,
            },
            None => None,
        })
    }

    /// A warning where the port behind a colon isn't one of the component's.
    fn port_behind(&self, colon: usize, warnings: &mut Vec<Warning>) -> Result<(), AllocError> {
        let at = colon.saturating_add(1);
        let Some(name) = name_at(self.tokens, at) else {
            return Ok(());
        };
        let Some(component) = self.component_before(colon)? else {
            return Ok(());
        };
        let mut members: Vec<Known<'a>> = Vec::new(self.alloc);
        add_members(self.tokens, component, &mut members)?;
        if is_port(members.as_slice(), name) {
            return Ok(());
        }
        let behind = quoted(self.alloc, " has no port ", name, "")?;
        let message = quoted(
            self.alloc,
            "component type ",
            component.known.name,
            behind.as_str(),
        )?;
        let near = nearest_name(self.alloc, name, members.as_slice(), Wanted::Port)?;
        let help = match near {
            Some(near) => Some(quoted(self.alloc, "did you mean ", near, "?")?),
            None => None,
        };
        self.warn(warnings, (Oddity::NoSuchPort, at), message, help)
    }

    /// Ports of `connect`, `map` and `unmap` that the component types don't have.
    fn ports(&self, warnings: &mut Vec<Warning>) -> Result<(), AllocError> {
        for at in 0..self.tokens.len() {
            if matches!(
                word_at(self.tokens, at),
                Some(Word::Connect | Word::Map | Word::Unmap)
            ) {
                for colon in at..closing(self.tokens, at.saturating_add(1)) {
                    if is_symbol(self.tokens, colon, Symbol::Colon) {
                        self.port_behind(colon, warnings)?;
                    }
                }
            }
        }
        Ok(())
    }

    // ---- timers that are never started

    fn is_started(&self, name: &[u8]) -> bool {
        for at in 0..self.tokens.len() {
            if name_at(self.tokens, at) == Some(name)
                && is_word(self.tokens, at.saturating_add(2), Word::Start)
            {
                return true;
            }
        }
        false
    }

    fn timers(&self, warnings: &mut Vec<Warning>) -> Result<(), AllocError> {
        let mut declared = Vec::new(self.alloc);
        for at in 0..self.tokens.len() {
            if is_word(self.tokens, at, Word::Timer) {
                add_declaration(self.tokens, at, &mut declared)?;
            }
        }
        for timer in declared {
            if !self.is_started(timer.name) {
                let message = quoted(self.alloc, "timer ", timer.name, " is never started")?;
                self.warn(warnings, (Oddity::IdleTimer, timer.at), message, None)?;
            }
        }
        Ok(())
    }

    // ---- branches that are never taken

    /// Whether a branch at a position takes what a later one waits for, or all that can happen: `[else]`, or a receive
    /// without guard, template and sender.
    fn takes_all(&self, branch: usize, later: usize) -> bool {
        let bracket = branch.saturating_add(1);
        let event = branch.saturating_add(2);
        let other = closing(self.tokens, later).saturating_add(1);
        if is_word(self.tokens, bracket, Word::Else) {
            return true;
        }
        let (Some(receive), Some(_)) = (self.receive(event), self.receive(other)) else {
            return false;
        };
        let is_same = is_word(self.tokens, event, Word::Any)
            || name_at(self.tokens, event) == name_at(self.tokens, other);
        is_same && is_symbol(self.tokens, bracket, Symbol::RightBracket) && self.is_bare(receive)
    }

    /// Whether a receive at a position takes every message.
    fn is_bare(&self, receive: usize) -> bool {
        for at in receive..end_of_event(self.tokens, receive) {
            let is_template = is_symbol(self.tokens, at, Symbol::LeftParen);
            if is_template || is_word(self.tokens, at, Word::From) {
                return false;
            }
        }
        true
    }

    /// The position of `receive` in an event.
    fn receive(&self, event: usize) -> Option<usize> {
        let at = if is_word(self.tokens, event, Word::Any) {
            event.saturating_add(3)
        } else {
            event.saturating_add(2)
        };
        if is_word(self.tokens, at, Word::Receive) {
            Some(at)
        } else {
            None
        }
    }

    /// The branches between two braces, by the positions of their `[`.
    fn branches(&self, open: usize) -> Result<Vec<usize>, AllocError> {
        let mut branches = Vec::new(self.alloc);
        let mut depth = 0;
        for at in open..closing(self.tokens, open) {
            let symbol = symbol_at(self.tokens, at);
            if depth == 1 && symbol == Some(Symbol::LeftBracket) {
                branches.push(at)?;
            }
            depth = depth_behind(depth, symbol);
        }
        Ok(branches)
    }

    /// The branch among earlier ones that takes what a later one waits for.
    fn taking(&self, earlier: &[usize], later: usize) -> Option<usize> {
        for branch in earlier {
            if self.takes_all(*branch, later) {
                return Some(*branch);
            }
        }
        None
    }

    /// Branches between two braces that are never taken.
    fn dead(&self, open: usize, warnings: &mut Vec<Warning>) -> Result<(), AllocError> {
        let branches = self.branches(open)?;
        for (number, later) in branches.iter().enumerate() {
            let earlier = branches.get(..number).unwrap_or(&[]);
            if let Some(branch) = self.taking(earlier, *later) {
                let line = place_at(self.tokens, branch).line;
                let message = String::from_str(self.alloc, "this branch is never taken")?;
                let help = format!(in self.alloc; "the branch in line {line} is taken before")?;
                self.warn(warnings, (Oddity::DeadBranch, *later), message, Some(help))?;
            }
        }
        Ok(())
    }

    fn dead_branches(&self, warnings: &mut Vec<Warning>) -> Result<(), AllocError> {
        for at in 0..self.tokens.len() {
            if is_word(self.tokens, at, Word::Alt) {
                self.dead(at.saturating_add(1), warnings)?;
            }
        }
        for definition in self.defined {
            if let (Kind::Altstep, Some(open)) = (
                definition.known.kind,
                definition.body(self.tokens),
            ) {
                self.dead(open, warnings)?;
            }
        }
        Ok(())
    }

    // ---- functions and altsteps that nothing calls

    fn is_called(&self, definition: Defined<'_>) -> bool {
        for at in 0..self.tokens.len() {
            let is_name = name_at(self.tokens, at) == Some(definition.known.name);
            if is_name && !definition.holds(at) {
                return true;
            }
        }
        false
    }

    fn uncalled(&self, warnings: &mut Vec<Warning>) -> Result<(), AllocError> {
        for definition in self.defined {
            let Known { name, kind, at, .. } = definition.known;
            let what = match kind {
                Kind::Function => "nothing calls function ",
                Kind::Altstep => "nothing calls altstep ",
                _ => continue,
            };
            if !self.is_called(*definition) {
                let message = quoted(self.alloc, what, name, "")?;
                self.warn(warnings, (Oddity::NotCalled, at), message, None)?;
            }
        }
        Ok(())
    }
}

/// Whether a name is that of a port among members.
fn is_port(members: &[Known<'_>], name: &[u8]) -> bool {
    for member in members {
        if member.kind == Kind::Port && member.name == name {
            return true;
        }
    }
    false
}

/// What looks wrong in a module, in the order of the text.
pub fn warnings(
    alloc: Global,
    tokens: &[Spanned],
    defined: &[Defined<'_>],
) -> Result<Vec<Warning>, AllocError> {
    let look = Look {
        alloc,
        tokens,
        defined,
    };
    let mut warnings = Vec::new(alloc);
    look.ports(&mut warnings)?;
    look.timers(&mut warnings)?;
    look.dead_branches(&mut warnings)?;
    look.uncalled(&mut warnings)?;
    warnings.sort_by_key(|warning| warning.remark.place)?;
    Ok(warnings)
}
