//! All rules that a module breaks: each is found by the checker, in the text without what broke the ones before.
ghost use Rattle.std.specs.Prelude.{◌≡◌, IfOk, Some};
ghost use Rattle.lint_findings.specs.Errors.{first_reason};

use crate::edit::{Answer, Cut, Draft};
use crate::finding::{Finding, Reason};
use crate::lost::LostNames;
use crate::parts::{Thing, thing_at};
use check_scope::rule::Rule;
use lint_names::{Defined, Remark, position_of};
use lint_remarks::{Scene, remarks};
use std::alloc::{AllocError, Global};
use ttcn_syntax::{Span, Spanned};

/// The most findings that are told of one text.
const MOST_FINDINGS: usize = 100;

/// How many times the text is judged at most, each time without what broke a rule before.
const MOST_ROUNDS: usize = 200;

/// What is wrong in a module so far.
#[derive(Drop)]
struct Search<'a> {
    alloc: Global,
    tokens: &'a [Spanned],
    defined: &'a [Defined<'a>],
    draft: Draft<'a>,
    lost: LostNames<'a>,
    found: Vec<Finding>,
}

/// The part of a thing that breaks the rule: the first one without which, and without those behind it, it isn't broken
/// any more. It is the whole where no part is.
fn culprit(draft: &Draft<'_>, thing: &Thing, fault: Answer) -> Result<Cut, AllocError> {
    let cuts = thing.cuts.as_slice();
    let without_all = draft.answer_without(cuts)?;
    if without_all == fault || without_all == Answer::Unread {
        return Ok(thing.whole);
    }
    for (at, cut) in cuts.iter().enumerate() {
        let behind = cuts.get(at.saturating_add(1)..).unwrap_or(&[]);
        if draft.answer_without(behind)? == fault {
            let is_read = draft.answer_without(&[*cut])? != Answer::Unread;
            return Ok(if is_read { *cut } else { thing.whole });
        }
    }
    Ok(thing.whole)
}

impl Search<'_> {
    /// Whether a finding is told already.
    fn is_told(&self, reason: Reason, place: Span) -> bool {
        for finding in &self.found {
            if finding.reason == reason && finding.remark.place == place {
                return true;
            }
        }
        false
    }

    /// Tells of a part that breaks a rule, unless that follows from what is cut out.
    fn tell(&mut self, rule: Rule, thing: &Thing, cut: Cut) -> Result<(), AllocError> {
        if self.lost.are_in(thing.judged_of(cut)) {
            return Ok(());
        }
        let scene = Scene {
            alloc: self.alloc,
            tokens: self.tokens,
            defined: self.defined,
            whole: thing.whole.part,
            part: thing.shown_of(cut),
        };
        let reason = Reason::Broken(rule);
        for remark in remarks(scene, rule)? {
            if self.found.len() < MOST_FINDINGS && !self.is_told(reason, remark.place) {
                self.found.push(Finding { reason, remark })?;
            }
        }
        Ok(())
    }

    /// Tells what is broken at a place, and cuts it out. It answers whether the search may go on.
    fn go_on(&mut self, rule: Rule, place: Span) -> Result<bool, AllocError> {
        let Some(at) = position_of(self.tokens, place) else {
            return Ok(false);
        };
        let thing = thing_at(self.alloc, self.tokens, self.defined, at)?;
        let cut = culprit(&self.draft, &thing, Answer::Broken(rule, place))?;
        self.tell(rule, &thing, cut)?;
        self.lost.lose_cut(cut)?;
        self.draft.cut(cut);
        Ok(self.found.len() < MOST_FINDINGS)
    }

    /// Tells of all rules that are broken, the least one first.
    fn search(&mut self) -> Result<(), AllocError> {
        let mut last = Answer::Accepted;
        for _round in 0..MOST_ROUNDS {
            let answer = self.draft.answer()?;
            let Answer::Broken(rule, place) = answer else {
                return Ok(());
            };
            if answer == last || !self.go_on(rule, place)? {
                return Ok(());
            }
            last = answer;
        }
        Ok(())
    }

    fn into_found(self) -> Vec<Finding> {
        let Search { found, .. } = self;
        found
    }
}

/// The finding that was found first, if it has this reason, or one without words.
fn first_of(
    alloc: Global,
    found: Option<Finding>,
    reason: Reason,
    place: Span,
) -> Result<Finding, AllocError>
    ensures { IfOk result (λ finding. finding.reason ≡ reason) }
{
    if let Some(finding) = found {
        if finding.reason == reason {
            return Ok(finding);
        }
    }
    let remark = Remark::fixed(alloc, place, "this breaks a rule")?;
    Ok(Finding { reason, remark })
}

/// The rules that a module breaks: in front the one that the checker answers, the others in the order of the text.
pub(crate) fn broken_rules(
    alloc: Global,
    tokens: &[Spanned],
    defined: &[Defined<'_>],
    rule: Rule,
    place: Span,
) -> Result<Vec<Finding>, AllocError>
    ensures { IfOk result (λ found. first_reason found.items ≡ Some (Reason.Broken rule)) }
{
    let mut search = Search {
        alloc,
        tokens,
        defined,
        draft: Draft::new(alloc, tokens)?,
        lost: LostNames::new(alloc, tokens, defined),
        found: Vec::new(alloc),
    };
    search.search()?;
    let mut others = search.into_found();
    others.reverse();
    let first = first_of(alloc, others.pop(), Reason::Broken(rule), place)?;
    others.sort_by_key(|finding| finding.remark.place)?;
    others.insert(0, first)?;
    Ok(others)
}
