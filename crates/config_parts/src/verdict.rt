//! Verdicts, from the best to the worst (ES 201 873-1, 24).
ghost use Rattle.std.specs.Prelude.{◌≡◌};
ghost use Rattle.semantics.specs.Configurations as rules;

use ttcn_syntax::Verdict;

fn badness(verdict: Verdict) -> u8
    ensures { result ≡ rules.badness verdict }
{
    match verdict {
        Verdict::None => 0,
        Verdict::Pass => 1,
        Verdict::Inconc => 2,
        Verdict::Fail => 3,
        Verdict::Error => 4,
    }
}

/// The worse of two verdicts.
pub(crate) fn worse(one: Verdict, other: Verdict) -> Verdict
    ensures { result ≡ rules.worse one other }
{
    if badness(one) < badness(other) {
        other
    } else {
        one
    }
}
