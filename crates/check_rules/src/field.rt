//! Fields of what an expression stands for (ES 201 873-1, 6.2).
ghost use Rattle.std.specs.Prelude.{◌≡◌};
ghost use Rattle.check_rules.specs.Expressions as spec;
ghost use Rattle.check_rules.specs.internal.Findings.{finding};
ghost use Rattle.check_scope.specs.internal.Checking.{view};

use crate::finding::Finding;
use check_scope::rule::Rule;
use check_scope::scope::Scope;
use check_scope::types::{DataType, Typing};
use ttcn_syntax::Name;

/// What a field of something is.
pub fn within(scope: &Scope<'_>, typing: Typing, name: &Name) -> Finding
    ensures { result ≡ finding (spec.within (view scope.now).definitions typing name.now) }
{
    match typing {
        Typing::Known(DataType::Record(at)) => match scope.field(at, name) {
            Some(field) => Finding::fine(Typing::of(scope.resolved_in_module(&field.type_name))),
            None => Finding::wrong(Rule::Fields),
        },
        Typing::Unknown => Finding::fine(Typing::Unknown),
        _ => Finding::wrong(Rule::Fields),
    }
}
