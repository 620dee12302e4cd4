//! The names of all lists that were drawn, and of definitions.
ghost use Rattle.std.specs.Prelude.{◌≡◌, ◌<◌, [], length, get_or, IfOk, OnOk};
ghost use Rattle.std.specs.List.{flat_map};
ghost use Rattle.graph_names.specs.Known.{names_of};
ghost use Rattle.graph_names.specs.internal.Learning as spec;
ghost use Rattle.graph_names.specs.internal.Learning.{with_names};

use crate::drawn::Drawn;
use graph_names::Names;
use std::alloc::{AllocError, Global};
use ttcn_syntax::Definition;

/// Adds the names in the first item of the list at a position.
fn add_at<'a>(names: &mut Names<'a>, drawn: &Drawn<'a>, at: usize) -> Result<(), AllocError>
    requires { at < length drawn.now.lists }
    ensures { OnOk result (names.new ≡ with_names names.old (names_of (get_or drawn.now.lists at []))) }
{
    match drawn.first(at) {
        Some((first, _rest)) => names.add_first(first),
        None => Ok(()),
    }
}

fn add_lists<'a>(names: &mut Names<'a>, drawn: &Drawn<'a>) -> Result<(), AllocError>
    ensures { OnOk result (names.new ≡ with_names names.old (flat_map names_of drawn.now.lists)) }
{
    for at in 0..drawn.len() {
        add_at(names, drawn, at)?;
    }
    Ok(())
}

/// The names of the lists that were drawn, and of definitions.
pub(crate) fn all_names<'a>(
    alloc: Global,
    drawn: &Drawn<'a>,
    definitions: &'a [Definition],
) -> Result<Names<'a>, AllocError>
    ensures { IfOk result (λ names. names ≡ spec.all_names definitions.now drawn.now.lists) }
{
    let mut names = Names::new(alloc);
    add_lists(&mut names, drawn)?;
    names.add_definitions(definitions)?;
    Ok(names)
}
