//! Arguments of behaviours, as the values of a frame's names (ES 201 873-1, 5.4.2 and 16).
ghost use Rattle.std.specs.Prelude.{◌≡◌, IfOk, IfSome, length, map};
ghost use Rattle.std.specs.List.{zip};
ghost use Rattle.std.specs.Option.{option_map};
ghost use Rattle.check_rules.specs.Calls.{parameters_of};
ghost use Rattle.check_scope.specs.Names.{kind_at};
ghost use Rattle.step_snapshot.specs.internal.Arguments.{with_argument};
ghost use Rattle.semantics.specs.Branches as rules;
ghost use Rattle.semantics.specs.Entries.{Entries};
ghost use Rattle.semantics.specs.Snapshots.{view_of_arguments};
ghost use Rattle.step_snapshot.specs.Slots.{IsKnown, NoneIsMissing};
ghost use Rattle.step_snapshot.specs.Tests.{legend_by};
ghost use Rattle.config_parts.specs.Views.{HasSlotsWithin, view_by};
ghost use Rattle.value_types.specs.declared.value.Value.{Value as AValue};

use crate::test_case::TestCase;
use check_rules::parameters_of;
use config_parts::{Cells, names_make_legends};
use std::alloc::{AllocError, Global};
use ttcn_syntax::{Parameter, Seq};
use value_types::Value;

/// A parameter has a value among those of a frame's names. A value without parameter goes nowhere.
fn with_argument(
    test: &TestCase<'_>,
    cells: Cells,
    parameter: Option<&Parameter>,
    value: Value,
) -> Result<Cells, AllocError>
    requires { IfSome parameter (λ parameter. IsKnown test.now.names parameter.now.name) }
    ensures within { HasSlotsWithin (length test.now.names) cells → IfOk result (HasSlotsWithin (length test.now.names)) }
    ensures said { (values : Entries AValue) → view_by (legend_by test.now) cells ≡ view_of_arguments values
        → IfOk result (λ more. view_by (legend_by test.now) more ≡ view_of_arguments (with_argument (option_map (λ parameter. parameter.now) parameter.entry) value values)) }
{
    let Some(parameter) = parameter else {
        return Ok(cells);
    };
    test.names.are_in_order();
    names_make_legends();
    cells.declare(test.slot_of(&parameter.name), value)
}

/// Parameters have values, in their order, among those of a frame's names.
fn with_arguments(
    alloc: Global,
    test: &TestCase<'_>,
    parameters: &[Parameter],
    values: Seq<Value>,
) -> Result<Cells, AllocError>
    requires { NoneIsMissing test.now.names (map (λ parameter. parameter.name) parameters.now) }
    ensures within { IfOk result (HasSlotsWithin (length test.now.names)) }
    ensures said { IfOk result (λ cells. view_by (legend_by test.now) cells ≡ view_of_arguments (rules.with_arguments (zip parameters.now values))) }
{
    let mut cells = Cells::new(alloc);
    let mut values = values.into_vec();
    while let Some(value) = values.pop() {
        cells = with_argument(test, cells, parameters.get(values.len()), value)?;
    }
    Ok(cells)
}

/// Arguments of the behaviour at a position, as the values of a frame's names: each of its parameters has a slot.
pub fn argument_cells(
    alloc: Global,
    test: &TestCase<'_>,
    at: usize,
    values: Seq<Value>,
) -> Result<Cells, AllocError>
    requires { NoneIsMissing test.now.names (map (λ parameter. parameter.name) (parameters_of (kind_at test.now.definitions at))) }
    ensures within { IfOk result (HasSlotsWithin (length test.now.names)) }
    ensures said { IfOk result (λ cells. view_by (legend_by test.now) cells ≡ view_of_arguments (rules.argument_values test.now.definitions at values)) }
{
    let parameters = parameters_of(test.definitions.kind(at));
    with_arguments(alloc, test, parameters, values)
}
