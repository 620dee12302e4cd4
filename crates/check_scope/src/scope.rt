//! What is known at a place of a module.
ghost use Rattle.std.specs.Prelude.{◌≡◌, ℕ, Some};
ghost use Rattle.std.specs.List.{slice_get};
ghost use Rattle.check_scope.specs.PortTypes.{types_of_port};
ghost use Rattle.check_scope.specs.Names.{field_named, fields_at, kind_at, module_names, names_on};
ghost use Rattle.check_scope.specs.internal.Tables.{either, field_by, member, said};
ghost use Rattle.check_scope.specs.internal.Traffic.{types_at};

mod block;
mod define;
mod fields;
mod lookup;
mod members;
mod ports;
mod start;

use crate::field_table::FieldTable;
use crate::table::Table;
use crate::traffic::Traffic;
pub use define::define_all;
pub use fields::fields_of;
pub use lookup::{built_in, kind_at, port_type_meant, resolved_in, type_meant};
pub use ports::passes;
use ttcn_syntax::Definition;

/// The module, the names that are visible at a place, and the component type that `self` is of.
#[derive(Drop)]
pub struct Scope<'a> {
    pub definitions: &'a [Definition],
    /// What the definitions define.
    pub(crate) defined: Table<'a>,
    /// For each definition what the component type declares, if it is one.
    pub(crate) members: Vec<Table<'a>>,
    /// For each definition the fields by their names, if it is a record.
    pub(crate) fields_by_name: Vec<FieldTable<'a>>,
    /// For each definition what passes at ports of it, if it is a type of ports.
    pub(crate) ports: Vec<Option<Traffic>>,
    /// The component type whose members are visible.
    pub(crate) runs_on: Option<usize>,
    /// The blocks round the innermost one, from the outermost.
    pub(crate) blocks: Vec<Table<'a>>,
    /// The innermost block.
    pub(crate) locals: Table<'a>,
    pub(crate) itself: Option<usize>,
    ghost are_members: { (at : ℕ) → either (member members.items (Some at)) (said defined) ≡ names_on definitions.now at },
    ghost are_fields: { (at : ℕ) → field_by (slice_get fields_by_name.items at) ≡ (λ name. field_named name (fields_at definitions.now at)) },
    ghost are_ports: { (at : ℕ) → types_at (slice_get ports.items at) ≡ (λ incoming. types_of_port (module_names definitions.now) incoming (kind_at definitions.now at)) },
    ghost is_whole: { said defined ≡ module_names definitions.now },
}
