//! The definitions of a program, by their names.
ghost use Rattle.std.specs.Prelude.{◌≡◌, IfOk};
ghost use Rattle.std.specs.Option.{option_map};
ghost use Rattle.check_scope.specs.Names.{constant_at, constants_type, fields_at, kind_at, module_names, resolved, template_at};

use check_scope::least::Least;
use check_scope::names::Meaning;
use check_scope::scope::{define_all, fields_of, kind_at, resolved_in};
use check_scope::table::Table;
use check_scope::types::DataType;
use std::alloc::{AllocError, Global};
use std::marker::Model;
use ttcn_syntax::{Constant, Definition, DefinitionKind, Field, TemplateDefinition, TypeName};

/// The definitions of a program, by their names. A contract sees the definitions.
#[derive(Drop)]
pub struct Definitions<'a> {
    definitions: &'a [Definition],
    /// What the definitions define.
    defined: Table<'a>,
}

impl<'a> Model for Definitions<'a> {
    ghost use Rattle.std.specs.Prelude.{◌≡◌, List};
    ghost use Rattle.std.specs.Coded.{codes};
    ghost use Rattle.ttcn_syntax.specs.contracts.tree.statement.Branch as branch;
    ghost use Rattle.ttcn_syntax.specs.contracts.tree.statement.Statement as statement;
    ghost use Rattle.ttcn_syntax.specs.contracts.tree.template.Template as template;
    ghost use Rattle.ttcn_syntax.specs.contracts.tree.value.Value as value;
    ghost use Rattle.ttcn_syntax.specs.declared.tree.definition.Definition.{Definition};
    ghost use Rattle.check_scope.specs.Names.{module_names};
    ghost use Rattle.check_scope.specs.internal.Tables.{said};

    ghost Value = { List Definition };

    ghost coded = { Prim.hlevel (codes, branch.the_row.coded, statement.the_row.coded, template.the_row.coded, value.the_row.coded) };

    ghost view = { λ all. all.definitions.now };

    ghost invariant = { λ all. said all.defined ≡ module_names all.definitions.now };
}

impl<'a> Definitions<'a> {
    /// The definitions, with a table of their names.
    pub(crate) fn of(
        alloc: Global,
        definitions: &'a [Definition],
    ) -> Result<Definitions<'a>, AllocError>
        ensures { IfOk result (λ all. all ≡ definitions.now) }
    {
        let defined = define_all(alloc, definitions, &mut Least { fault: None })?;
        Ok(Definitions {
            definitions,
            defined,
        })
    }

    /// What a name stands for in the whole module, or `None` where the module defines nothing of the name.
    pub fn meaning(&self, name: &[u8]) -> Option<Meaning>
        ensures { result ≡ module_names self.now name.now }
    {
        self.defined.get(name)
    }

    /// What is defined at a position, or `None` behind the last definition.
    pub fn kind(&self, at: usize) -> Option<&'a DefinitionKind>
        ensures { option_map (λ kind. kind.now) result ≡ kind_at self.now at }
    {
        kind_at(self.definitions, at)
    }

    /// The fields of the record at a position. There are none where no record stands.
    pub fn fields(&self, at: usize) -> &'a [Field]
        ensures { result.now ≡ fields_at self.now at }
    {
        match self.kind(at) {
            Some(kind) => fields_of(kind),
            None => &[],
        }
    }

    /// The type that a definition of the module names, or `None` where the name stands for no type of values.
    pub fn resolved(&self, type_name: &TypeName) -> Option<DataType>
        ensures { result ≡ resolved (module_names self.now) type_name.now }
    {
        resolved_in(&self.defined, type_name)
    }

    /// The constant at a place of the declaration at a position, or `None` where no such constant stands.
    pub fn constant(&self, at: usize, item: usize) -> Option<&'a Constant>
        ensures { option_map (λ constant. constant.now) result ≡ constant_at self.now at item }
    {
        match self.kind(at)? {
            DefinitionKind::Constants(constants) => constants.constants.as_slice().get(item),
            _ => None,
        }
    }

    /// The type of the constants of the declaration at a position, or `None` where no such declaration stands or it names no type.
    pub fn constants_type(&self, at: usize) -> Option<DataType>
        ensures { result ≡ constants_type (module_names self.now) (kind_at self.now at) }
    {
        match self.kind(at)? {
            DefinitionKind::Constants(constants) => self.resolved(&constants.type_name),
            _ => None,
        }
    }

    /// The template at a position, or `None` where no template stands.
    pub fn template(&self, at: usize) -> Option<&'a TemplateDefinition>
        ensures { option_map (λ template. template.now) result ≡ template_at self.now at }
    {
        match self.kind(at)? {
            DefinitionKind::Template(template) => Some(template),
            _ => None,
        }
    }
}
