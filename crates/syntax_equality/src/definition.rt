//! Modules and their definitions.
use crate::Exact;
use ttcn_syntax::{
    Altstep, ComponentType, Definition, DefinitionKind, Direction, EnumNumber, EnumeratedType,
    Enumerator, Field, Function, Member, MemberVariable, Module, Parameter, PortMessages, PortType,
    RecordType, TemplateDefinition, Testcase,
};

impl Exact for Field {
    ghost use Rattle.syntax_equality.specs.Definitions.{field_one};

    ghost exact = { field_one };
}

impl Exact for RecordType {
    ghost use Rattle.syntax_equality.specs.Definitions.{record_type_one};

    ghost exact = { record_type_one };
}

impl Exact for EnumNumber {
    ghost use Rattle.syntax_equality.specs.Definitions.{enum_number_one};

    ghost exact = { enum_number_one };
}

impl Exact for Enumerator {
    ghost use Rattle.syntax_equality.specs.Definitions.{enumerator_one};

    ghost exact = { enumerator_one };
}

impl Exact for EnumeratedType {
    ghost use Rattle.syntax_equality.specs.Definitions.{enumerated_type_one};

    ghost exact = { enumerated_type_one };
}

impl Exact for Direction {
    ghost use Rattle.syntax_equality.specs.Definitions.{direction_one};

    ghost exact = { direction_one };
}

impl Exact for PortMessages {
    ghost use Rattle.syntax_equality.specs.Definitions.{port_messages_one};

    ghost exact = { port_messages_one };
}

impl Exact for PortType {
    ghost use Rattle.syntax_equality.specs.Definitions.{port_type_one};

    ghost exact = { port_type_one };
}

impl Exact for MemberVariable {
    ghost use Rattle.syntax_equality.specs.Definitions.{member_variable_one};

    ghost exact = { member_variable_one };
}

impl Exact for Member {
    ghost use Rattle.syntax_equality.specs.Definitions.{member_one};

    ghost exact = { member_one };
}

impl Exact for ComponentType {
    ghost use Rattle.syntax_equality.specs.Definitions.{component_type_one};

    ghost exact = { component_type_one };
}

impl Exact for Parameter {
    ghost use Rattle.syntax_equality.specs.Definitions.{parameter_one};

    ghost exact = { parameter_one };
}

impl Exact for TemplateDefinition {
    ghost use Rattle.syntax_equality.specs.Definitions.{template_definition_one};

    ghost exact = { template_definition_one };
}

impl Exact for Function {
    ghost use Rattle.syntax_equality.specs.Definitions.{function_one};

    ghost exact = { function_one };
}

impl Exact for Altstep {
    ghost use Rattle.syntax_equality.specs.Definitions.{altstep_one};

    ghost exact = { altstep_one };
}

impl Exact for Testcase {
    ghost use Rattle.syntax_equality.specs.Definitions.{testcase_one};

    ghost exact = { testcase_one };
}

impl Exact for DefinitionKind {
    ghost use Rattle.syntax_equality.specs.Definitions.{kind_one};

    ghost exact = { kind_one };
}

impl Exact for Definition {
    ghost use Rattle.syntax_equality.specs.Definitions.{definition_one};

    ghost exact = { definition_one };
}

impl Exact for Module {
    ghost use Rattle.syntax_equality.specs.Definitions.{module_one};

    ghost exact = { module_one };
}
