//! Why the values of a component's members are a dynamic error (ES 201 873-1, 6.2.10 and 21.3.1).
use crate::names::{Names, write_name};
use crate::outcome::given;
use crate::sight::Sight;
use check_rules::{DataType, Definitions, Meaning};
use std::alloc::{AllocError, Global};
use ttcn_syntax::{Constant, DefinitionKind, Member, MemberVariable, Name, Seq, Value as Written};
use ttcn_values::eval_value;
use value_types::{ComponentId, Frame, Path, Slot, Value};

/// The declarations of the component type at a position.
fn declarations_of<'a>(definitions: &Definitions<'a>, at: usize) -> &'a [Member] {
    match definitions.kind(at) {
        Some(DefinitionKind::Component(component)) => component.members.as_slice(),
        _ => &[],
    }
}

/// The position of the component type of a name.
fn component_type(definitions: &Definitions<'_>, name: &Name) -> Option<usize> {
    match definitions.meaning(name.as_bytes()) {
        Some(Meaning::Component(at)) => Some(at),
        _ => None,
    }
}

/// What the declaration of a member gives.
#[derive(Drop)]
enum Declared {
    Value(Value),
    /// Why it is a dynamic error.
    Failure(String),
}

impl<'a> Sight<'a> {
    /// What the value of a member reads: the members before it.
    fn among<'b>(&'b self, values: &'b [(Slot, Value)]) -> Sight<'b> {
        Sight {
            names: self.names,
            frame: Frame {
                definitions: self.frame.definitions,
                names: self.frame.names,
                locals: values,
                members: &[],
                local_timers: &[],
                member_timers: &[],
                running: self.frame.running,
                itself: self.frame.itself,
                mtc: self.frame.mtc,
            },
        }
    }

    /// What the declaration of a member gives behind others.
    fn declared(
        &self,
        alloc: Global,
        wanted: Option<DataType>,
        name: &Name,
        value: &Written,
        values: &[(Slot, Value)],
    ) -> Result<Declared, AllocError> {
        let sight = self.among(values);
        if let Some(found) = given(eval_value(alloc, value, wanted, &sight.frame))? {
            return Ok(Declared::Value(found));
        }
        let mut text = String::new(alloc);
        if let Some(cause) = sight.written(alloc, value)? {
            text.push_str(cause.as_str())?;
            text.push_str(", ")?;
        }
        text.push_str("in the declaration of ")?;
        write_name(&mut text, name)?;
        Ok(Declared::Failure(text))
    }

    /// Why the value of a member is a dynamic error; else the member has it behind the call.
    fn member(
        &self,
        alloc: Global,
        wanted: Option<DataType>,
        name: &Name,
        value: &Written,
        values: &mut Vec<(Slot, Value)>,
    ) -> Result<Option<String>, AllocError> {
        match self.declared(alloc, wanted, name, value, values.as_slice())? {
            Declared::Value(found) => {
                if let Some(slot) = self.names.slot_of(name) {
                    values.push((slot, found))?;
                }
                Ok(None)
            }
            Declared::Failure(cause) => Ok(Some(cause)),
        }
    }

    /// Why the values of constants are a dynamic error.
    fn member_constants(
        &self,
        alloc: Global,
        wanted: Option<DataType>,
        constants: &[Constant],
        values: &mut Vec<(Slot, Value)>,
    ) -> Result<Option<String>, AllocError> {
        for constant in constants {
            let (name, value) = (&constant.name, &constant.value);
            if let Some(cause) = self.member(alloc, wanted, name, value, values)? {
                return Ok(Some(cause));
            }
        }
        Ok(None)
    }

    /// Why the values of variables are a dynamic error.
    fn member_variables(
        &self,
        alloc: Global,
        wanted: Option<DataType>,
        variables: &[MemberVariable],
        values: &mut Vec<(Slot, Value)>,
    ) -> Result<Option<String>, AllocError> {
        for variable in variables {
            if let Some(value) = &variable.value {
                if let Some(cause) = self.member(alloc, wanted, &variable.name, value, values)? {
                    return Ok(Some(cause));
                }
            }
        }
        Ok(None)
    }

    /// Why the values of the members of the component type at a position are a dynamic error.
    fn members(&self, alloc: Global, at: usize) -> Result<Option<String>, AllocError> {
        let mut values = Vec::new(alloc);
        for member in declarations_of(self.frame.definitions, at) {
            let cause = match member {
                Member::Constants(declared) => {
                    let wanted = self.frame.definitions.resolved(&declared.type_name);
                    let constants = declared.constants.as_slice();
                    self.member_constants(alloc, wanted, constants, &mut values)?
                }
                Member::Variables(type_name, variables) => {
                    let wanted = self.frame.definitions.resolved(type_name);
                    self.member_variables(alloc, wanted, variables.as_slice(), &mut values)?
                }
                Member::Ports(_, _) | Member::Timers(_) => None,
            };
            if cause.is_some() {
                return Ok(cause);
            }
        }
        Ok(None)
    }

    /// Why it is a dynamic error to create a component of a type.
    pub(crate) fn creation(
        &self,
        alloc: Global,
        name: &Name,
    ) -> Result<Option<String>, AllocError> {
        match component_type(self.frame.definitions, name) {
            Some(at) => self.members(alloc, at),
            None => Ok(None),
        }
    }
}

/// The name of the type that a test case runs on.
fn type_of_testcase<'a>(definitions: &Definitions<'a>, name: &[u8]) -> Option<&'a Name> {
    let at = match definitions.meaning(name) {
        Some(Meaning::Testcase(at)) => at,
        _ => return None,
    };
    match definitions.kind(at) {
        Some(DefinitionKind::Testcase(testcase)) => Some(&testcase.runs_on),
        _ => None,
    }
}

/// What a component reads that has no names.
fn without_names<'a>(
    names: Names<'a>,
    defined: &'a Definitions<'a>,
    running: &'a [&'a Path],
    mtc: &'a ComponentId,
) -> Sight<'a> {
    Sight {
        names,
        frame: Frame {
            definitions: defined,
            names: names.slots,
            locals: &[],
            members: &[],
            local_timers: &[],
            member_timers: &[],
            running,
            itself: mtc,
            mtc,
        },
    }
}

/// Why a test case ends with a dynamic error before its first step: in the values of the members of its component.
pub fn cause_at_start(
    alloc: Global,
    names: Names<'_>,
    defined: &Definitions<'_>,
    testcase: &str,
) -> Result<Option<String>, AllocError> {
    let runs_on = match type_of_testcase(defined, testcase.as_bytes()) {
        Some(name) => name,
        None => return Ok(None),
    };
    let mtc = ComponentId {
        path: Path {
            numbers: Seq::new(alloc),
        },
        component_type: component_type(defined, runs_on).unwrap_or(0),
    };
    let running = [&mtc.path];
    without_names(names, defined, &running, &mtc).creation(alloc, runs_on)
}
