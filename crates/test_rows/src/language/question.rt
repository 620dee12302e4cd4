//! What statements ask that are parsed and not checked, so that they may be ill-typed.
use crate::language::evaluation::{component, given, path};
use crate::language::notation::notation;
use std::alloc::{AllocError, Global};
use ttcn_syntax::{
    Action, Assignment, Call, ComponentRef, DefinitionKind, Event, Expr, Module, Name, Parameter,
    Rhs, Statement, Value as Written, Variables,
};
use ttcn_types::{DataType, Definitions, Meaning};
use ttcn_values::{
    ComponentId, Fault, Frame, Path, Slot, TimerState, Value, eval, eval_arguments, eval_component,
    eval_component_reference, eval_condition, eval_reference, eval_value, timer_runs, timer_state,
};
use value_assignment::assign;

/// A slot without a name.
const NAMELESS: Slot = Slot::MAX;

/// What entries say of names, the first ones first.
#[derive(Drop)]
struct Cells {
    values: Vec<(Slot, Value)>,
    timers: Vec<(Slot, TimerState)>,
}

/// The components of a frame: the MTC and another one run, `self` doesn't.
#[derive(Drop)]
struct Surroundings {
    mtc: ComponentId,
    itself: ComponentId,
    other: Path,
}

impl Surroundings {
    fn new(alloc: Global) -> Result<Surroundings, AllocError> {
        Ok(Surroundings {
            mtc: component(alloc, &[])?,
            itself: component(alloc, &[1])?,
            other: path(alloc, &[1, 2])?,
        })
    }

    fn running(&self) -> [&Path; 2] {
        [&self.mtc.path, &self.other]
    }
}

/// What the third function of a module asks, where the first one says what the members of the component type have, and the
/// second one what the names of the innermost frame have.
pub fn answered(
    alloc: Global,
    definitions: &Definitions<'_>,
    module: &Module,
) -> Result<String, AllocError> {
    let surroundings = Surroundings::new(alloc)?;
    let running = surroundings.running();
    let bare = Frame {
        definitions: &*definitions,
        names: &[],
        locals: &[],
        members: &[],
        local_timers: &[],
        member_timers: &[],
        running: &running,
        itself: &surroundings.itself,
        mtc: &surroundings.mtc,
    };
    let mut names = Vec::new(alloc);
    let members = entries_of(alloc, &bare, statements(module, 0), &mut names)?;
    let locals = entries_of(alloc, &bare, statements(module, 1), &mut names)?;
    let frame = Frame {
        names: names.as_slice(),
        locals: locals.values.as_slice(),
        members: members.values.as_slice(),
        local_timers: locals.timers.as_slice(),
        member_timers: members.timers.as_slice(),
        ..bare
    };
    asked(alloc, &frame, statements(module, 2))
}

/// The statements of the function at a position.
fn statements(module: &Module, at: usize) -> &[Statement] {
    match module.definitions.as_slice().get(at) {
        Some(definition) => match &definition.kind {
            DefinitionKind::Function(function) => function.body.as_slice(),
            _ => &[],
        },
        None => &[],
    }
}

// ---- entries

/// What statements say of names: a variable has a value, a timer is inactive where it is declared, runs where it is started
/// and is expired at its timeout. Each adds an entry. One of a slot without a name comes first.
fn entries_of(
    alloc: Global,
    bare: &Frame<'_>,
    statements: &[Statement],
    names: &mut Vec<Name>,
) -> Result<Cells, AllocError> {
    let mut cells = Cells {
        values: Vec::new(alloc),
        timers: Vec::new(alloc),
    };
    cells.values.push((NAMELESS, Value::Null))?;
    cells.timers.push((NAMELESS, TimerState::Running))?;
    for statement in statements {
        cells.add(alloc, bare, statement.action.get(), names)?;
    }
    Ok(cells)
}

impl Cells {
    /// Adds what an action says of names.
    fn add(
        &mut self,
        alloc: Global,
        bare: &Frame<'_>,
        action: &Action,
        names: &mut Vec<Name>,
    ) -> Result<(), AllocError> {
        match action {
            Action::Variables(variables) => {
                declare(alloc, bare, variables, names, &mut self.values)
            }
            Action::Timers(declared) => {
                for timer in declared.as_slice() {
                    self.add_timer(alloc, &timer.name, TimerState::Inactive, names)?;
                }
                Ok(())
            }
            Action::StartTimer(name) => self.add_timer(alloc, name, TimerState::Running, names),
            Action::Event(Event::Timeout(name)) => {
                self.add_timer(alloc, name, TimerState::Expired, names)
            }
            _ => Ok(()),
        }
    }

    /// Adds an entry of a timer.
    fn add_timer(
        &mut self,
        alloc: Global,
        name: &Name,
        state: TimerState,
        names: &mut Vec<Name>,
    ) -> Result<(), AllocError> {
        self.timers.push((slot_of(alloc, names, name)?, state))?;
        Ok(())
    }
}

/// The slot of a name.
fn slot_of(alloc: Global, names: &mut Vec<Name>, name: &Name) -> Result<Slot, AllocError> {
    let place = match names.iter().position(|known| known == name) {
        Some(at) => at,
        None => {
            names.push(name.try_clone(alloc)?)?;
            names.len().saturating_sub(1)
        }
    };
    Ok(Slot::try_from(place).unwrap_or(NAMELESS))
}

/// Variables that have a value add an entry each.
fn declare(
    alloc: Global,
    bare: &Frame<'_>,
    variables: &Variables,
    names: &mut Vec<Name>,
    values: &mut Vec<(Slot, Value)>,
) -> Result<(), AllocError> {
    let wanted = bare.definitions.resolved(&variables.type_name);
    for variable in variables.variables.as_slice() {
        let slot = slot_of(alloc, names, &variable.name)?;
        if let Some(value) = initial(alloc, bare, wanted, variable.value.as_ref())? {
            values.push((slot, value))?;
        }
    }
    Ok(())
}

/// The value that a variable begins with. What is created is a component that runs.
fn initial(
    alloc: Global,
    bare: &Frame<'_>,
    wanted: Option<DataType>,
    written: Option<&Rhs>,
) -> Result<Option<Value>, AllocError> {
    match written {
        Some(Rhs::Value(value)) => match eval_value(alloc, value, wanted, bare) {
            Ok(value) => Ok(Some(value)),
            Err(Fault::Dynamic) => Ok(None),
            Err(Fault::Memory) => Err(AllocError),
        },
        Some(Rhs::Create(_)) => Ok(Some(Value::Component(component(alloc, &[1, 2])?))),
        _ => Ok(None),
    }
}

// ---- questions

/// What the first of these statements asks, or what assignments leave.
fn asked(alloc: Global, frame: &Frame<'_>, statements: &[Statement]) -> Result<String, AllocError> {
    match statements.first().map(|statement| statement.action.get()) {
        Some(Action::Return(Some(value))) => values_of(alloc, frame, value),
        Some(Action::If(conditionals, _)) => match conditionals.as_slice().first() {
            Some(conditional) => condition_of(alloc, frame, &conditional.condition),
            None => String::from_str(alloc, "no condition"),
        },
        Some(Action::StopOf(component)) => referent(alloc, frame, component),
        Some(Action::Call(call)) => arguments_of(alloc, frame, call),
        Some(Action::Assign(_)) => left_by(alloc, frame.definitions, statements),
        _ => String::from_str(alloc, "no question"),
    }
}

/// What a value gives, and an expression and a reference the same way by the calls for them. Both answers stand there where they
/// differ.
fn values_of(alloc: Global, frame: &Frame<'_>, value: &Written) -> Result<String, AllocError> {
    let all = frame.definitions;
    let answer = given(alloc, all, eval_value(alloc, value, None, frame))?;
    let Written::Expr(expr) = value else {
        return Ok(answer);
    };
    let answer = also(answer, given(alloc, all, eval(alloc, expr, frame))?)?;
    let Expr::Reference(component) = expr else {
        return Ok(answer);
    };
    let referred = eval_component_reference(alloc, component, frame);
    let answer = also(answer, given(alloc, all, referred)?)?;
    let ComponentRef::Named(reference) = component else {
        return Ok(answer);
    };
    also(
        answer,
        given(alloc, all, eval_reference(alloc, reference, frame))?,
    )
}

/// An answer, and that of another call where it differs.
fn also(answer: String, other: String) -> Result<String, AllocError> {
    let mut answer = answer;
    if answer.as_str() != other.as_str() {
        answer.push_str(" or ")?;
        answer.push_str(other.as_str())?;
    }
    Ok(answer)
}

fn condition_of(alloc: Global, frame: &Frame<'_>, condition: &Expr) -> Result<String, AllocError> {
    let truth = eval_condition(alloc, condition, frame).map(Value::Boolean);
    given(alloc, frame.definitions, truth)
}

/// The component that a reference refers to, and whether the timer runs that it means, and that timer's state.
fn referent(
    alloc: Global,
    frame: &Frame<'_>,
    component: &ComponentRef,
) -> Result<String, AllocError> {
    let referred = eval_component(alloc, component, frame).map(Value::Component);
    let answer = given(alloc, frame.definitions, referred)?;
    let runs = timer_runs(component, frame);
    let state = match component {
        ComponentRef::Named(reference) => timer_state(&reference.name, frame),
        _ => None,
    };
    format!(in alloc; "{answer}, {runs:?}, {state:?}")
}

/// The parameters of a function of the module.
fn parameters<'a>(definitions: &Definitions<'a>, name: &Name) -> &'a [Parameter] {
    match definitions.meaning(name.as_bytes()) {
        Some(Meaning::Function(at)) => match definitions.kind(at) {
            Some(DefinitionKind::Function(function)) => function.parameters.as_slice(),
            _ => &[],
        },
        _ => &[],
    }
}

/// What the arguments of a call give for the parameters of a function of the module.
fn arguments_of(alloc: Global, frame: &Frame<'_>, call: &Call) -> Result<String, AllocError> {
    let parameters = parameters(frame.definitions, &call.name);
    let values = match eval_arguments(alloc, parameters, call.arguments.as_slice(), frame) {
        Ok(values) => values,
        Err(Fault::Dynamic) => return String::from_str(alloc, "dynamic error"),
        Err(Fault::Memory) => return Err(AllocError),
    };
    let mut answer = String::new(alloc);
    for (at, value) in values.as_slice().iter().enumerate() {
        answer.push_str(if at == 0 { "" } else { ", " })?;
        answer.push_str(notation(alloc, frame.definitions, value)?.as_str())?;
    }
    Ok(answer)
}

// ---- assignments

/// What a name of the record type `R` holds after assignments to it and to its fields; it has no value at first.
fn left_by(
    alloc: Global,
    definitions: &Definitions<'_>,
    statements: &[Statement],
) -> Result<String, AllocError> {
    let mut held = None;
    for statement in statements {
        let Action::Assign(assignment) = statement.action.get() else {
            return String::from_str(alloc, "no assignment");
        };
        match assigned(alloc, definitions, held, assignment) {
            Ok(value) => held = Some(value),
            Err(Fault::Dynamic) => return String::from_str(alloc, "dynamic error"),
            Err(Fault::Memory) => return Err(AllocError),
        }
    }
    match held {
        Some(value) => notation(alloc, definitions, &value),
        None => String::from_str(alloc, "no value"),
    }
}

/// What the name holds after an assignment of an integer, or of `omit`.
fn assigned(
    alloc: Global,
    definitions: &Definitions<'_>,
    held: Option<Value>,
    assignment: &Assignment,
) -> Result<Value, Fault> {
    let wanted = match definitions.meaning(b"R") {
        Some(Meaning::Record(at)) => Some(DataType::Record(at)),
        _ => None,
    };
    let value = match assignment.value.get() {
        Rhs::Value(Written::Expr(Expr::Int(number))) => {
            Value::Integer(i64::try_from(*number).unwrap_or(i64::MAX))
        }
        _ => Value::Omit,
    };
    let fields = assignment.target.fields.as_slice();
    assign(alloc, definitions, wanted, held, fields, value)
}
