//! Statements (sections 11, 19 to 24).
use crate::{
    Boxed, Call, ComponentRef, Expr, MessageTemplate, Name, Reference, Rhs, Seq, Span, TypeName,
    Value,
};

/// A statement, and where its first token stands.
#[cycle(statement)]
#[derive(PartialEq, Eq)]
pub struct Statement {
    pub place: Span,
    pub action: Boxed<Action>,
}

impl Drop for Statement {
    #[cycle(drop_statement)]
    fn drop(self) {
        let Statement {
            place: _place,
            action: _action,
        } = self;
    }
}

/// What a statement does.
#[cycle(statement)]
#[derive(Drop, PartialEq, Eq)]
pub enum Action {
    Variables(Variables),
    Constants(Constants),
    Timers(Seq<Timer>),
    Assign(Assignment),
    /// `f(1)`: of a function or an altstep.
    Call(Call),
    /// A receive, timeout or done outside an `alt`.
    Event(Event),
    Alt(Seq<Branch>),
    Repeat,
    /// The conditions with their blocks, and the block of the last `else`.
    If(Seq<Conditional>, Option<Seq<Statement>>),
    While(Expr, Seq<Statement>),
    DoWhile(Seq<Statement>, Expr),
    For(ForStart, Expr, Assignment, Seq<Statement>),
    Return(Option<Value>),
    /// `stop`
    Stop,
    Log(Seq<LogItem>),
    Setverdict(Verdict, Seq<LogItem>),
    Connect(PortRef, PortRef),
    /// `map` or `unmap`: of a component's port and a port of the system.
    Map(Mapping),
    Send(Send),
    /// `c.start(f(1))`
    StartComponent(ComponentRef, Call),
    /// `t.start`, with a duration or without.
    StartTimer(Name),
    /// `c.stop`: of a component or a timer.
    StopOf(ComponentRef),
    Activate(Call),
    Deactivate(Option<Reference>),
}

/// The variables of one declaration.
#[derive(PartialEq, Eq)]
pub struct Variables {
    pub type_name: TypeName,
    pub variables: Seq<Variable>,
}

impl Drop for Variables {
    fn drop(self) {
        let Variables {
            type_name: _type_name,
            variables: _variables,
        } = self;
    }
}

#[derive(PartialEq, Eq)]
pub struct Variable {
    pub name: Name,
    pub value: Option<Rhs>,
}

impl Drop for Variable {
    fn drop(self) {
        let Variable {
            name: _name,
            value: _value,
        } = self;
    }
}

/// The constants of one declaration.
#[derive(PartialEq, Eq)]
pub struct Constants {
    pub type_name: TypeName,
    pub constants: Seq<Constant>,
}

impl Drop for Constants {
    fn drop(self) {
        let Constants {
            type_name: _type_name,
            constants: _constants,
        } = self;
    }
}

#[derive(PartialEq, Eq)]
pub struct Constant {
    pub name: Name,
    pub value: Value,
}

impl Drop for Constant {
    fn drop(self) {
        let Constant {
            name: _name,
            value: _value,
        } = self;
    }
}

/// A timer of a declaration. Its duration has no value here.
#[derive(PartialEq, Eq)]
pub struct Timer {
    pub name: Name,
}

impl Drop for Timer {
    fn drop(self) {
        let Timer { name: _name } = self;
    }
}

#[derive(PartialEq, Eq)]
pub struct Assignment {
    pub target: Reference,
    pub value: Boxed<Rhs>,
}

impl Drop for Assignment {
    fn drop(self) {
        let Assignment {
            target: _target,
            value: _value,
        } = self;
    }
}

/// What a `for` begins with.
#[derive(PartialEq, Eq)]
pub enum ForStart {
    Variables(Variables),
    Assign(Assignment),
}

impl Drop for ForStart {
    fn drop(self) {
        match self {
            ForStart::Variables(_variables) => {}
            ForStart::Assign(_assignment) => {}
        }
    }
}

/// A condition, and the block that it guards.
#[cycle(statement)]
#[derive(Drop, PartialEq, Eq)]
pub struct Conditional {
    pub condition: Expr,
    pub block: Seq<Statement>,
}

/// A branch of an `alt` or an altstep, and where its `[` stands.
#[cycle(statement)]
#[derive(Drop, PartialEq, Eq)]
pub struct Branch {
    pub place: Span,
    pub alternative: Boxed<Alternative>,
}

/// What a branch waits for, and the block behind it.
#[cycle(statement)]
#[derive(Drop, PartialEq, Eq)]
pub enum Alternative {
    /// A guard, an event, and a block.
    Event(Option<Expr>, Event, Option<Seq<Statement>>),
    /// A guard, a call of an altstep, and a block.
    Call(Option<Expr>, Call, Option<Seq<Statement>>),
    /// `[else]`
    Else(Seq<Statement>),
}

/// What a component can wait for.
#[derive(PartialEq, Eq)]
pub enum Event {
    Receive(Receive),
    /// `t.timeout`
    Timeout(Name),
    /// `c.done`
    Done(ComponentRef),
    /// `all component.done`
    AllDone,
}

impl Drop for Event {
    fn drop(self) {
        match self {
            Event::Receive(_receive) => {}
            Event::Timeout(_timer) => {}
            Event::Done(_component) => {}
            Event::AllDone => {}
        }
    }
}

/// A receive: the message's template and sender, and where message and sender go.
#[derive(PartialEq, Eq)]
pub struct Receive {
    pub port: PortSelector,
    pub message: Option<MessageTemplate>,
    pub from: Option<ComponentRef>,
    pub value: Option<Reference>,
    pub sender: Option<Reference>,
}

impl Drop for Receive {
    fn drop(self) {
        let Receive {
            port: _port,
            message: _message,
            from: _from,
            value: _value,
            sender: _sender,
        } = self;
    }
}

#[derive(PartialEq, Eq)]
pub enum PortSelector {
    Named(Name),
    /// `any port`
    Any,
}

impl Drop for PortSelector {
    fn drop(self) {
        match self {
            PortSelector::Named(_name) => {}
            PortSelector::Any => {}
        }
    }
}

#[derive(PartialEq, Eq)]
pub struct Send {
    pub port: Name,
    pub message: MessageTemplate,
    pub to: Option<ComponentRef>,
}

impl Drop for Send {
    fn drop(self) {
        let Send {
            port: _port,
            message: _message,
            to: _to,
        } = self;
    }
}

/// A component's port: `c:p`.
#[derive(PartialEq, Eq)]
pub struct PortRef {
    pub component: ComponentRef,
    pub port: Name,
}

impl Drop for PortRef {
    fn drop(self) {
        let PortRef {
            component: _component,
            port: _port,
        } = self;
    }
}

/// What is done to a mapping (sections 21.1.1 and 21.1.2).
#[derive(Clone, Copy, Debug, PartialEq, Eq, Hash)]
pub enum MapOperation {
    Map,
    Unmap,
}

/// A component's port and a port of the system, which are mapped or unmapped.
#[derive(PartialEq, Eq)]
pub struct Mapping {
    pub operation: MapOperation,
    pub port: PortRef,
    pub system_port: Name,
}

impl Drop for Mapping {
    fn drop(self) {
        let Mapping {
            operation: _operation,
            port: _port,
            system_port: _system_port,
        } = self;
    }
}

/// An argument of `log`, or a reason of a verdict.
#[derive(PartialEq, Eq)]
pub enum LogItem {
    Text,
    Expr(Expr),
}

impl Drop for LogItem {
    fn drop(self) {
        match self {
            LogItem::Text => {}
            LogItem::Expr(_expression) => {}
        }
    }
}

/// The verdicts, from the best to the worst.
#[derive(Clone, Copy, Debug, PartialEq, Eq, Hash)]
pub enum Verdict {
    None,
    Pass,
    Inconc,
    Fail,
    Error,
}
