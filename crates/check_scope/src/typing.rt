//! What fits what (ES 201 873-1, 6 and 7.1).
ghost use Rattle.std.specs.Prelude.{◌≡◌};
ghost use Rattle.check_scope.specs.Typings.{any_target, comparable, compares, fits, goes_to, has_equality, is_component, is_default, is_of, operands_of, refers_to_component, result_of, same_type, target_of, type_known, typed};

use crate::types::{DataType, Target, Typing};
use ttcn_syntax::Operator;

impl DataType {
    pub fn is_component(self) -> bool
        ensures { result ≡ is_component self }
    {
        matches!(self, DataType::Component(_))
    }

    pub fn is_default(self) -> bool
        ensures { result ≡ is_default self }
    {
        matches!(self, DataType::Default)
    }

    pub fn is_same(self, other: DataType) -> bool
        ensures { result ≡ same_type self other }
    {
        match (self, other) {
            (DataType::Integer, DataType::Integer)
            | (DataType::Boolean, DataType::Boolean)
            | (DataType::Default, DataType::Default) => true,
            (DataType::Record(at), DataType::Record(other))
            | (DataType::Enumerated(at), DataType::Enumerated(other))
            | (DataType::Component(at), DataType::Component(other)) => at == other,
            _ => false,
        }
    }
}

impl Typing {
    /// The typing of something of this type, if it is known.
    pub fn of(data_type: Option<DataType>) -> Typing
        ensures { result ≡ typed data_type }
    {
        match data_type {
            Some(data_type) => Typing::Known(data_type),
            None => Typing::Unknown,
        }
    }

    /// Whether it is a reference to a component. It isn't judged where nothing is known.
    pub fn refers_to_component(self) -> bool
        ensures { result ≡ refers_to_component self }
    {
        match self {
            Typing::Known(data_type) => data_type.is_component(),
            Typing::AnyComponent | Typing::Unknown => true,
            Typing::Null | Typing::NoValue => false,
        }
    }

    /// Whether it may go to a target of the type. It isn't judged where nothing is known.
    fn goes_to(self, target: DataType) -> bool
        ensures { result ≡ goes_to target self }
    {
        match self {
            Typing::Known(data_type) => target.is_same(data_type),
            Typing::Null => target.is_component() || target.is_default(),
            Typing::AnyComponent => target.is_component(),
            Typing::NoValue => false,
            Typing::Unknown => true,
        }
    }

    /// Whether it may go to a target whose type may be unknown: then it isn't judged.
    pub fn fits(self, target: Option<DataType>) -> bool
        ensures { result ≡ fits target self }
    {
        match target {
            Some(target) => self.goes_to(target),
            None => true,
        }
    }

    /// Whether it is of the type. It isn't judged where nothing is known.
    pub fn is_of(self, wanted: DataType) -> bool
        ensures { result ≡ is_of wanted self }
    {
        match self {
            Typing::Known(data_type) => wanted.is_same(data_type),
            Typing::Null | Typing::AnyComponent | Typing::NoValue => false,
            Typing::Unknown => true,
        }
    }

    /// Whether something of it may stand beside `==` and `!=`: no port, timer or default may.
    fn has_equality(self) -> bool
        ensures { result ≡ has_equality self }
    {
        match self {
            Typing::Known(known) => !known.is_default(),
            Typing::NoValue => false,
            Typing::Null | Typing::AnyComponent | Typing::Unknown => true,
        }
    }

    /// Whether `==` may stand between the two. It isn't judged where nothing is known of one.
    pub fn is_comparable(self, other: Typing) -> bool
        ensures { result ≡ comparable self other }
    {
        match (self, other) {
            (Typing::Unknown, typing) | (typing, Typing::Unknown) => typing.has_equality(),
            (Typing::Known(one), Typing::Known(other)) => {
                if one.is_component() {
                    other.is_component()
                } else {
                    one.is_same(other) && !one.is_default()
                }
            }
            (Typing::Known(known), Typing::Null | Typing::AnyComponent)
            | (Typing::Null | Typing::AnyComponent, Typing::Known(known)) => known.is_component(),
            (_, Typing::NoValue) | (Typing::NoValue, _) => false,
            (Typing::Null | Typing::AnyComponent, Typing::Null | Typing::AnyComponent) => true,
        }
    }

    /// The type that it names, where it names one.
    pub fn known(self) -> Option<DataType>
        ensures { result ≡ type_known self }
    {
        match self {
            Typing::Known(data_type) => Some(data_type),
            _ => None,
        }
    }
}

impl Target {
    /// A target of the type, which has a value.
    pub const fn of(data_type: Option<DataType>) -> Target
        ensures { result ≡ target_of data_type }
    {
        Target {
            data_type,
            optional: false,
        }
    }

    /// A target of which nothing is known.
    pub const fn any() -> Target
        ensures { result ≡ any_target }
    {
        Target {
            data_type: None,
            optional: true,
        }
    }
}

/// What an operator gives.
pub fn result_of(operator: Operator) -> DataType
    ensures { result ≡ result_of operator }
{
    match operator {
        Operator::Add
        | Operator::Subtract
        | Operator::Multiply
        | Operator::Divide
        | Operator::Mod
        | Operator::Rem => DataType::Integer,
        _ => DataType::Boolean,
    }
}

/// Whether the operator is `==` or `!=`.
pub fn compares(operator: Operator) -> bool
    ensures { result ≡ compares operator }
{
    matches!(operator, Operator::Equal | Operator::NotEqual)
}

/// The type of the operands of the other operators.
pub fn operands_of(operator: Operator) -> DataType
    ensures { result ≡ operands_of operator }
{
    match operator {
        Operator::Or | Operator::Xor | Operator::And => DataType::Boolean,
        _ => DataType::Integer,
    }
}
