//! Declarations, events and other parts of statements, without blocks.
use crate::Exact;
use ttcn_syntax::{
    Assignment, Constant, Constants, Event, ForStart, LogItem, MapOperation, Mapping, PortRef,
    PortSelector, Receive, Send, Timer, Variable, Variables, Verdict,
};

impl Exact for Variable {
    ghost use Rattle.syntax_equality.specs.Parts.{variable_one};

    ghost exact = { variable_one };
}

impl Exact for Variables {
    ghost use Rattle.syntax_equality.specs.Parts.{variables_one};

    ghost exact = { variables_one };
}

impl Exact for Constant {
    ghost use Rattle.syntax_equality.specs.Parts.{constant_one};

    ghost exact = { constant_one };
}

impl Exact for Constants {
    ghost use Rattle.syntax_equality.specs.Parts.{constants_one};

    ghost exact = { constants_one };
}

impl Exact for Timer {
    ghost use Rattle.syntax_equality.specs.Parts.{timer_one};

    ghost exact = { timer_one };
}

impl Exact for Assignment {
    ghost use Rattle.syntax_equality.specs.Parts.{assignment_one};

    ghost exact = { assignment_one };
}

impl Exact for ForStart {
    ghost use Rattle.syntax_equality.specs.Parts.{start_one};

    ghost exact = { start_one };
}

impl Exact for PortRef {
    ghost use Rattle.syntax_equality.specs.Parts.{port_one};

    ghost exact = { port_one };
}

impl Exact for MapOperation {
    ghost use Rattle.syntax_equality.specs.Parts.{operation_one};

    ghost exact = { operation_one };
}

impl Exact for Mapping {
    ghost use Rattle.syntax_equality.specs.Parts.{mapping_one};

    ghost exact = { mapping_one };
}

impl Exact for PortSelector {
    ghost use Rattle.syntax_equality.specs.Parts.{selector_one};

    ghost exact = { selector_one };
}

impl Exact for Send {
    ghost use Rattle.syntax_equality.specs.Parts.{send_one};

    ghost exact = { send_one };
}

impl Exact for Receive {
    ghost use Rattle.syntax_equality.specs.Parts.{receive_one};

    ghost exact = { receive_one };
}

impl Exact for Event {
    ghost use Rattle.syntax_equality.specs.Parts.{event_one};

    ghost exact = { event_one };
}

impl Exact for LogItem {
    ghost use Rattle.syntax_equality.specs.Parts.{item_one};

    ghost exact = { item_one };
}

impl Exact for Verdict {
    ghost use Rattle.syntax_equality.specs.Parts.{verdict_one};

    ghost exact = { verdict_one };
}
