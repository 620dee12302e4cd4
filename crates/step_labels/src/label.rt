//! Labels of steps.
ghost use Rattle.std.specs.Prelude.{◌≡◌, Some, IfOk, refl};
ghost use Rattle.std.specs.Cmp.{eq_by_cmp_equiv, partial_equiv_from_equiv};
ghost use Rattle.std.specs.Ordering.{eq_by_cmp};
ghost use Rattle.step_labels.specs.Labels.{label_cmp, label_partial, label_total};

use std::alloc::{AllocError, Global};
use std::cmp::Ordering;
use ttcn_syntax::Name;
use value_types::Path;

/// What a step is of. Labels are ordered by the component, then the statement before expiries, then by the frame, then by the
/// timer's name. Deliveries come last, by the name of the system port.
#[derive(Debug, Drop)]
pub enum Label {
    /// The first remaining statement of the component with this path.
    Statement(Path),
    /// The expiry of a timer of a component's frame of this number. Frame 0 is the component's own.
    Expiry {
        component: Path,
        frame: u32,
        timer: Name,
    },
    /// The next message of the system port of this name comes in.
    Delivery(Name),
}

impl Label {
    /// A copy in memory of its own.
    pub fn try_clone(&self, alloc: Global) -> Result<Label, AllocError>
        ensures { IfOk result (λ copy. copy ≡ self.now) }
    {
        match self {
            Label::Statement(component) => Ok(Label::Statement(component.try_clone(alloc)?)),
            Label::Expiry {
                component,
                frame,
                timer,
            } => Ok(Label::Expiry {
                component: component.try_clone(alloc)?,
                frame: *frame,
                timer: timer.try_clone(alloc)?,
            }),
            Label::Delivery(system_port) => Ok(Label::Delivery(system_port.try_clone(alloc)?)),
        }
    }
}

impl PartialEq for Label {
    ghost eq = { eq_by_cmp label_cmp };

    ghost laws = { partial_equiv_from_equiv (eq_by_cmp_equiv label_total) };

    fn eq(&self, other: &Label) -> bool {
        self.cmp(other).is_eq()
    }
}

impl Eq for Label {
    ghost laws = { eq_by_cmp_equiv label_total };
}

impl PartialOrd for Label {
    ghost partial_cmp = { λ k l. Some (label_cmp k l) };

    ghost laws = { label_partial };

    fn partial_cmp(&self, other: &Label) -> Option<Ordering> {
        Some(self.cmp(other))
    }
}

impl Ord for Label {
    ghost cmp = { label_cmp };

    ghost total = { label_total };

    ghost matches_partial_cmp = { λ k l. refl };

    ghost matches_eq = { λ k l. refl };

    fn cmp(&self, other: &Label) -> Ordering {
        match (self, other) {
            (Label::Statement(one), Label::Statement(other)) => one.numbers.cmp(&other.numbers),
            (Label::Statement(one), Label::Expiry { component, .. }) => {
                one.numbers.cmp(&component.numbers).then(Ordering::Less)
            }
            (Label::Expiry { component, .. }, Label::Statement(other)) => {
                component
                    .numbers
                    .cmp(&other.numbers)
                    .then(Ordering::Greater)
            }
            (
                Label::Expiry {
                    component,
                    frame,
                    timer,
                },
                Label::Expiry {
                    component: other,
                    frame: other_frame,
                    timer: other_timer,
                },
            ) => component
                .numbers
                .cmp(&other.numbers)
                .then_with(|| frame.cmp(other_frame))
                .then_with(|| timer.cmp(other_timer)),
            (Label::Delivery(one), Label::Delivery(other)) => one.cmp(other),
            (Label::Delivery(_), _) => Ordering::Greater,
            (_, Label::Delivery(_)) => Ordering::Less,
        }
    }
}
