//! What a component does by itself: a step that changes one component alone is the same wherever the component sees the same.
//! Laws, which run no code.
#![tactic(auto)]

ghost use Rattle.std.specs.Prelude.{◌≡◌, ◌≤◌, ℕ, Some, map, slice_get, true, []};
ghost use Rattle.std.specs.List.{filter};
ghost use Rattle.std.specs.Option.{option_map};
ghost use Rattle.laws_local.specs.Alone.{EndsAlone, IsLive, IsOf, IsReceiver, LinkAlike, LookAlike, SeeAlike, SendsAlone, StepsAlone, change_alone, ends_itself, has_labels, how_many, is_of_path, joined_with, outside_of, removed_at, steps_alone, with_component_at};
ghost use Rattle.semantics.specs.Configurations.{Component, End, Goes, Going, path_of};
ghost use Rattle.semantics.specs.Labels.{labels, labels_of_component};
ghost use Rattle.semantics.specs.LiveParts.{husk, live_part};
ghost use Rattle.semantics.specs.Places.{branch_of_component, place_of};
ghost use Rattle.semantics.specs.Snapshots.{Test};
ghost use Rattle.semantics.specs.Steps.{Label, next};
ghost use Rattle.semantics.specs.Telling.{Reaches, Sent, sent_of, sent_of_component};

/// Of other components a component sees nothing but their names and states. Where it sees the same, has the same, and the
/// same messages come first at its ports, the same labels are enabled, and their steps take the same branches and change the
/// same.
#[tactic(auto, using(crate::proofs::Seeing::labels_alike, crate::proofs::Seeing::branches_alike, crate::proofs::Seeing::changes_alike, crate::proofs::Seeing::removed_alike))]
pub fn components_do_what_they_see()
    ensures labels { (test : Test) (c d : Going) (x y : Component) → LookAlike c d → SeeAlike x y → labels_of_component test c x ≡ labels_of_component test d y }
    ensures branches { (test : Test) (c d : Going) (x y : Component) → LookAlike c d → SeeAlike x y → branch_of_component test c x ≡ branch_of_component test d y }
    ensures changes { (test : Test) (c d : Going) (x y : Component) (label : Label) → LookAlike c d → SeeAlike x y → change_alone test c x label ≡ change_alone test d y label }
    ensures removed { (test : Test) (c d : Going) (x y : Component) (label : Label) → LookAlike c d → SeeAlike x y → removed_at test c x label ≡ removed_at test d y label }
{}

/// A step that changes one component alone makes the same of the component wherever it sees the same.
#[tactic(auto, using(crate::proofs::Stepping::step_alone))]
pub fn steps_alone_are_the_same()
    ensures { (test : Test) (c : Going) (x : Component) (at : ℕ) (label : Label) (e : Going) (z : Component) → IsLive c → slice_get c.components at ≡ Some x → IsOf x label → steps_alone test c x label ≡ true
        → option_map live_part (next test (Goes c) label) ≡ Some (Goes e) → slice_get e.components at ≡ Some z → StepsAlone test c x label z.own z.verdict (removed_at test c x label) }
{}

/// The labels of a component are those of its path among all. Where a component has labels, there are some. Where two have, some
/// are left whatever one of them becomes, as long as its name and its state stay. Where three have, some are left whatever two
/// of them become.
#[tactic(auto, using(crate::proofs::Grouping::labels_by_path, crate::proofs::Grouping::labels_some, crate::proofs::Grouping::labels_left, crate::proofs::Grouping::labels_left_by_two))]
pub fn labels_are_of_components()
    ensures by_path { (test : Test) (c : Going) (y : Component) (at : ℕ) → IsLive c → slice_get c.components at ≡ Some y → filter (is_of_path (path_of y)) (labels test (Goes c)) ≡ labels_of_component test c y }
    ensures some { (test : Test) (c : Going) (at : ℕ) (x : Component) → slice_get c.components at ≡ Some x → has_labels test c x ≡ true → ¬ (labels test (Goes c) ≡ []) }
    ensures left { (test : Test) (c : Going) (at : ℕ) (x z : Component) → slice_get c.components at ≡ Some x → outside_of z ≡ outside_of x → 2 ≤ how_many (has_labels test c) c.components
        → ¬ (labels test (Goes (with_component_at at z c)) ≡ []) }
    ensures left_by_two { (test : Test) (c : Going) (at to : ℕ) (x z w u : Component) → slice_get c.components at ≡ Some x → outside_of z ≡ outside_of x
        → slice_get (with_component_at at z c).components to ≡ Some w → outside_of u ≡ outside_of w → 3 ≤ how_many (has_labels test c) c.components
        → ¬ (labels test (Goes (with_component_at to u (with_component_at at z c))) ≡ []) }
{}

/// Where a component sees the same and has the same, its step begins with the same statement, and sends the same message to the
/// same place where ports are linked alike.
#[tactic(auto, using(crate::proofs::Telling::places_alike, crate::proofs::Telling::sent_alike))]
pub fn steps_are_told_alike()
    ensures places { (x y : Component) → SeeAlike x y → place_of x ≡ place_of y }
    ensures sent { (test : Test) (c d : Going) (x y : Component) → LookAlike c d → LinkAlike c d → SeeAlike x y → sent_of_component test c x ≡ sent_of_component test d y }
{}

/// A step that sends a message to another component makes the same of the sender, and sends the same message to the same port,
/// wherever the sender sees the same and ports are linked alike.
#[tactic(auto, using(crate::proofs::Sending::send_alone))]
pub fn messages_are_sent_alike()
    ensures { (test : Test) (c : Going) (x : Component) (at : ℕ) (label : Label) (sent : Sent) (to : ℕ) (w : Component) (e : End) (behind : Going) (z : Component) → IsLive c → slice_get c.components at ≡ Some x → IsOf x label
        → sent_of test (Goes c) label ≡ Some sent → sent.way ≡ Reaches e → IsReceiver c x to w e → option_map live_part (next test (Goes c) label) ≡ Some (Goes behind) → slice_get behind.components at ≡ Some z
        → SendsAlone test c x label z.own z.verdict to e.port (record { value = sent.value; sender = Some x.itself }) }
{}

/// Where a component's behaviour ends, and it isn't the main one, the step leaves a husk of that component, and leads to the same
/// connections, mappings, deliveries and forgotten verdict, wherever the component sees the same and these are the same. The
/// other components stay.
#[tactic(auto, using(crate::proofs::Ending::end_alone, crate::proofs::Ending::end_itself))]
pub fn endings_are_the_same()
    ensures same { (test : Test) (c : Going) (x : Component) (at : ℕ) (label : Label) (e : Going) → IsLive c → slice_get c.components at ≡ Some x → IsOf x label → ends_itself test c x label ≡ true
        → option_map live_part (next test (Goes c) label) ≡ Some (Goes e) → EndsAlone test c x label at e }
    ensures itself { (test : Test) (c : Going) (x : Component) (at : ℕ) (label : Label) (e : Going) → IsLive c → slice_get c.components at ≡ Some x → IsOf x label → ends_itself test c x label ≡ true
        → option_map live_part (next test (Goes c) label) ≡ Some (Goes e) → e ≡ joined_with at (husk (path_of x)) e c }
{}
