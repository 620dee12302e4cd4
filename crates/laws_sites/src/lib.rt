//! Laws of runs of modules that break no rule of the checker: what remains to be done breaks no rule where it stands. They run no code.
#![tactic(auto)]

ghost use Rattle.std.specs.Prelude.{◌≡◌, ℕ, List, ◌∷◌, None, Some, Ok, All, AllPairs, IfSome, bytes_eq, false, find, true};
ghost use Rattle.ttcn_syntax.specs.declared.tree.definition.Definition.{Definition};
ghost use Rattle.ttcn_syntax.specs.declared.tree.statement.Statement.{Statement};
ghost use Rattle.check_scope.specs.Scopes.{outer_names};
ghost use Rattle.laws_sites.specs.Awaiting.{AwaitsTimeout};
ghost use Rattle.laws_sites.specs.Standing.{IsFineItem, IsFree, PlaceIn, StandsByRules, place_at};
ghost use Rattle.laws_statements.specs.Parts.{HasFineParts};
ghost use Rattle.semantics.specs.Configurations.{Component, Configuration, Data, Frame, Goes, Going, component_at, path_of};
ghost use Rattle.semantics.specs.Items.{Doing, Item, Part, Whole, action_of};
ghost use Rattle.semantics.specs.LiveParts.{live_part};
ghost use Rattle.semantics.specs.Runs.{graph_of, replay, start};
ghost use Rattle.semantics.specs.Sites.{Site, is_own, runs_on, scope_at};
ghost use Rattle.semantics.specs.Snapshots.{Snapshot, Test};
ghost use Rattle.semantics.specs.Statements.{act};
ghost use Rattle.semantics.specs.Steps.{Label, apply, exchanged, expired, next, settled, touch};
ghost use Rattle.summary.specs.Run.{Run, end_of};
ghost use Rattle.check_rules.specs.Rules.{AreWellTyped};
ghost use Rattle.value_types.specs.Frames.{entry};
ghost use Rattle.value_types.specs.declared.path.Path.{Path};

/// Runs start by the rules: what remains to be done breaks none where it stands.
#[tactic(auto, using(crate::proofs::Runs::start_stands))]
pub fn runs_start_by_the_rules()
    ensures { (test : Test) → AreWellTyped test.definitions → StandsByRules test (start test) }
{}

/// Each step keeps the rules: what a component asks for, by whatever snapshot, the expiry of a timer, and so each label.
#[tactic(auto, using(crate::proofs::Runs::apply_stands, crate::proofs::Runs::next_stands))]
pub fn steps_keep_the_rules()
    ensures asked { (test : Test) (snapshot : Snapshot) (c : Going) (p : Path) (x : Component) → AreWellTyped test.definitions → StandsByRules test (Goes c) → component_at c p ≡ Some x → IfSome (apply test c x.itself (act test snapshot x.own)) (λ out. StandsByRules test (settled out)) }
    ensures expiry { (test : Test) (c : Going) (p : Path) (x : Component) (number : ℕ) (name : List ℕ) (own : Data) → StandsByRules test (Goes c) → component_at c p ≡ Some x → expired number name x.own ≡ Some own → StandsByRules test (Goes (touch c (path_of x) (exchanged own))) }
    ensures next { (test : Test) (c d : Configuration) (label : Label) → AreWellTyped test.definitions → StandsByRules test c → next test c label ≡ Some d → StandsByRules test d }
{}

/// Each configuration that a run leads to stands by the rules, and the live part of each that stands by them does too.
#[tactic(auto, using(crate::proofs::Runs::replay_stands, crate::proofs::Runs::live_stands))]
pub fn runs_keep_the_rules()
    ensures replayed { (test : Test) (run : List Label) (c : Configuration) → AreWellTyped test.definitions → replay test run ≡ Ok c → StandsByRules test c }
    ensures ends { (test : Test) (run : Run Label) → AreWellTyped test.definitions → StandsByRules test (end_of (graph_of test) run) }
    ensures live { (test : Test) (c : Configuration) → StandsByRules test c → StandsByRules test (live_part c) }
{}

/// No two ports of a component have one name, so that each queue is the one that is found by its name.
pub fn ports_have_names_of_their_own()
    ensures names { (test : Test) (c : Going) (p : Path) (x : Component) → StandsByRules test (Goes c) → component_at c p ≡ Some x → AllPairs (λ q r. bytes_eq q.0 r.0 ≡ false) x.queues }
    ensures found { (test : Test) (c : Going) (p : Path) (x : Component) → StandsByRules test (Goes c) → component_at c p ≡ Some x → All (λ q. find (λ r. bytes_eq r.0 q.0) x.queues ≡ Some q) x.queues }
{}

/// What a component stands at is fine where it stands. Of a whole statement all parts are fine in their scopes.
pub fn first_items_are_fine()
    ensures item { (test : Test) (c : Going) (p : Path) (x : Component) (frame : Frame) (below : List Frame) (site : Site) (s : Statement) (part : Part) (rest : List Item) → StandsByRules test (Goes c) → component_at c p ≡ Some x → x.own.calls ≡ frame ∷ below → frame.remaining ≡ Doing site s part ∷ rest → IsFineItem test.definitions site.behaviour (Doing site s part) }
    ensures parts { (test : Test) (c : Going) (p : Path) (x : Component) (frame : Frame) (below : List Frame) (site : Site) (s : Statement) (rest : List Item) → StandsByRules test (Goes c) → component_at c p ≡ Some x → x.own.calls ≡ frame ∷ below → frame.remaining ≡ Doing site s Whole ∷ rest → (inside : PlaceIn test.definitions site.behaviour) × HasFineParts (place_at test.definitions site.behaviour (scope_at test.definitions site) inside) (action_of s) }
{}

/// A name that is the behaviour's own hides none of the module or of the component. Any other stands at a site for what it
/// stands for outside of the behaviour's blocks.
#[tactic(auto, using(crate::proofs::Firsts::own_free, crate::proofs::Firsts::outside_same))]
pub fn own_names_hide_none()
    ensures own { (test : Test) (c : Going) (p : Path) (x : Component) (frame : Frame) (below : List Frame) (site : Site) (s : Statement) (part : Part) (rest : List Item) (name : List ℕ) → AreWellTyped test.definitions → StandsByRules test (Goes c) → component_at c p ≡ Some x → x.own.calls ≡ frame ∷ below → frame.remaining ≡ Doing site s part ∷ rest → is_own test.definitions site name ≡ true → IsFree test.definitions site.behaviour name }
    ensures others { (definitions : List Definition) (site : Site) (name : List ℕ) → is_own definitions site name ≡ false → (scope_at definitions site).names name ≡ outer_names definitions (runs_on definitions site.behaviour) name }
{}

/// No timer of the last frame hides one of the component that is awaited: where a component stands at the timeout of a timer
/// that is not the frame's own, its last frame has no timer of that name.
#[tactic(auto, using(crate::proofs::Awaited::awaited_outside))]
pub fn awaited_timers_are_not_hidden()
    ensures { (test : Test) (c : Going) (p : Path) (x : Component) (frame : Frame) (below : List Frame) (site : Site) (s : Statement) (rest : List Item) (name : List ℕ) → StandsByRules test (Goes c) → component_at c p ≡ Some x → x.own.calls ≡ frame ∷ below → frame.remaining ≡ Doing site s Whole ∷ rest → AwaitsTimeout name (action_of s) → is_own test.definitions site name ≡ false → entry frame.timers name ≡ None }
{}
