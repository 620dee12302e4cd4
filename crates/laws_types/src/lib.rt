//! Laws of runs of modules that break no rule of the checker: each value is of the type that the checker gives its name, and no
//! step meets what no checked module has. They run no code.
#![tactic(auto)]

ghost use Rattle.std.specs.Prelude.{◌≡◌, ℕ, List, ◌∷◌, true, Some, Ok, IfSome, is_some};
ghost use Rattle.ttcn_syntax.specs.declared.tree.definition.Definition.{Definition};
ghost use Rattle.check_scope.specs.Names.{Entry, kind_at};
ghost use Rattle.laws_checker.specs.Laws.{IsWhole};
ghost use Rattle.laws_evaluation.specs.Types.{FitsIn, HasAll};
ghost use Rattle.laws_evaluation.specs.Uses.{GivesOnly};
ghost use Rattle.laws_references.specs.There.{StandsWithAllReferred};
ghost use Rattle.laws_sites.specs.Standing.{IsFineSite, StandsByRules};
ghost use Rattle.laws_statements.specs.Within.{IsWithin};
ghost use Rattle.laws_order.specs.Order.{StandsInOrder};
ghost use Rattle.semantics.specs.Configurations.{Component, Configuration, Data, Frame, Goes, Going, component_at};
ghost use Rattle.semantics.specs.Creating.{new_members};
ghost use Rattle.semantics.specs.Runs.{graph_of, replay, start, started, testcase_body};
ghost use Rattle.semantics.specs.Sites.{Site, scope_at};
ghost use Rattle.semantics.specs.Snapshots.{Snapshot, Test, View, members_in, reading_in};
ghost use Rattle.semantics.specs.Statements.{act};
ghost use Rattle.semantics.specs.Steps.{Label, apply, next, step};
ghost use Rattle.step_script.specs.Fitting.{FitsScript};
ghost use Rattle.summary.specs.Run.{Run, end_of};
ghost use Rattle.check_rules.specs.Rules.{AreWellTyped};
ghost use Rattle.value_types.specs.Outcomes.{or_unmet, outcome_and_then};
ghost use Rattle.value_types.specs.declared.path.Path.{Path};
ghost use Rattle.value_types.specs.declared.value.ComponentId.{ComponentId};
ghost use Rattle.laws_repeat.specs.Marks.{StandsMarked};
ghost use Rattle.laws_types.specs.Steps.{Sees};
ghost use Rattle.laws_types.specs.Fitting.{DeclaresLocals, FitsMembers, FitsSite, RunsOn, scope_seen, view_of};
ghost use Rattle.laws_repeat.specs.Following.{IsOutside};
ghost use Rattle.laws_types.specs.Runs.{StaysWellTyped};
ghost use Rattle.laws_types.specs.Typed.{AreDeclared, FitsTypes, site_of};

/// What is read at a site fits the scope there, and has all that the scope knows, where what is seen of the frame and of the
/// component's members does. The scope has the timers, too, that are there from blocks that ended; what breaks no rule at the
/// site breaks none in it.
pub fn readings_fit_their_sites()
    ensures types { (test : Test) (snapshot : Snapshot) (own : Data) (site : Site) (view : View) → AreWellTyped test.definitions → IsFineSite test.definitions site.behaviour site → DeclaresLocals site → RunsOn test.definitions site.behaviour snapshot.itself.component_type → FitsSite test.definitions site view → FitsMembers test.definitions snapshot.itself.component_type (members_in snapshot own) → FitsIn (scope_seen test.definitions site view) (reading_in test snapshot own site view) }
    ensures all { (test : Test) (snapshot : Snapshot) (own : Data) (site : Site) (view : View) → AreWellTyped test.definitions → IsFineSite test.definitions site.behaviour site → DeclaresLocals site → RunsOn test.definitions site.behaviour snapshot.itself.component_type → FitsSite test.definitions site view → FitsMembers test.definitions snapshot.itself.component_type (members_in snapshot own) → HasAll (scope_seen test.definitions site view) (reading_in test snapshot own site view) }
    ensures within { (definitions : List Definition) (site : Site) (view : View) → IsWithin (scope_at definitions site) (scope_seen definitions site view) }
    ensures whole { (definitions : List Definition) (site : Site) (view : View) → IsWhole (scope_at definitions site) → IsWhole (scope_seen definitions site view) }
{}

/// What is seen of a frame fits each site further out as well.
#[tactic(auto, using(crate::proofs::Declared::seen_outside))]
pub fn frames_fit_further_out()
    ensures { (definitions : List Definition) (at : ℕ) (outer inner : List Entry) (view : View) → AreWellTyped definitions → IsOutside outer inner → AreDeclared definitions at inner → FitsSite definitions (site_of at inner) view → FitsSite definitions (site_of at outer) view }
{}

/// The members of a new component are declared, or there is a dynamic error; and they fit its type: their values are of their
/// types, and it has its timers.
#[tactic(auto, using(crate::proofs::NewMembers::new_members_fit))]
pub fn new_members_fit_their_type()
    ensures { (test : Test) (itself : ComponentId) (snapshot : Snapshot) → AreWellTyped test.definitions → GivesOnly (new_members test itself snapshot) (λ frame. FitsMembers test.definitions itself.component_type (view_of frame)) }
{}

/// Runs of a test case start with all values of their types, or with a dynamic error in the MTC's members.
#[tactic(auto, using(crate::proofs::Starting::start_fits, crate::proofs::Running::first_fits))]
pub fn runs_start_with_their_types()
    ensures met { (test : Test) → AreWellTyped test.definitions → is_some (testcase_body (kind_at test.definitions test.testcase)) ≡ true → GivesOnly (outcome_and_then (started test) (or_unmet (testcase_body (kind_at test.definitions test.testcase)))) (FitsTypes test) }
    ensures start { (test : Test) → AreWellTyped test.definitions → is_some (testcase_body (kind_at test.definitions test.testcase)) ≡ true → FitsTypes test (start test) }
{}

/// A step meets nothing that no checked module has, and leaves all values of their types: that of each statement, by whatever
/// snapshot in which the component sees its own timers and fitting messages, each expiry, and each message that comes in by a
/// script that fits.
pub fn steps_keep_types()
    ensures asked { (test : Test) (snapshot : Snapshot) (c : Going) (p : Path) (x : Component) (frame : Frame) (below : List Frame) → AreWellTyped test.definitions → StandsByRules test (Goes c) → StandsInOrder (Goes c) → StandsWithAllReferred test (Goes c) → StandsMarked test (Goes c) → FitsTypes test (Goes c) → component_at c p ≡ Some x → x.own.calls ≡ frame ∷ below → snapshot.itself ≡ x.itself → Sees test.definitions snapshot x.own frame → IfSome (apply test c x.itself (act test snapshot x.own)) (λ out. GivesOnly out (FitsTypes test)) }
    ensures met { (test : Test) (c : Configuration) (label : Label) → AreWellTyped test.definitions → FitsScript test → StandsByRules test c → StandsInOrder c → StandsWithAllReferred test c → StandsMarked test c → FitsTypes test c → IfSome (step test c label) (λ out. GivesOnly out (FitsTypes test)) }
    ensures next { (test : Test) (c d : Configuration) (label : Label) → AreWellTyped test.definitions → FitsScript test → StandsByRules test c → StandsInOrder c → StandsWithAllReferred test c → StandsMarked test c → FitsTypes test c → next test c label ≡ Some d → FitsTypes test d }
{}

/// All values are of their types in each configuration that a run leads to, and the next step meets nothing that no checked
/// module has, where the script fits.
#[tactic(auto, using(crate::proofs::Running::replay_fits, crate::proofs::Running::replay_meets))]
pub fn runs_keep_types()
    ensures replayed { (test : Test) (run : List Label) (c : Configuration) → AreWellTyped test.definitions → is_some (testcase_body (kind_at test.definitions test.testcase)) ≡ true → FitsScript test → replay test run ≡ Ok c → FitsTypes test c }
    ensures met { (test : Test) (run : List Label) (c : Configuration) (label : Label) → AreWellTyped test.definitions → is_some (testcase_body (kind_at test.definitions test.testcase)) ≡ true → FitsScript test → replay test run ≡ Ok c → IfSome (step test c label) (λ out. GivesOnly out (FitsTypes test)) }
    ensures ends { (test : Test) (run : Run Label) → AreWellTyped test.definitions → is_some (testcase_body (kind_at test.definitions test.testcase)) ≡ true → FitsScript test → FitsTypes test (end_of (graph_of test) run) }
{}

/// Every run of a test case of a module that breaks no rule, with a script that fits, stays well typed.
pub fn runs_stay_well_typed()
    ensures { (test : Test) → AreWellTyped test.definitions → is_some (testcase_body (kind_at test.definitions test.testcase)) ≡ true → FitsScript test → StaysWellTyped test }
{}
