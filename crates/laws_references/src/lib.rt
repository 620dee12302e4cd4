//! Laws of references: a component that is referred to is there. They run no code.
#![tactic(auto)]

ghost use Rattle.std.specs.Prelude.{◌≡◌, ℕ, ℤ, List, [], ◌∷◌, Bool, flat_map, Option, All, IfSome, Ok, Some};
ghost use Rattle.ttcn_syntax.specs.declared.tree.definition.Parameter.{Parameter};
ghost use Rattle.ttcn_syntax.specs.declared.tree.expression.ComponentRef.{ComponentRef};
ghost use Rattle.ttcn_syntax.specs.declared.tree.expression.Expr.{Expr};
ghost use Rattle.ttcn_syntax.specs.declared.tree.expression.Reference.{Reference};
ghost use Rattle.ttcn_syntax.specs.declared.tree.template.Template as tree;
ghost use Rattle.ttcn_syntax.specs.declared.tree.value.Value as written;
ghost use Rattle.check_scope.specs.declared.types.DataType.{DataType};
ghost use Rattle.laws_references.specs.Acts.{ActRefersTo};
ghost use Rattle.laws_references.specs.References.{DataReferTo, EntriesReferTo, FactsReferTo, Passes, ReadingRefersTo, RefersTo, SnapshotRefersTo, TemplateRefersTo, references};
ghost use Rattle.laws_references.specs.There.{IsPortThere, IsThere, ScriptRefersToNone, StandsWithAllLeft, StandsWithAllReferred};
ghost use Rattle.laws_order.specs.Families.{StandsInFamily};
ghost use Rattle.semantics.specs.Canonical.{canonical_graph};
ghost use Rattle.semantics.specs.Configurations.{Component, Configuration, Data, End, Frame, Goes, Going, component_at, path_of};
ghost use Rattle.semantics.specs.LiveParts.{live_part};
ghost use Rattle.semantics.specs.Runs.{graph_of, option_elim, replay, start};
ghost use Rattle.semantics.specs.Sites.{Site};
ghost use Rattle.semantics.specs.Snapshots.{Snapshot, Test, View, mtc_of, reading_in, snapshot_of};
ghost use Rattle.semantics.specs.Statements.{Act, Requests, Starts, act};
ghost use Rattle.semantics.specs.Steps.{Label, apply, exchanged, expired, next, peers, settle, settled, start_component, touch};
ghost use Rattle.summary.specs.Run.{Run, end_of};
ghost use Rattle.value_types.specs.Chains.{within_chains};
ghost use Rattle.value_types.specs.Evaluation.{value_of};
ghost use Rattle.value_types.specs.Literals.{value_wanted};
ghost use Rattle.value_types.specs.Matching.{specific_value};
ghost use Rattle.value_types.specs.Outcomes.{IfYields, IsMet, Yields, outcome_and_then};
ghost use Rattle.value_types.specs.Readings as readings;
ghost use Rattle.value_types.specs.Readings.{Reading, component_referred, referred};
ghost use Rattle.value_types.specs.Templates.{arguments, template_wanted};
ghost use Rattle.value_types.specs.declared.path.Path.{Path};
ghost use Rattle.value_types.specs.declared.template.Template.{Template};
ghost use Rattle.value_types.specs.declared.value.ComponentId.{ComponentId};
ghost use Rattle.value_types.specs.declared.value.Value.{Value};
ghost use Rattle.value_types.specs.declared.value.Value.TheVariants as value;

/// A value refers to the component that it is a reference to, and a record to what the values of its fields refer to; any other
/// value refers to none.
pub fn values_refer_to_their_components()
    ensures component { (c : ComponentId) → references (value.Component c) ≡ c ∷ [] }
    ensures record { (at : ℕ) (fields : List (Option Value)) → references (value.Record at fields) ≡ flat_map (option_elim [] references) fields }
    ensures null { references value.Null ≡ [] }
    ensures omit { references value.Omit ≡ [] }
    ensures integer { (z : ℤ) → references (value.Integer z) ≡ [] }
    ensures boolean { (b : Bool) → references (value.Boolean b) ≡ [] }
    ensures enumerated { (at n : ℕ) → references (value.Enumerated at n) ≡ [] }
    ensures default { (n : ℕ) → references (value.Default n) ≡ [] }
{}

/// The value of an expression refers only to what is read, and so does that of what stands where a value is wanted.
pub fn values_refer_to_what_is_read()
    ensures expressions { (good : ComponentId → Bool) (reading : Reading) → ReadingRefersTo (Passes good) reading → (e : Expr) → IfYields (value_of e reading) (RefersTo (Passes good)) }
    ensures wanted { (good : ComponentId → Bool) (reading : Reading) → ReadingRefersTo (Passes good) reading → (v : written.Value) (wanted : Option DataType) → IfYields (value_wanted v reading wanted) (RefersTo (Passes good)) }
    ensures arguments { (good : ComponentId → Bool) (reading : Reading) → ReadingRefersTo (Passes good) reading → (parameters : List Parameter) (given : List written.Value) → IfYields (arguments reading parameters given) (All (RefersTo (Passes good))) }
{}

/// What a name with fields behind it stands for refers only to what is read, and so does what a component reference gives: a
/// component that it refers to is one of these.
pub fn references_refer_to_what_is_read()
    ensures names { (good : ComponentId → Bool) (reading : Reading) → ReadingRefersTo (Passes good) reading → (reference : Reference) → IfYields (referred reading reference) (RefersTo (Passes good)) }
    ensures values { (good : ComponentId → Bool) (reading : Reading) → ReadingRefersTo (Passes good) reading → (c : ComponentRef) → IfYields (readings.component_at reading c) (RefersTo (Passes good)) }
    ensures components { (good : ComponentId → Bool) (reading : Reading) → ReadingRefersTo (Passes good) reading → (c : ComponentRef) → IfYields (component_referred reading c) (Passes good) }
{}

/// What stands where a template is wanted refers only to what is read, and so does the value that is sent for it.
pub fn templates_refer_to_what_is_read()
    ensures templates { (good : ComponentId → Bool) (reading : Reading) → ReadingRefersTo (Passes good) reading → (t : tree.Template) (wanted : Option DataType) → IfYields (template_wanted t reading wanted) (TemplateRefersTo (Passes good)) }
    ensures specific { (good : ComponentId → Bool) (t : Template) → TemplateRefersTo (Passes good) t → IfYields (specific_value t) (RefersTo (Passes good)) }
    ensures sent { (good : ComponentId → Bool) (reading : Reading) → ReadingRefersTo (Passes good) reading → (t : tree.Template) (wanted : Option DataType) → IfYields (outcome_and_then specific_value (template_wanted t reading wanted)) (RefersTo (Passes good)) }
{}

/// The constants and templates of a module add nothing that is referred to, however deep they refer to each other.
pub fn chains_refer_to_what_is_read()
    ensures { (good : ComponentId → Bool) (n : ℕ) (facts : Reading) → FactsReferTo (Passes good) facts → ReadingRefersTo (Passes good) (within_chains n facts) }
{}

/// What a component asks for in its step refers only to what it holds, to itself and the MTC, to what came first at its ports,
/// and to what it creates: the components at all paths in it are of these.
pub fn acts_refer_to_what_is_held()
    ensures { (good : ComponentId → Bool) (test : Test) (snapshot : Snapshot) (own : Data) → Passes good snapshot.itself → Passes good (mtc_of test) → SnapshotRefersTo (Passes good) snapshot → DataReferTo (Passes good) own → ActRefersTo (Passes good) (act test snapshot own) }
{}

/// A component that is there stays there, with its path and type, behind whatever is done, as long as the test case goes on.
/// So what an earlier snapshot refers to stays there.
pub fn components_stay()
    ensures asked { (test : Test) (c d : Going) (itself : ComponentId) (asked : Act) → apply test c itself asked ≡ Some (Yields (Goes d)) → (id : ComponentId) → IsThere c id → IsThere d id }
    ensures next { (test : Test) (c d : Going) (label : Label) → next test (Goes c) label ≡ Some (Goes d) → (id : ComponentId) → IsThere c id → IsThere d id }
    ensures snapshots { (test : Test) (c d : Going) (label : Label) (snapshot : Snapshot) → next test (Goes c) label ≡ Some (Goes d) → SnapshotRefersTo (IsThere c) snapshot → SnapshotRefersTo (IsThere d) snapshot }
{}

/// Runs start with all that is referred to.
pub fn runs_start_with_all_that_is_referred_to()
    ensures { (test : Test) → StandsWithAllReferred test (start test) }
{}

/// Each step leaves all there that is referred to: what a component asks for, by a snapshot of its own that may be an earlier
/// one, the expiry of a timer, and so each label, where messages that come in refer to no component.
pub fn steps_leave_all_that_is_referred_to()
    ensures snapshot { (test : Test) (c : Going) (p : Path) (x : Component) → StandsWithAllReferred test (Goes c) → component_at c p ≡ Some x → SnapshotRefersTo (IsThere c) (snapshot_of c x) }
    ensures asked { (test : Test) (snapshot : Snapshot) (c : Going) (p : Path) (x : Component) → StandsInFamily (Goes c) → StandsWithAllReferred test (Goes c) → component_at c p ≡ Some x → snapshot.itself ≡ x.itself → SnapshotRefersTo (IsThere c) snapshot → IfSome (apply test c x.itself (act test snapshot x.own)) (λ out. StandsWithAllReferred test (settled out)) }
    ensures expiry { (test : Test) (c : Going) (p : Path) (x : Component) (number : ℕ) (name : List ℕ) (own : Data) → StandsWithAllReferred test (Goes c) → component_at c p ≡ Some x → expired number name x.own ≡ Some own → StandsWithAllReferred test (Goes (touch c (path_of x) (exchanged own))) }
    ensures next { (test : Test) (c d : Configuration) (label : Label) → ScriptRefersToNone test → StandsInFamily c → StandsWithAllReferred test c → next test c label ≡ Some d → StandsWithAllReferred test d }
{}

/// In each configuration that a run leads to all is there that is referred to, where the messages of the script refer to no
/// component.
pub fn runs_leave_all_that_is_referred_to()
    ensures replayed { (test : Test) (run : List Label) (c : Configuration) → ScriptRefersToNone test → replay test run ≡ Ok c → StandsWithAllReferred test c }
    ensures ends { (test : Test) (run : Run Label) → ScriptRefersToNone test → StandsWithAllReferred test (end_of (graph_of test) run) }
{}

/// Of all that live parts refer to something is left: a component is there with its type, or it is terminated. So it is at the
/// ends of runs over live parts, where the messages of the script refer to no component.
pub fn live_parts_refer_to_what_is_left()
    ensures live { (test : Test) (c : Configuration) → StandsWithAllReferred test c → StandsWithAllLeft (live_part c) }
    ensures ends { (test : Test) (run : Run Label) → ScriptRefersToNone test → StandsWithAllLeft (end_of (canonical_graph test) run) }
{}

/// Where all is there that is referred to, evaluation refers only to what is there: all that is read at a site, the components
/// that references refer to, and what stands where a value is wanted.
pub fn evaluation_refers_to_what_is_there()
    ensures readings { (test : Test) (snapshot : Snapshot) (c : Going) (p : Path) (x : Component) (site : Site) (view : View) → StandsWithAllReferred test (Goes c) → component_at c p ≡ Some x → snapshot.itself ≡ x.itself → EntriesReferTo (IsThere c) view.values → ReadingRefersTo (IsThere c) (reading_in test snapshot x.own site view) }
    ensures components { (test : Test) (snapshot : Snapshot) (c : Going) (p : Path) (x : Component) (site : Site) (view : View) (reference : ComponentRef) → StandsWithAllReferred test (Goes c) → component_at c p ≡ Some x → snapshot.itself ≡ x.itself → EntriesReferTo (IsThere c) view.values → IfYields (component_referred (reading_in test snapshot x.own site view) reference) (IsThere c) }
    ensures values { (test : Test) (snapshot : Snapshot) (c : Going) (p : Path) (x : Component) (site : Site) (view : View) (v : written.Value) (wanted : Option DataType) → StandsWithAllReferred test (Goes c) → component_at c p ≡ Some x → snapshot.itself ≡ x.itself → EntriesReferTo (IsThere c) view.values → IfYields (value_wanted v (reading_in test snapshot x.own site view) wanted) (RefersTo (IsThere c)) }
{}

/// What a component asks for is found: all paths in it are those of components that are there, a `start` gets its component,
/// and the peers of a port are ports of components that are there.
pub fn what_is_asked_for_is_found()
    ensures asked { (test : Test) (snapshot : Snapshot) (c : Going) (p : Path) (x : Component) → StandsWithAllReferred test (Goes c) → component_at c p ≡ Some x → snapshot.itself ≡ x.itself → SnapshotRefersTo (IsThere c) snapshot → ActRefersTo (IsThere c) (act test snapshot x.own) }
    ensures starts { (test : Test) (snapshot : Snapshot) (c : Going) (p : Path) (x : Component) (path : Path) (frame : Frame) (own : Data) → StandsWithAllReferred test (Goes c) → component_at c p ≡ Some x → snapshot.itself ≡ x.itself → SnapshotRefersTo (IsThere c) snapshot → act test snapshot x.own ≡ Requests (Starts path frame) own → IsMet (start_component (settle c (path_of x) own) path frame) }
    ensures peers { (test : Test) (c : Going) (d : End) → StandsWithAllReferred test (Goes c) → All (IsPortThere c) (peers c d) }
{}
