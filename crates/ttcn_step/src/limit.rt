//! How many frames components have.
ghost use Rattle.std.specs.Prelude.{◌≡◌, Some};
ghost use Rattle.semantics.specs.Configurations.{Configuration};
ghost use Rattle.semantics.specs.Runs.{start};
ghost use Rattle.semantics.specs.Snapshots.{Test};
ghost use Rattle.semantics.specs.Steps.{Label, next};
ghost use Rattle.ttcn_step.specs.FrameLimit.{AllKeepFrameLimit};

/// No component ever has more frames than the limit: none has at the start, and no step changes that.
#[tactic(auto, using(crate::proofs::FramesKept::limit_at_start, crate::proofs::FramesKept::limit_behind))]
pub fn frames_keep_the_limit()
    ensures start { (test : Test) → AllKeepFrameLimit (start test) }
    ensures next { (test : Test) (c d : Configuration) (label : Label) → AllKeepFrameLimit c → next test c label ≡ Some d → AllKeepFrameLimit d }
{}
