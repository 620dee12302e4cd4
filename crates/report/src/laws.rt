//! What run files can read as.
ghost use Rattle.report.specs.Labels.{fine_text, label_text};
ghost use Rattle.report.specs.Runs.{IsFirstBad, IsFirstBadFine, IsProper, IsProperFine, ReadsAs, ReadsFineRun, ReadsFinelyAs, ReadsRun};
ghost use Rattle.std.specs.Prelude.{◌≡◌, ℕ, List};
ghost use Rattle.step_labels.specs.declared.fine.FineLabel.{FineLabel};
ghost use Rattle.step_labels.specs.declared.label.Label.{Label};

/// A line that is a label's text reads as the label.
pub fn texts_read_back()
    ensures { (label : Label) → IsProper label → ReadsAs (label_text label) label }
{}

/// A line reads as at most one label.
pub fn lines_read_one_way()
    ensures { (line : List ℕ) (one other : Label) → ReadsAs line one → ReadsAs line other → one ≡ other }
{}

/// Lines read as at most one run, and not where one of them is bad. At most one is the first that is bad.
pub fn runs_read_one_way()
    ensures same { (lines : List (List ℕ)) (labels others : List Label) → ReadsRun lines labels → ReadsRun lines others → labels ≡ others }
    ensures apart { (lines : List (List ℕ)) (labels : List Label) (number : ℕ) → ReadsRun lines labels → ¬ IsFirstBad lines number }
    ensures first { (lines : List (List ℕ)) (number other : ℕ) → IsFirstBad lines number → IsFirstBad lines other → number ≡ other }
{}

/// A line that is the text of a label of a fine run reads as the label.
pub fn fine_texts_read_back()
    ensures { (label : FineLabel) → IsProperFine label → ReadsFinelyAs (fine_text label) label }
{}

/// A line reads as at most one label of a fine run.
pub fn fine_lines_read_one_way()
    ensures { (line : List ℕ) (one other : FineLabel) → ReadsFinelyAs line one → ReadsFinelyAs line other → one ≡ other }
{}

/// Lines read as at most one fine run, and not where one of them is bad. At most one is the first that is bad.
pub fn fine_runs_read_one_way()
    ensures same { (lines : List (List ℕ)) (labels others : List FineLabel) → ReadsFineRun lines labels → ReadsFineRun lines others → labels ≡ others }
    ensures apart { (lines : List (List ℕ)) (labels : List FineLabel) (number : ℕ) → ReadsFineRun lines labels → ¬ IsFirstBadFine lines number }
    ensures first { (lines : List (List ℕ)) (number other : ℕ) → IsFirstBadFine lines number → IsFirstBadFine lines other → number ≡ other }
{}
