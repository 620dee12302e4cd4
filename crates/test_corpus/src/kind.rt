//! The kinds of lines.
ghost use Rattle.std.specs.Prelude.{◌≡◌};
ghost use Rattle.test_corpus.specs.Rows.{is_title};

/// What a line of a file is, by how it begins. In the middle of a row's text it is text whatever it looks like, unless it
/// is a title or an answer.
#[derive(Clone, Copy, PartialEq, Eq)]
pub(crate) enum Kind {
    Blank,
    /// `# ..`
    Comment,
    /// `-- frame`
    Frame,
    /// `-- key value`
    Setting,
    /// `== ..`
    Title,
    /// `>> ..`, or `>>` alone
    Answer,
    Text,
}

impl Kind {
    /// The kind of a line.
    pub(crate) fn of(line: &str) -> Kind {
        if is_title(line) {
            Kind::Title
        } else if line.is_empty() {
            Kind::Blank
        } else if line == ">>" || line.starts_with(">> ") {
            Kind::Answer
        } else if line.starts_with('#') {
            Kind::Comment
        } else if line == "-- frame" {
            Kind::Frame
        } else if line.starts_with("-- ") {
            Kind::Setting
        } else {
            Kind::Text
        }
    }
}

/// Whether a line begins a row.
pub(crate) fn is_title(line: &str) -> bool
    ensures { result ≡ is_title line.now }
{
    line.starts_with("== ")
}
