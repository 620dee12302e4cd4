//! When an answer is the one that is wanted.
ghost use Rattle.std.specs.Prelude.{◌↔◌, IsTrue};
ghost use Rattle.test_corpus.specs.Answer.{IsWanted};

/// Whether an answer is the one that is wanted: it is equal to what is wanted, or to that with a place behind it, as
/// `P1 Unexpected at 3:26` where `P1 Unexpected` is wanted.
pub fn is_wanted(answer: &str, wanted: &str) -> bool
    ensures { IsTrue result ↔ IsWanted answer.now wanted.now }
{
    match answer.strip_prefix(wanted) {
        Some(rest) => rest.is_empty() || rest.starts_with(" at "),
        None => false,
    }
}
