//! Frames, which the texts of rows are put into.
ghost use Rattle.std.specs.Prelude.{◌≡◌, ◌++◌, IfOk, string_bytes};

use std::alloc::AllocError;

/// What a gap looks like in a file.
pub(crate) const GAP: &str = "<<row>>";

/// What stands before and behind the gap of a frame, with repeats written out.
#[derive(Drop)]
pub struct Frame {
    pub before: String,
    pub behind: String,
}

impl Frame {
    /// The frame with a text in its gap.
    pub fn around(&self, text: &str) -> Result<String, AllocError>
        ensures { IfOk result (λ whole. string_bytes whole ≡ string_bytes self.now.before ++ (text.now ++ string_bytes self.now.behind)) }
    {
        let mut whole = self.before.clone()?;
        whole.push_str(text)?;
        whole.push_str(self.behind.as_str())?;
        Ok(whole)
    }
}
