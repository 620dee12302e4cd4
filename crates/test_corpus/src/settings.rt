//! Settings of rows.

/// The settings of a row: its own, and those at the head of its file. Each is a line `-- key value`.
#[derive(Clone, Copy)]
pub struct Settings<'a> {
    pub(crate) file: &'a [&'a str],
    pub(crate) row: &'a [&'a str],
}

impl<'a> Settings<'a> {
    /// What a key is set to. The row's setting counts before the file's, and of several lines the first one.
    pub fn get(&self, key: &str) -> Option<&'a str> {
        match value_of(self.row, key) {
            Some(value) => Some(value),
            None => value_of(self.file, key),
        }
    }
}

/// The key and the value of a line.
pub(crate) fn setting<'a>(line: &'a str) -> (&'a str, &'a str) {
    let words = line.strip_prefix("-- ").unwrap_or(line);
    words.split_once(' ').unwrap_or((words, ""))
}

/// The value of the first of the lines that sets the key.
fn value_of<'a>(lines: &'a [&'a str], key: &str) -> Option<&'a str> {
    for line in lines {
        let (name, value) = setting(line);
        if name == key {
            return Some(value);
        }
    }
    None
}
