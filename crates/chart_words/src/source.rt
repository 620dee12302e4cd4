//! What stands at a place of a module's text.
use std::alloc::{AllocError, Global};
use std::str;
use ttcn_step::Part;
use ttcn_syntax::Span;

/// More characters of a statement, or of a reason, are not shown.
const LONGEST: usize = 60;

/// More bytes of a statement are not read.
const SCANNED: usize = 1000;

/// A module's text, and where its lines begin.
#[derive(Drop)]
pub(crate) struct Source<'a> {
    text: &'a [u8],
    lines: Vec<usize>,
}

/// What a byte of a statement's text stands in.
#[derive(Clone, Copy, PartialEq, Eq)]
enum Within {
    Code,
    Text,
    /// A comment to the end of the line.
    Line,
    /// A comment, of which so many bytes were read.
    Comment(usize),
}

impl Within {
    /// What the byte stands in that is behind this one, with the bytes round this one.
    fn behind(self, before: u8, byte: u8, next: u8) -> Within {
        match (self, byte) {
            (Within::Code, b'/') if next == b'/' => Within::Line,
            (Within::Code, b'/') if next == b'*' => Within::Comment(1),
            (Within::Code, b'"') => Within::Text,
            (Within::Text, b'"') => Within::Code,
            (Within::Line, _) if next == b'\n' || next == b'\r' => Within::Code,
            (Within::Comment(read), b'/') if read > 2 && before == b'*' => Within::Code,
            (Within::Comment(read), _) => Within::Comment(read.saturating_add(1)),
            (within, _) => within,
        }
    }
}

/// Where a text is read: in what the next byte stands, the byte before it, and how many brackets are open.
#[derive(Clone, Copy)]
struct Reading {
    within: Within,
    before: u8,
    depth: usize,
}

const BEGINNING: Reading = Reading {
    within: Within::Code,
    before: b' ',
    depth: 0,
};

impl Reading {
    /// Reads a byte, with the one behind it. Gives whether it is one of code: the one that begins a comment isn't.
    fn read(&mut self, byte: u8, next: u8) -> bool {
        let was = self.within;
        self.within = was.behind(self.before, byte, next);
        self.before = byte;
        let is_code = was == Within::Code && matches!(self.within, Within::Code | Within::Text);
        if is_code {
            match byte {
                b'(' | b'[' | b'{' => self.depth = self.depth.saturating_add(1),
                b')' | b']' | b'}' => self.depth = self.depth.saturating_sub(1),
                _ => {}
            }
        }
        is_code
    }
}

/// The byte behind a place of a text, or the end of a line.
fn next_of(text: &[u8], at: usize) -> u8 {
    text.get(at.saturating_add(1)).copied().unwrap_or(b'\n')
}

/// How many bytes of a text the first block takes, with all that stands before it.
fn block_end(text: &[u8]) -> usize {
    let mut reading = BEGINNING;
    for (at, byte) in text.iter().enumerate() {
        let is_code = reading.read(*byte, next_of(text, at));
        if is_code && *byte == b'}' && reading.depth == 0 {
            return at.saturating_add(1);
        }
    }
    text.len()
}

/// How many bytes of a text are blanks and comments before its first word.
fn blank_length(text: &[u8]) -> usize {
    let mut reading = BEGINNING;
    for (at, byte) in text.iter().enumerate() {
        let is_code = reading.read(*byte, next_of(text, at));
        if is_code && !byte.is_ascii_whitespace() && *byte != b'\x0b' {
            return at;
        }
    }
    text.len()
}

/// How many bytes of a text stand before the word behind its first so many blocks.
fn blocks_length(text: &[u8], count: usize) -> usize {
    let mut begin: usize = 0;
    for _turn in 0..count {
        let rest = text.get(begin..).unwrap_or(&[]);
        begin = begin.saturating_add(block_end(rest));
    }
    let rest = text.get(begin..).unwrap_or(&[]);
    begin.saturating_add(blank_length(rest))
}

/// A statement's text on one line, without comments: what was read of it so far.
#[derive(Drop)]
struct Statement {
    bytes: Vec<u8>,
    reading: Reading,
}

impl Statement {
    /// The last byte that is no blank.
    fn last(&self) -> u8 {
        match self.bytes.iter().rposition(|byte| *byte != b' ') {
            Some(at) => self.bytes.as_slice().get(at).copied().unwrap_or(b' '),
            None => b' ',
        }
    }

    fn push(&mut self, byte: u8) -> Result<bool, AllocError> {
        self.bytes.push(byte)?;
        Ok(true)
    }

    /// A blank, where none stands before it.
    fn push_blank(&mut self) -> Result<bool, AllocError> {
        match self.bytes.last() {
            Some(b' ') | None => Ok(true),
            Some(_) => self.push(b' '),
        }
    }

    /// Takes a byte of code, before which so many brackets are open. Gives whether the statement goes on: it ends at a
    /// semicolon, at a brace that isn't that of a value, and at a line's end, where no bracket is open.
    fn take_code(&mut self, byte: u8, depth: usize) -> Result<bool, AllocError> {
        let is_outside = depth == 0;
        match byte {
            b'{' if is_outside && !matches!(self.last(), b'=' | b':') => Ok(false),
            b'}' | b';' if is_outside => Ok(false),
            b'\n' | b'\r' if is_outside && self.last() != b'=' => Ok(false),
            b'\n' | b'\r' | b' ' | b'\t' | b'\x0b' | b'\x0c' => self.push_blank(),
            _ => self.push(byte),
        }
    }

    /// Reads a byte, with the one behind it. Gives whether the statement goes on.
    fn read(&mut self, byte: u8, next: u8) -> Result<bool, AllocError> {
        let Reading { within, depth, .. } = self.reading;
        let is_code = self.reading.read(byte, next);
        match within {
            Within::Code if is_code => self.take_code(byte, depth),
            Within::Text => self.push(byte),
            Within::Code | Within::Line | Within::Comment(_) => Ok(true),
        }
    }

    /// Reads bytes up to the statement's end.
    fn read_all(&mut self, text: &[u8]) -> Result<(), AllocError> {
        for (at, byte) in text.iter().enumerate() {
            if !self.read(*byte, next_of(text, at))? {
                return Ok(());
            }
        }
        Ok(())
    }
}

/// A statement's text on one line, without comments.
fn statement_of(alloc: Global, text: &[u8]) -> Result<Vec<u8>, AllocError> {
    let mut statement = Statement {
        bytes: Vec::new(alloc),
        reading: BEGINNING,
    };
    statement.read_all(text.get(..SCANNED).unwrap_or(text))?;
    let Statement {
        bytes,
        reading: _reading,
    } = statement;
    Ok(bytes)
}

/// What stands behind the first comma between the first bracket and the one that closes it.
fn behind_comma(statement: &[u8]) -> &[u8] {
    let mut depth: usize = 0;
    let mut is_text = false;
    let mut begin = None;
    for (at, byte) in statement.iter().enumerate() {
        match *byte {
            b'"' => is_text = !is_text,
            _ if is_text => {}
            b'(' | b'[' | b'{' => depth = depth.saturating_add(1),
            b')' | b']' | b'}' if depth <= 1 => return between(statement, begin, at),
            b')' | b']' | b'}' => depth = depth.saturating_sub(1),
            b',' if depth == 1 && begin.is_none() => begin = Some(at.saturating_add(1)),
            _ => {}
        }
    }
    between(statement, begin, statement.len())
}

/// The bytes from one place to another, if there is a first one.
fn between(bytes: &[u8], begin: Option<usize>, end: usize) -> &[u8] {
    match begin {
        Some(begin) => bytes.get(begin..end).unwrap_or(&[]),
        None => &[],
    }
}

/// A text without the blanks at its ends.
fn without_blanks(text: &[u8]) -> &[u8] {
    let begin = text
        .iter()
        .position(|byte| *byte != b' ')
        .unwrap_or(text.len());
    let end = match text.iter().rposition(|byte| *byte != b' ') {
        Some(last) => last.saturating_add(1),
        None => begin,
    };
    text.get(begin..end).unwrap_or(&[])
}

/// The bytes of so many characters, where there are more.
fn first_characters(bytes: &[u8], most: usize) -> Option<&[u8]> {
    let mut count: usize = 0;
    for (at, byte) in bytes.iter().enumerate() {
        // the bytes of a character behind its first one are 0x80 to 0xBF
        if !matches!(*byte, 0x80..=0xBF) {
            if count == most {
                return bytes.get(..at);
            }
            count = count.saturating_add(1);
        }
    }
    None
}

/// Bytes as a text: a question mark for each that is no ASCII character, where they are no text.
fn decoded(alloc: Global, bytes: &[u8]) -> Result<String, AllocError> {
    if let Ok(text) = str::from_utf8(bytes) {
        return String::from_str(alloc, text);
    }
    let mut text = String::new(alloc);
    for byte in bytes {
        let is_ascii = byte.is_ascii();
        text.push(if is_ascii { char::from(*byte) } else { '?' })?;
    }
    Ok(text)
}

/// Bytes as a text that isn't too long: two points stand for the end of a longer one.
fn shown(alloc: Global, bytes: &[u8]) -> Result<String, AllocError> {
    let bytes = without_blanks(bytes);
    if first_characters(bytes, LONGEST).is_none() {
        return decoded(alloc, bytes);
    }
    let kept = first_characters(bytes, LONGEST - 3).unwrap_or(bytes);
    let mut text = decoded(alloc, without_blanks(kept))?;
    text.push_str(" ..")?;
    Ok(text)
}

impl<'a> Source<'a> {
    pub(crate) fn new(alloc: Global, text: &'a [u8]) -> Result<Source<'a>, AllocError> {
        let mut lines = Vec::new(alloc);
        lines.push(0)?;
        for at in 0..text.len() {
            if text[at] == b'\n' {
                lines.push(at + 1)?;
            }
        }
        Ok(Source { text, lines })
    }

    /// How many bytes stand before a place.
    fn offset(&self, place: Span) -> usize {
        let line = (place.line as usize).saturating_sub(1);
        let column = (place.column as usize).saturating_sub(1);
        match self.lines.get(line) {
            Some(begin) => begin.saturating_add(column),
            None => self.text.len(),
        }
    }

    /// The text from a place on.
    fn from(&self, place: Span) -> &'a [u8] {
        self.text.get(self.offset(place)..).unwrap_or(&[])
    }

    /// How many bytes of the statement at a place stand before a part of it: the `else if` of a condition, and the `while`
    /// behind the block of a `do`.
    fn part_offset(&self, place: Span, part: Option<Part>) -> usize {
        match part {
            Some(Part::From(count)) => blocks_length(self.from(place), count),
            Some(Part::Loop) if self.from(place).starts_with(b"do") => {
                blocks_length(self.from(place), 1)
            }
            _ => 0,
        }
    }

    /// The line of a part of the statement at a place.
    pub(crate) fn line(&self, place: Span, part: Option<Part>) -> u32 {
        let length = self.part_offset(place, part);
        let between = self.from(place).get(..length).unwrap_or(&[]);
        let mut line = place.line;
        for byte in between {
            if *byte == b'\n' {
                line = line.saturating_add(1);
            }
        }
        line
    }

    /// A part of the statement at a place, or its head: without its block, on one line.
    pub(crate) fn phrase_of(
        &self,
        alloc: Global,
        place: Span,
        part: Option<Part>,
    ) -> Result<String, AllocError> {
        let text = self.from(place);
        let length = self.part_offset(place, part);
        let statement = statement_of(alloc, text.get(length..).unwrap_or(&[]))?;
        shown(alloc, statement.as_slice())
    }

    /// The statement, or the head of the statement, that stands at a place: without its block, on one line.
    pub(crate) fn phrase(&self, alloc: Global, place: Span) -> Result<String, AllocError> {
        self.phrase_of(alloc, place, None)
    }

    /// What stands behind the first comma between the parentheses of the statement at a place: of `setverdict(fail, "late")`
    /// the text `"late"`.
    pub(crate) fn reason(&self, alloc: Global, place: Span) -> Result<String, AllocError> {
        let statement = statement_of(alloc, self.from(place))?;
        shown(alloc, behind_comma(statement.as_slice()))
    }
}
