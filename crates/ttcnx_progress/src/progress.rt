//! A line on standard error that shows how far an exploration is.
use search_layer::Gate;
use std::fmt::{self, Display, Formatter};
use std::fs;
use std::io::Eprint;
use std::rt::{Clock, Files};
use std::sync::atomic::AtomicU64;
use std::sync::atomic::Ordering::SeqCst;
use std::time::Instant;

/// Back to the start of a terminal's line, and all that stands in it goes.
const CLEAR: &str = "\r\x1b[K";

/// How many bytes a page of memory has, as the system counts pages.
const PAGE: u64 = 4096;

/// A gate that may show on a terminal how far an exploration is.
pub trait Showing: Gate {
    /// From now on a line is shown of an exploration whose pieces have so many candidates, where anything is to be shown.
    fn begin(&self, piece: u64);

    /// Takes the line away, where one is shown.
    fn clear(&self);
}

/// A gate that shows, at most once a second and behind the first second, in which layer the workers are, how many candidates
/// they have begun with, how many that is a second, and how much memory the program holds.
#[derive(Drop)]
pub struct Progress<'a, R> {
    rt: &'a R,
    /// When the program began, where standard error is a terminal.
    start: Option<Instant>,
    /// How many candidates a piece has: none before something is to be shown.
    piece: AtomicU64,
    /// How many candidates the workers have begun with.
    candidates: AtomicU64,
    /// The second in which the last line was shown, from the start on: none where no line stands.
    shown: AtomicU64,
}

impl<'a, R: Clock + Files + Eprint + AllocGlobal> Progress<'a, R> {
    /// A gate that shows nothing before it is told to begin, and never where standard error is no terminal.
    pub fn new(rt: &'a R, is_terminal: bool) -> Progress<'a, R> {
        let start = if is_terminal {
            Instant::now(rt).ok()
        } else {
            None
        };
        Progress {
            rt,
            start,
            piece: AtomicU64::new(0),
            candidates: AtomicU64::new(0),
            shown: AtomicU64::new(0),
        }
    }

    /// Whether a line is due in this second: it is the first one to ask.
    fn is_due(&self, second: u64) -> bool {
        let shown = self.shown.load(SeqCst);
        shown < second
            && self
                .shown
                .compare_exchange(shown, second, SeqCst, SeqCst)
                .is_ok()
    }

    /// Shows a line.
    fn show(&self, layer: u64, piece: u64, pieces: u64, candidates: u64, second: u64) {
        let rate = candidates.checked_div(second).unwrap_or(0);
        let line = Line {
            layer,
            piece,
            pieces,
            candidates,
            rate,
            mebibytes: self.mebibytes(),
        };
        let _ = self.rt.eprint(line);
    }

    /// How many mebibytes of memory the program holds, where the system says so.
    fn mebibytes(&self) -> Option<u64> {
        let text = fs::read_to_string(self.rt, "/proc/self/statm").ok()?;
        let pages = text.as_str().split(' ').nth(1)?;
        let pages = pages.parse::<u64>().ok()?;
        Some(pages.saturating_mul(PAGE) >> 20)
    }
}

impl<'a, R: Clock + Files + Eprint + AllocGlobal + Sync> Gate for Progress<'a, R> {
    fn enter(&self, _worker: u64, layer: u64, piece: u64, pieces: u64) {
        let Some(start) = self.start else {
            return;
        };
        let size = self.piece.load(SeqCst);
        let before = self.candidates.fetch_add(size, SeqCst);
        if size == 0 {
            return;
        }
        let Ok(passed) = start.elapsed(self.rt) else {
            return;
        };
        let second = passed.as_secs();
        if self.is_due(second) {
            self.show(layer, piece, pieces, before, second);
        }
    }
}

impl<'a, R: Clock + Files + Eprint + AllocGlobal + Sync> Showing for Progress<'a, R> {
    fn begin(&self, piece: u64) {
        self.piece.store(piece, SeqCst);
    }

    fn clear(&self) {
        if self.shown.swap(0, SeqCst) > 0 {
            let _ = self.rt.eprint(CLEAR);
        }
    }
}

/// What a line says.
#[derive(Drop)]
struct Line {
    layer: u64,
    piece: u64,
    pieces: u64,
    candidates: u64,
    /// Candidates a second.
    rate: u64,
    mebibytes: Option<u64>,
}

impl Display for Line {
    fn fmt<W: fmt::Write>(&self, f: &mut Formatter<W>) -> fmt::Result {
        write!(
            f,
            "{CLEAR}layer {}, piece {} of {}; ",
            self.layer, self.piece, self.pieces
        )?;
        write!(f, "{} candidates, {} a second", self.candidates, self.rate)?;
        match self.mebibytes {
            Some(mebibytes) => write!(f, "; {mebibytes} MiB"),
            None => Ok(()),
        }
    }
}
