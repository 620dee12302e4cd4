//! Pictures of graphs: what stands at the positions that lists lead to, in the order in which they are met.
use crate::machine::words::item_text;
use std::alloc::{AllocError, Global};
use ttcn_graph::Graphs;

/// A picture that is being drawn.
#[derive(Drop)]
struct Picture<'g, 'a> {
    alloc: Global,
    graphs: &'g Graphs<'a>,
    /// The positions met so far. The first has number 1.
    met: Vec<usize>,
    text: String,
}

/// How many lists the graphs of a module have, and a line for each of the positions that are met from the beginnings of a
/// behaviour on, at most so many.
pub fn draw(
    alloc: Global,
    graphs: &Graphs<'_>,
    behaviour: usize,
    lines: usize,
) -> Result<String, AllocError> {
    let mut picture = Picture {
        alloc,
        graphs,
        met: Vec::new(alloc),
        text: format!(in alloc; "lists {}\nbegins with", graphs.len())?,
    };
    picture.push_beginnings(behaviour)?;
    for place in 0..lines {
        let Some(at) = picture.met.get(place) else {
            break;
        };
        let at = *at;
        picture.push_line(place, at)?;
    }
    let Picture {
        alloc: _alloc,
        graphs: _graphs,
        met: _met,
        text,
    } = picture;
    Ok(text)
}

impl<'g, 'a> Picture<'g, 'a> {
    /// Adds the positions that a behaviour begins with.
    fn push_beginnings(&mut self, behaviour: usize) -> Result<(), AllocError> {
        for place in 0..usize::MAX {
            match self.graphs.start(behaviour, place) {
                Some(at) => self.push_position(at)?,
                None => return Ok(()),
            }
        }
        Ok(())
    }

    /// Adds a line: what stands at a position, where the list behind that is, and which lists may come in its place.
    fn push_line(&mut self, place: usize, at: usize) -> Result<(), AllocError> {
        if at >= self.graphs.len() {
            return Ok(());
        }
        let Some((first, rest)) = self.graphs.first(at) else {
            return Ok(());
        };
        let item = item_text(self.alloc, first)?;
        let line = format!(in self.alloc; "\n{} {item}, then", place.saturating_add(1))?;
        self.text.push_str(line.as_str())?;
        self.push_position(rest)?;
        self.push_ways(at)
    }

    /// Adds the positions of the lists that may come in the place of the one at a position.
    fn push_ways(&mut self, at: usize) -> Result<(), AllocError> {
        for place in 0..usize::MAX {
            let Some(way) = self.way(at, place) else {
                return Ok(());
            };
            if place == 0 {
                self.text.push_str(", or")?;
            }
            self.push_position(way)?;
        }
        Ok(())
    }

    /// The position of one of these lists.
    fn way(&self, at: usize, place: usize) -> Option<usize> {
        if at < self.graphs.len() {
            self.graphs.way(at, place)
        } else {
            None
        }
    }

    /// Adds the number of a position, or a word for that of the empty list.
    fn push_position(&mut self, at: usize) -> Result<(), AllocError> {
        if at == self.graphs.nothing() {
            return self.text.push_str(" end");
        }
        let place = match self.met.iter().position(|met| *met == at) {
            Some(place) => place,
            None => {
                self.met.push(at)?;
                self.met.len() - 1
            }
        };
        let number = format!(in self.alloc; " {}", place.saturating_add(1))?;
        self.text.push_str(number.as_str())
    }
}
