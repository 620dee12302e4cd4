//! The components of a run, as columns of a chart.
use chart_causes::{Names, write_path};
use chart_formats::Column;
use chart_steps::Story;
use config_parts::{Cells, Component, Config, Going};
use std::alloc::{AllocError, Global};
use value_types::{Path, Slot, Value};

/// The last configuration of a run in which the test case goes on. All its components are there.
pub(crate) fn last_going(story: &Story) -> Option<&Going> {
    let mut last = match &story.start {
        Config::Going(going) => Some(going),
        Config::Ended(_) => None,
    };
    for told in &story.steps {
        if let Config::Going(going) = &told.behind {
            last = Some(going);
        }
    }
    last
}

/// The component with a path, in a test case that goes on.
pub(crate) fn component_in<'b>(config: &'b Config, path: &Path) -> Option<&'b Component> {
    match config {
        Config::Going(going) => going
            .components
            .as_slice()
            .iter()
            .find(|component| component.itself.path == *path),
        Config::Ended(_) => None,
    }
}

/// The place of the component with a path among the columns.
pub(crate) fn column_of(components: &[Component], path: &Path) -> Option<usize> {
    components
        .iter()
        .position(|component| component.itself.path == *path)
}

/// The first name that has a component as its value.
fn holder_in(cells: &Cells, path: &Path) -> Option<Slot> {
    for (slot, value) in cells.values.as_slice() {
        if let Value::Component(component) = value {
            if component.path == *path {
                return Some(*slot);
            }
        }
    }
    None
}

/// The first name of a component that has another one as its value: of its type, or of one of its frames.
fn holder_of(component: &Component, path: &Path) -> Option<Slot> {
    let own = component.own.get();
    if let Some(slot) = holder_in(&own.members, path) {
        return Some(slot);
    }
    for frame in own.calls.as_slice() {
        if let Some(slot) = holder_in(frame.cells.get(), path) {
            return Some(slot);
        }
    }
    None
}

/// The name of a variable that holds a component.
fn variable_of(
    alloc: Global,
    names: Names<'_>,
    components: &[Component],
    path: &Path,
) -> Result<Option<String>, AllocError> {
    for component in components {
        if let Some(slot) = holder_of(component, path) {
            return Ok(Some(names.slot(alloc, slot)?));
        }
    }
    Ok(None)
}

/// A component as a column.
fn column(
    alloc: Global,
    names: Names<'_>,
    components: &[Component],
    component: &Component,
) -> Result<Column, AllocError> {
    let mut name = String::new(alloc);
    write_path(&mut name, &component.itself.path)?;
    Ok(Column {
        name,
        component_type: names.definition(alloc, component.itself.component_type)?,
        variable: variable_of(alloc, names, components, &component.itself.path)?,
    })
}

/// The components as columns.
pub(crate) fn columns(
    alloc: Global,
    names: Names<'_>,
    components: &[Component],
) -> Result<Vec<Column>, AllocError> {
    let mut columns = Vec::new(alloc);
    for component in components {
        columns.push(column(alloc, names, components, component)?)?;
    }
    Ok(columns)
}
