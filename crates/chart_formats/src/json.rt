//! Charts as JSON.
use crate::chart::{Arrow, Chart, Column, Row};
use serde_json::{Map, Value, json, put};
use std::alloc::{AllocError, Global};

/// The members of an object.
type Members = Map<String, Value>;

fn column_value(alloc: Global, column: &Column) -> Result<Value, AllocError> {
    let mut members: Members = Map::new(alloc);
    let (name, component_type) = (&column.name, &column.component_type);
    put(&mut members, alloc, "name", json!(in alloc; name)?)?;
    put(
        &mut members,
        alloc,
        "type",
        json!(in alloc; component_type)?,
    )?;
    if let Some(variable) = &column.variable {
        put(&mut members, alloc, "variable", json!(in alloc; variable)?)?;
    }
    Ok(Value::Object(members))
}

fn arrow_value(alloc: Global, arrow: Arrow) -> Result<Value, AllocError> {
    json!(in alloc; {"from": arrow.from, "lost": arrow.lost, "to": arrow.to})
}

fn row_value(alloc: Global, row: &Row) -> Result<Value, AllocError> {
    let mut members: Members = Map::new(alloc);
    if let Some(arrow) = row.arrow {
        put(&mut members, alloc, "arrow", arrow_value(alloc, arrow)?)?;
    }
    put(&mut members, alloc, "column", Value::from(row.column))?;
    put(&mut members, alloc, "first", Value::from(row.first))?;
    put(&mut members, alloc, "last", Value::from(row.last))?;
    if let Some(line) = row.line {
        put(&mut members, alloc, "line", Value::from(line))?;
    }
    let text = &row.text;
    put(&mut members, alloc, "text", json!(in alloc; text)?)?;
    Ok(Value::Object(members))
}

fn columns_value(alloc: Global, columns: &[Column]) -> Result<Value, AllocError> {
    let mut values = Vec::new(alloc);
    for column in columns {
        values.push(column_value(alloc, column)?)?;
    }
    Ok(Value::Array(values))
}

fn rows_value(alloc: Global, rows: &[Row]) -> Result<Value, AllocError> {
    let mut values = Vec::new(alloc);
    for row in rows {
        values.push(row_value(alloc, row)?)?;
    }
    Ok(Value::Array(values))
}

fn texts_value(alloc: Global, texts: &[String]) -> Result<Value, AllocError> {
    let mut values = Vec::new(alloc);
    for text in texts {
        values.push(json!(in alloc; text)?)?;
    }
    Ok(Value::Array(values))
}

/// The chart as one JSON object without blanks, and a line's end.
pub fn to_json(alloc: Global, chart: &Chart) -> Result<String, AllocError> {
    let columns = columns_value(alloc, chart.columns.as_slice())?;
    let ending = texts_value(alloc, chart.ending.as_slice())?;
    let rows = rows_value(alloc, chart.rows.as_slice())?;
    let value = json!(in alloc; {
        "columns": columns,
        "ending": ending,
        "rows": rows,
        "testcase": &chart.testcase
    })?;
    let mut text = value.to_string(alloc)?;
    text.push('\n')?;
    Ok(text)
}
