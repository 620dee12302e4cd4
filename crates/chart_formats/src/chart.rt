//! What a chart shows.

/// A run of a test case as a sequence chart.
#[derive(Drop)]
pub struct Chart {
    /// The name of the test case.
    pub testcase: String,
    /// The components, in the order of their names.
    pub columns: Vec<Column>,
    /// What happens, in the order of the steps.
    pub rows: Vec<Row>,
    /// What is said at the end, a line each.
    pub ending: Vec<String>,
}

/// A component.
#[derive(Drop)]
pub struct Column {
    /// `mtc`, `mtc.1`
    pub name: String,
    /// The name of its type.
    pub component_type: String,
    /// The variable that holds it, where one is known.
    pub variable: Option<String>,
}

/// A step, or several of one component that only compute.
#[derive(Drop)]
pub struct Row {
    /// The numbers of its first and its last step, counted from 1.
    pub first: usize,
    pub last: usize,
    /// The line of its statement in the module's text, where it has one.
    pub line: Option<u32>,
    /// The place among the columns of the component that makes the step; none where a message comes in from outside.
    pub column: Option<usize>,
    /// What happens, in words.
    pub text: String,
    /// The words of each step.
    pub steps: Vec<String>,
    /// Where a message goes.
    pub arrow: Option<Arrow>,
}

/// A message that goes from one component to another.
#[derive(Clone, Copy)]
pub struct Arrow {
    /// Columns; none stands for what is outside the test system.
    pub from: Option<usize>,
    pub to: Option<usize>,
    /// Whether it is lost, since the receiver had ended.
    pub lost: bool,
}

impl Column {
    /// The lines of its head: its name, its type, and its variable or nothing.
    pub(crate) fn head(&self) -> [&str; 3] {
        let variable = match &self.variable {
            Some(variable) => variable.as_str(),
            None => "",
        };
        [self.name.as_str(), self.component_type.as_str(), variable]
    }

    /// The number of characters of the longest line of its head.
    fn head_width(&self) -> usize {
        let widths = self.head().map(|words| words.chars().count());
        widths.iter().copied().max().unwrap_or(0)
    }
}

impl Chart {
    /// The place of a column that there is; none stands for what is outside the test system.
    pub(crate) fn place_of(&self, column: Option<usize>) -> Option<usize> {
        column.filter(|place| *place < self.columns.len())
    }

    /// The column that the words of a row stand in: the one that makes the step, or else the one that a message goes to.
    pub(crate) fn column_of(&self, row: &Row) -> Option<usize> {
        let receiver = row.arrow.and_then(|arrow| arrow.to);
        self.place_of(row.column).or(self.place_of(receiver))
    }

    /// Whether the chart has to show what is outside the test system.
    pub(crate) fn shows_outside(&self) -> bool {
        self.columns.is_empty() || self.rows.iter().any(|row| self.touches_outside(row))
    }

    fn touches_outside(&self, row: &Row) -> bool {
        match row.arrow {
            Some(arrow) => self.place_of(arrow.from).is_none() || self.place_of(arrow.to).is_none(),
            None => self.place_of(row.column).is_none(),
        }
    }

    /// The number of lines of the heads.
    pub(crate) fn head_lines(&self) -> usize {
        if self.columns.iter().any(|column| column.variable.is_some()) {
            3
        } else {
            2
        }
    }

    /// The number of characters of the longest line of the heads.
    pub(crate) fn head_width(&self) -> usize {
        let widths = self.columns.iter().map(|column| column.head_width());
        widths.max().unwrap_or(0)
    }
}
