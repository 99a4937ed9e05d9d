//! How a text is imported, and what is noted of it.

/// What lines of cards are where they may be columns or rows.
#[derive(Clone, Copy, PartialEq, Eq, Debug)]
pub enum LinesAre {
    /// It is not said, so that a board is refused with a question where both remain.
    Unsaid,
    Columns,
    Rows,
}

/// What is noted of an import.
#[derive(Clone, Copy, PartialEq, Eq, Debug)]
pub enum Noted {
    /// What is doubtful or lost: a board or a list that is turned, left out or not taken.
    Doubts,
    /// Also each board and list that is written in another spelling.
    Changes,
    /// The same, and each note counts as a refusal.
    Strict,
}

/// How a text is imported.
#[derive(Clone, Copy, PartialEq, Eq, Debug)]
pub struct ImportOptions {
    pub lines_are: LinesAre,
    pub noted: Noted,
}
