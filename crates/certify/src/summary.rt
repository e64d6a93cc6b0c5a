//! The summary of a run.

use sat_solver::Progress;

/// The kind of an answer.
#[derive(Clone, Copy, Debug, Drop, PartialEq, Eq)]
pub enum Answer {
    /// Some valuation satisfies the clauses and the literals of the ask. The answer is a model.
    Sat,
    /// No valuation satisfies the clauses and the literals of the ask.
    Unsat,
    /// The rounds were exhausted before the search found an answer.
    Unknown,
}

/// An answer, and the rounds that it took.
#[derive(Clone, Copy, Debug, Drop, PartialEq, Eq)]
pub struct AskReport {
    pub answer: Answer,
    /// The number of rounds of search.
    pub steps: u64,
}

/// What a finished run did.
#[derive(Debug, Drop)]
pub struct Summary {
    /// The number of commands in the text, including the refused ones.
    pub commands: u64,
    /// The number of refused commands.
    pub refused: u64,
    /// The number, counted from 1, of the command at which the text is malformed.
    pub malformed: Option<u64>,
    /// The number, counted from 1, of the line of the last byte that was consumed, or 0 if the script is empty. If the
    /// text is malformed, this byte made it so. The number is capped at 2^64-1.
    pub line: u64,
    /// One report for every accepted ask, in order.
    pub asks: Vec<AskReport>,
    /// The counts of the solver at the end.
    pub progress: Progress,
}
