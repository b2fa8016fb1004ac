// Why nothing is read.

/// Why no schedule is read from a text. The rule is this project's own.
#[derive(Clone, Copy, Debug, Drop, PartialEq, Eq)]
pub enum ReadFault {
    /// The number, from 1, of the first line that can't be continued to the text of a schedule: with the lines before
    /// it the text of one begins, and it is missing, or not ended by a line feed, or with it too no such text begins.
    /// After the text of a schedule any further line is bad.
    BadLine(u64),
    /// Memory was refused.
    NoMemory,
}
