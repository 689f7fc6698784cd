//! Why a line of a log is wrong.

/// Why a line of a log is wrong. Each stands for the word of the same letters.
#[derive(Clone, Copy, Debug, PartialEq, Eq)]
pub enum Wrong {
    /// `text`: the line is not written as its place asks: no header, no step, no event of a wait.
    Text,
    /// `answer`: the machine has no such answer there, or wakes another task next.
    Answer,
    /// `end`: the lines end before the header, or in the middle of an entry.
    End,
    /// `lines`: the line is past the millionth.
    Lines,
}
