//! Rows of tables as texts: what tests read their rows with.
//!
//! A test is a table to read, with a row a line. `cut` parts a row, and `number` reads a number of it. A row that lacks something is a
//! mistake of the test: it has an empty part there, or a number that no net and no state has.

/// What stands before the first such character, and what stands behind it; where there is none, the whole text and nothing.
pub fn cut(text: &str, at: char) -> (&str, &str) {
    text.split_once(at).unwrap_or((text, ""))
}

/// A number in figures. Where there is none, it is the greatest, which no net and no state of a test has.
pub fn number(word: &str) -> u32 {
    word.parse().unwrap_or(u32::MAX)
}
