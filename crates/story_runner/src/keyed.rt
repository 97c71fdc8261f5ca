//! By which key pages are kept in the tables that a question asks.

/// By which key the pages are kept in tables.
#[derive(Clone, Copy, PartialEq, Eq)]
pub enum Keyed {
    /// By SHA-256.
    Sha,
    /// By the first byte.
    FirstByte,
}

impl Keyed {
    /// The tables that a question asks, and its SQL.
    pub fn read(question: &str) -> (Keyed, &str) {
        match question.strip_prefix("first-byte ") {
            Some(sql) => (Keyed::FirstByte, sql),
            None => (Keyed::Sha, question),
        }
    }
}
