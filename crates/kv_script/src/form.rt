//! How values stand in a script.

/// How values stand in the lines of a script and in its answers.
#[derive(Clone, Copy, Debug, PartialEq, Eq)]
pub enum Form {
    /// In base64 (RFC 4648, section 4), and the empty value in a line as `-`: any bytes, in one word.
    Base64,
    /// As they are: in a line up to its end, in an answer as a JSON string. In an answer, a value that is not UTF-8
    /// stands in base64 under another name.
    Text,
}
