/// In which form an answer is told.
#[derive(Clone, Copy, PartialEq, Eq, Debug)]
pub enum Form {
    /// As a text for people.
    Text,
    /// As JSON.
    Json,
}
