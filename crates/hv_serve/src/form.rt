// The form of the answers.

/// The form of the answers.
#[derive(Clone, Copy, PartialEq, Eq, Debug)]
pub enum Form {
    /// Lines of the audit and of the table. A line may have no answer.
    Text,
    /// One line of JSON for each line.
    Json,
}

// Which line it is, the form of its answer, and whether it may be by names.
#[derive(Clone, Copy)]
pub(crate) struct Place {
    pub(crate) form: Form,
    pub(crate) names: bool,
    // Lines count from 1.
    pub(crate) number: u64,
}
