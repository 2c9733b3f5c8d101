use thiserror::Error;

/// Why an input wasn't read, or a text not written.
#[derive(Clone, Copy, Debug, PartialEq, Eq, Error)]
pub enum EndFault {
    /// A read failed, or 2,000,000 reads came to no end.
    #[error("reading failed")]
    Read,
    /// A write failed, took nothing, or was interrupted more than 1,000 times in a row.
    #[error("writing failed")]
    Write,
    /// Memory was refused.
    #[error("out of memory")]
    Memory,
}
