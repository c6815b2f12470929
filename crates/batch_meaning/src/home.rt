//! In which transaction a statement works.

/// In which transaction a statement works.
#[derive(Clone, Copy, Debug, PartialEq, Eq)]
pub enum Home {
    /// In none: it asks nothing.
    Nowhere,
    /// In the open one.
    Open,
    /// In one of its own.
    Own,
}
