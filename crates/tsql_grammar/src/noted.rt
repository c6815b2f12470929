//! What is judged of a text that reads.

/// What is wrong with a text that reads.
#[derive(Clone, Copy, Debug)]
pub enum TextFault {
    /// It nests too deep.
    TooDeep,
    /// A variable is used that is not declared before.
    NotDeclared,
    /// A variable is declared a second time.
    DeclaredTwice,
}
