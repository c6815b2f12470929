//! The rows of a write.

use bound_tree::Image;

/// The rows of a write, in their order.
#[derive(Drop)]
pub enum Rewritten {
    /// They are inserted.
    Inserted(Image),
    /// They are set: as they were, and as they are to be.
    Set(Image, Image),
    /// They are erased.
    Erased(Image),
}
