//! What a statement is bound over.

use clause_binder::TablesByName;
use session_vars::Vars;
use std::alloc::Global;

/// Binds over these definitions and variables.
#[derive(Drop)]
pub struct Binder<'t, 'a> {
    /// Where memory comes from.
    pub alloc: Global,
    /// What the names of tables stand for.
    pub definitions: &'t TablesByName<'a>,
    /// The variables.
    pub vars: &'a Vars,
}
