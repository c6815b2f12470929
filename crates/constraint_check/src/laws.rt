//! What the checks of a statement are for.

ghost use Rattle.constraint_check.specs.Laws.{CheckedKept, JudgedPasses};

/// Where keys that compare equal are one key, and the rows that were read are those of the range, a read that gives no error
/// passes: the database has nothing there that breaks the constraint.
#[tactic(auto, using(crate::proofs::Judging::judged_passes))]
pub fn law_judged_passes()
    ensures { JudgedPasses }
{}

/// Where a database keeps the constraints of its tables, it keeps them behind changes that pass all checks.
#[tactic(auto, using(crate::proofs::Keeping::checked_kept))]
pub fn law_checked_kept()
    ensures { CheckedKept }
{}
