//! Index parts that follow their table. An index part is a second map of a table's rows, by the values of a constraint's
//! columns and then the key. These are laws of maps by key, for any function that gives a row its key and its index row:
//! how rows and index rows change in one statement, and that a part which was exact is exact behind it.
//!
//! `specs/Lib.antt` says in which order to read. The functions do nothing: each one's contract is a law, for the layers that
//! keep index parts. They ask nothing of their caller.
#![tactic(auto)]

ghost use Rattle.index_laws.specs.Deeds.{DeedsAre};
ghost use Rattle.index_laws.specs.Whole.{ParentRead, PartsKept, UniqueRead};
ghost use Rattle.index_laws.specs.Laws.{FreshMay, IndexFollows, IndexMay, PartFollows, PartFresh};

/// What a statement asks of a part where rows change leaves it as `Follows` says of these rows.
pub fn law_part_follows()
    ensures { PartFollows }
{}

/// An index part that was exact is exact behind the changes.
pub fn law_index_follows()
    ensures { IndexFollows }
{}

/// What is asked of the rows gives what is asked of the part.
pub fn law_index_may()
    ensures { IndexMay }
{}

/// Rows whose insertions are fresh may change so.
pub fn law_fresh_may()
    ensures { FreshMay }
{}

/// Each index part of a table stays exact behind the changes of a statement.
pub fn law_parts_kept()
    ensures { PartsKept }
{}

/// What is read of an index part for UNIQUE says what all rows would.
pub fn law_unique_read()
    ensures { UniqueRead }
{}

/// What is read of an index part for rows that refer to a parent says what all rows would.
pub fn law_parent_read()
    ensures { ParentRead }
{}

/// None of the insertions into an index part is answered by a row that is there.
pub fn law_part_fresh()
    ensures { PartFresh }
{}

/// What is done at each key makes the changes that are meant.
pub fn law_deeds()
    ensures { DeedsAre }
{}
