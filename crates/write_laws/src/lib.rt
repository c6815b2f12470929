//! Laws of writes: what a write plans is right by itself; what a transaction reads with its range held, the database has at
//! its place in the log, and the transaction's commit leaves that database behind its changes; and what statements plan keeps
//! all of a database that is to be kept.
//!
//! Read `specs/Planning.antt` first: what a write plans. Then `specs/Reads.antt` and those behind it: what was read, in the
//! database at the transaction's place. Then `specs/Sound.antt` and those behind it: each row of `objects` is a definition, each
//! other row is one of a table that is defined, and such a table keeps its constraints (`SoundRows`), with what more it takes that
//! each change keeps that (`Firm`); and index parts have what they are to have (`Indexed`, `Sound`). The functions do nothing:
//! each one's contract is a law of the plans and dialogs that `dml_exec` means, of what CREATE and DROP plan, of what fits a log,
//! and of runs of the engine (`step_model`). They ask nothing of their caller; only the definitions that they cite say what they
//! mean. That a statement asks such parts is no part of this crate, nor is that a port's exchanges are those of a run.
#![tactic(auto)]

ghost use Rattle.write_laws.specs.Planning.{PlannedFits, PlannedKept, PlannedRight, RowsRead, ShapeNamed};
ghost use Rattle.write_laws.specs.Reading.{ChecksRead, CommitLeaves, FetchesLeave, FirstsFresh, ImagesFetch, ImagesRead, KeyTold, LoggedCommits, NetLeaves, NextState, OnceLeaves, OncePasses, PartAnswers, PlacesAreOne, PlannedKeys, RangeOfWhole, RangeRead, ReadsReady, RowsCurrent, StatesAreOne, WalkRead, WritesLeave, WritesPass};
ghost use Rattle.write_laws.specs.Told.{RowsTold, TargetsRead};
ghost use Rattle.write_laws.specs.Targets.{TargetStands, ToldStands};
ghost use Rattle.write_laws.specs.Keeping.{KeysSized, FirmCreated, FirmDropped, FirmEmpty, FirmErased, FirmPut, FirmSound, FirmWritten, TablesReady, UntriggeredCreated, UntriggeredDropped, UntriggeredEmpty, UntriggeredWritten};
ghost use Rattle.write_laws.specs.Found.{FoundDefined, FoundDefinitions, FoundTables};
ghost use Rattle.write_laws.specs.IndexKept.{IndexedCleared, IndexedCreated, IndexedDropped, IndexedEmpty, IndexedErased, IndexedPut, OwnBehind};
ghost use Rattle.write_laws.specs.Indexing.{GoneEmptied, IndexFree, IndexStands, IndexedWritten};
ghost use Rattle.write_laws.specs.Attempted.{AppliedFollows, WriteFollows};
ghost use Rattle.write_laws.specs.Checking.{PartsPass};
ghost use Rattle.write_laws.specs.IndexKeys.{AskedStand, FoundAll, KeysTold};
ghost use Rattle.write_laws.specs.Made.{FreeFresh, MadeLeave, TakenStand, WritesMake};
ghost use Rattle.write_laws.specs.Rewrites.{ChangesAreDeeds, PlanTaken, PlannedOf, TakenApart, TakenTold};
ghost use Rattle.write_laws.specs.Plans.{BoundStands, PlannedReadable, FirmDropPlanned, FirmPlanned, IndexedDropPlanned, UntriggeredPlanned};

// ---- what a write plans

/// What was read for a write as rows of its table, over the shapes of tables, has that table's columns.
#[tactic(auto, using(crate::proofs::TargetImages::rows_read))]
pub fn law_read()
    ensures { RowsRead }
{}

/// What a write plans for its table is changes that are right by themselves, where the rows of which it makes new ones
/// have the table's columns.
#[tactic(auto, using(crate::proofs::Planned::planned_right))]
pub fn law_planned()
    ensures { PlannedRight }
{}

/// The table that has a shape is the one of its name.
#[tactic(auto, using(crate::proofs::Planned::shape_named))]
pub fn law_shape()
    ensures { ShapeNamed }
{}

/// Where all rows of a database fit their tables, they do behind what a write plans for one of them: so each is read as a
/// row there, before any check has passed.
#[tactic(auto, using(crate::proofs::Planned::planned_fits))]
pub fn law_fits()
    ensures { PlannedFits }
{}

/// Where a database keeps the constraints of its tables, it keeps them behind what a write plans for one of them, if all
/// that is read behind its changes for its checks passes.
#[tactic(auto, using(crate::proofs::Planned::planned_kept))]
pub fn law_kept()
    ensures { PlannedKept }
{}

// ---- what a transaction reads, and what its commit leaves

/// A range that was read and held has the rows that the database has there at the transaction's place, with the
/// transaction's own changes; of one that was not held each row is as it was at its own number.
pub fn law_range_read()
    ensures held { RangeRead }
    ensures current { RowsCurrent }
{}

/// Each row that was read of a range was told by a fetch of it, with its key; and so was each of those that an UPDATE or DELETE is
/// planned on, by a fetch with U.
pub fn law_told()
    ensures rows { RowsTold }
    ensures targets { TargetsRead }
{}

/// A row that was fetched with U, or with its range, and then written in the same statement, is what the database has at its key at
/// the transaction's place, with what the transaction had changed by then; so is each that was told so among what was read.
pub fn law_target_stands()
    ensures one { TargetStands }
    ensures told { ToldStands }
{}

/// What a range of a table has is what stands in it of all that the table has.
pub fn law_range_of_whole()
    ensures { RangeOfWhole }
{}

/// Exchanges that fetch by ranges, which they hold, are all answered of one database; fetches leave their transaction as it
/// was.
pub fn law_part()
    ensures answers { PartAnswers }
    ensures leaves { FetchesLeave }
{}

/// Rows that were found one fetch behind another are those of the range, and what is told of one whole key is so.
pub fn law_walk()
    ensures range { WalkRead }
    ensures key { KeyTold }
{}

/// For images fetches alone are asked; at the highest level they are those of their ranges in the database at the
/// transaction's place, but for what is given.
pub fn law_images()
    ensures fetch { ImagesFetch }
    ensures read { ImagesRead }
{}

/// Reads that gave no error pass in that database, where all rows of the parts that are read fit their tables' shapes.
pub fn law_checks_read()
    ensures read { ChecksRead }
    ensures ready { ReadsReady }
{}

/// Where a write was done, what is read behind its changes passes in the database behind them; and with that its
/// transaction goes on.
pub fn law_writes()
    ensures pass { WritesPass }
    ensures leave { WritesLeave }
{}

/// In every database that commits leave, and in those that transactions have, keys that compare equal are one key.
pub fn law_keys()
    ensures places { PlacesAreOne }
    ensures states { StatesAreOne }
{}

/// What a transaction's writes come to leaves each key as they do, where no row stood at a key that they first insert at.
pub fn law_net()
    ensures { NetLeaves }
{}

/// At a transaction's place no row stood at such a key; so a commit leaves the database that its transaction had there.
pub fn law_commit()
    ensures fresh { FirstsFresh }
    ensures leaves { CommitLeaves }
{}

/// Each commit in the log is one among the exchanges of its session; so in every run the next database of the log is the
/// one before it behind what its transaction had written.
pub fn law_logged()
    ensures commits { LoggedCommits }
    ensures next { NextState }
{}

/// The commit of a transaction that wrote once leaves the database at its place behind its changes, and there what is read
/// for them passes. The keys of what a write plans are as long as those of their tables.
pub fn law_once()
    ensures leaves { OnceLeaves }
    ensures passes { OncePasses }
    ensures keys { PlannedKeys }
{}

// ---- what statements keep of a database

/// What statements keep is all that is to be kept.
pub fn law_firm_sound()
    ensures { FirmSound }
{}

/// In a firm database the tables that are defined are as a write asks of them: they keep their constraints, no two have
/// one name, and those that one refers to are among them.
pub fn law_tables_ready()
    ensures { TablesReady }
{}

/// In a firm database the keys of a table have as many values as its PRIMARY KEY has columns.
pub fn law_keys_sized()
    ensures { KeysSized }
{}

/// The database without rows is firm, and no trigger is there.
pub fn law_firm_empty()
    ensures firm { FirmEmpty }
    ensures untriggered { UntriggeredEmpty }
{}

/// Changes of a table keep a database firm, if all tables keep their constraints behind them.
pub fn law_firm_written()
    ensures firm { FirmWritten }
    ensures untriggered { UntriggeredWritten }
{}

/// The erasure of all rows of a table that no other refers to, and of its definition, keeps a database firm in which it has no
/// trigger.
pub fn law_firm_dropped()
    ensures firm { FirmDropped }
    ensures untriggered { UntriggeredDropped }
{}

/// The insertion of a table's definition where nothing of its name is keeps a database firm.
pub fn law_firm_created()
    ensures firm { FirmCreated }
    ensures untriggered { UntriggeredCreated }
{}

/// The insertion of a procedure's definition where nothing of its name is keeps a database firm, and so does that of a trigger
/// whose table is defined.
pub fn law_firm_put()
    ensures { FirmPut }
{}

/// The erasure of what is defined as no table keeps a database firm.
pub fn law_firm_erased()
    ensures { FirmErased }
{}

/// What a row of `objects` is read as is defined; and the definitions of all its rows are exactly those of the database.
pub fn law_found()
    ensures defined { FoundDefined }
    ensures tables { FoundTables }
    ensures definitions { FoundDefinitions }
{}

/// Behind what a write plans in a firm database rows can be read for its checks.
pub fn law_planned_readable()
    ensures { PlannedReadable }
{}

/// What a write plans keeps a database firm, if its checks pass behind it.
pub fn law_firm_planned()
    ensures firm { FirmPlanned }
    ensures untriggered { UntriggeredPlanned }
{}

/// What DROP TABLE plans on all rows of a table that no other refers to keeps a database firm: its triggers go with it.
pub fn law_firm_drop_planned()
    ensures { FirmDropPlanned }
{}

/// A table whose CREATE TABLE is bound over definitions of a firm database can stand there.
pub fn law_bound_stands()
    ensures { BoundStands }
{}

// ---- index parts

/// The own rows behind changes are those behind the changes of own rows.
pub fn law_own_rows()
    ensures { OwnBehind }
{}

/// A database without rows has no index part, and so none that is not as it is to be; each part stays exact where definitions come
/// and go, and where all rows of all parts of a table are erased with its definition, and with those of its triggers.
pub fn law_indexed()
    ensures empty { IndexedEmpty }
    ensures created { IndexedCreated }
    ensures put { IndexedPut }
    ensures erased { IndexedErased }
    ensures dropped { IndexedDropped }
    ensures cleared { IndexedCleared }
    ensures planned { IndexedDropPlanned }
{}

/// What a write plans is what is done at the keys of rows that change; those that it takes are some of its target's image, and each was
/// told at its own key, no two at one.
pub fn law_rewrites()
    ensures deeds { ChangesAreDeeds }
    ensures planned { PlannedOf }
    ensures told { TakenTold }
    ensures apart { TakenApart }
    ensures taken { PlanTaken }
{}

/// Changes that were asked one after another were made by an exchange each. If insertions into index parts come to free keys, all do,
/// and the database behind them is the one before behind the changes; and each row that was taken stood there.
pub fn law_made()
    ensures made { WritesMake }
    ensures leave { MadeLeave }
    ensures fresh { FreeFresh }
    ensures stand { TakenStand }
{}

/// Each index part is exact behind the changes of a table's rows and of its index rows; none of these is inserted where one is, and
/// each that goes or is replaced stands.
pub fn law_indexing()
    ensures written { IndexedWritten }
    ensures free { IndexFree }
    ensures stands { IndexStands }
    ensures gone { GoneEmptied }
{}

/// What is told of index rows that are asked for, their ranges held, is so at the transaction's place; where all are there, the changes
/// are those that were planned; and all those are there whose rows stand.
pub fn law_index_keys()
    ensures told { KeysTold }
    ensures all { FoundAll }
    ensures stand { AskedStand }
{}

/// Behind a write whose rows were told, whose index rows were asked for, and whose changes were made as these were found, the database
/// at the transaction's place is what was planned leaves, and each part follows its table's rows.
pub fn law_attempted()
    ensures follows { WriteFollows }
    ensures applied { AppliedFollows }
{}

/// What passes as it is read, of index parts that are exact, passes as it is meant, of all rows.
pub fn law_checking()
    ensures { PartsPass }
{}
