//! One legal history: what every session was answered fits one log of commits, whoever asked what, and in
//! whatever order. These are laws of the definitions of `step_model` alone, for all states and steps.
//!
//! Read `specs/Lib.antt`, which has the invariant in its order and then the laws, and `docs/HISTORY.md`, which
//! tells the argument. The functions do nothing: each one's contract is a law, which the layers above cite. They
//! ask nothing of their caller; only the definitions that they cite say what they mean.
#![tactic(auto)]

ghost use Rattle.history_laws.specs.Laws.{OpeningKnows, StoryGrows, OwnStep, OtherStep, RunsFit, RunsQuiet, MarksStand, SinceFits, StepReplies, SureStays};

/// Before any step, every session is known with no exchanges.
pub fn law_opening()
    ensures { OpeningKnows }
{}

/// A step's log begins with the one before it.
pub fn law_story_grows()
    ensures { StoryGrows }
{}

/// What a session may ask by its own exchanges it may ask the engine, and after the step it is known with the
/// exchange more.
pub fn law_own_step()
    ensures { OwnStep }
{}

/// A step of one session keeps what is known of every other.
pub fn law_other_step()
    ensures { OtherStep }
{}

/// In every run of any sessions, each session's exchanges fit the one log.
pub fn law_runs()
    ensures { RunsFit }
{}

/// After every run no edges of standing waits are a cycle, and who is marked as a victim was in its cycle.
pub fn law_waits()
    ensures { RunsQuiet }
{}

/// Who is marked as a victim by a step is marked with a cycle whose edges stood, and so is the cycle that is told.
pub fn law_marks()
    ensures { MarksStand }
{}

/// From a moment on at which the session had no transaction open, its exchanges fit what the log has grown by.
pub fn law_since()
    ensures { SinceFits }
{}

/// A step that does not tell to wait gives a reply that may come to its operation through a port.
pub fn law_replies()
    ensures { StepReplies }
{}

/// Where a row is sure, a write of it is not answered by Missing.
pub fn law_missing()
    ensures { SureStays }
{}
