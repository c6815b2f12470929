//! Waits that stand, and victims' marks.

ghost use Rattle.std.specs.Prelude.{◌≡◌, None};
ghost use Rattle.step_model.specs.State.{victim_of};
ghost use Rattle.step_model.specs.Moves.{with_wait, without_wait, after_fall, without_victim};

use crate::parts::Parts;
use crate::transaction::{begin_wait, end_wait, fall, take_victim};
use crate::wait::StandingWait;
use step_model::Cycle;

impl Parts {
    /// Ends the session's standing wait, if there is one.
    pub(crate) fn end_wait(&mut self, session: u32)
        ensures { self.new ≡ without_wait session self.old }
    {
        end_wait(&mut self.active, session);
    }

    /// Lets the session wait.
    pub(crate) fn begin_wait(&mut self, session: u32, wait: StandingWait)
        ensures { self.new ≡ with_wait session wait self.old }
    {
        begin_wait(&mut self.active, session, wait);
    }

    /// Ends the session's wait, and marks it as the victim of a cycle.
    pub(crate) fn fall(&mut self, session: u32, cycle: Cycle)
        ensures { self.new ≡ after_fall session cycle self.old }
    {
        fall(&mut self.active, session, cycle);
    }

    /// Takes the session's mark as a victim, if it has one.
    pub(crate) fn take_victim(&mut self, session: u32) -> Option<Cycle>
        ensures mark { result ≡ victim_of session self.old }
        ensures new { self.new ≡ without_victim session self.old }
        ensures none { result ≡ None → self.new ≡ self.old }
    {
        take_victim(&mut self.active, session)
    }
}
