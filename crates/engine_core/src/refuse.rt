//! A claim that does not pass.

ghost use Rattle.std.specs.Prelude.{◌≡◌, Some, IfOk, OnErr};
ghost use Rattle.step_model.specs.declared.op.Op.{Op as AnyOp};
ghost use Rattle.step_model.specs.declared.reply.Reply.TheVariants.{TimedOut};
ghost use Rattle.step_model.specs.Moves.{without_wait};
ghost use Rattle.step_model.specs.Claims.{IsFoe, claim_of};
ghost use Rattle.step_model.specs.Step.{StepFrom};
ghost use Rattle.engine_core.specs.Breaking.{after_falls, reply_left, after_left};

use crate::breaks::Fall;
use crate::claim::Foe;
use crate::parts::Parts;
use std::collections::LinkedList;
use step_model::{Cycle, Manner, Patience, Reply};
use value_types::Memory;

impl Parts {
    /// Answers a claim that does not pass: refuses it, or lets the session wait. Cycles that its wait would close are
    /// broken: others fall, or the session itself.
    pub(crate) fn refuse(&mut self, session: u32, foe: Foe, manner: Manner) -> Result<Reply, Memory>
        requires calm { without_wait session self.old ≡ self.old }
        requires foe { IsFoe session foe.claim.on foe.claim.pair self.old foe.holder foe.held }
        ensures step { IfOk result (λ reply. (op : AnyOp) → claim_of self.old op ≡ Some foe.claim → StepFrom self.old session op manner reply self.new) }
        ensures err { OnErr result (self.new ≡ self.old) }
    {
        match manner.patience {
            Patience::Refuse => Ok(foe.timed_out()),
            Patience::Forever => {
                let holder = foe.holder;
                self.begin_wait(session, foe.claim.wait(manner.priority));
                match self.breaks(session) {
                    Ok(breaks) => {
                        self.fall_all(breaks.others);
                        Ok(self.left(session, holder, breaks.own))
                    }
                    Err(Memory) => {
                        self.end_wait(session);
                        Err(Memory)
                    }
                }
            }
        }
    }

    // Lets each of these fall.
    fn fall_all(&mut self, mut falls: LinkedList<Fall>)
        ensures { self.new ≡ after_falls falls self.old }
    {
        while let Some(fall) = falls.pop_front() {
            self.fall(fall.session, fall.cycle);
        }
    }

    // The answer of a session that waits, or is the victim of a cycle itself.
    fn left(&mut self, session: u32, holder: u32, own: Option<Cycle>) -> Reply
        ensures reply { result ≡ reply_left holder own }
        ensures new { self.new ≡ after_left session own self.old }
    {
        match own {
            None => Reply::Wait { holder },
            Some(cycle) => {
                self.end_wait(session);
                Reply::Victim { cycle }
            }
        }
    }
}

impl Foe {
    // The answer to who does not wait.
    fn timed_out(self) -> Reply
        ensures { result ≡ TimedOut self.holder self.held self.claim.pair self.claim.on }
    {
        Reply::TimedOut {
            holder: self.holder,
            held: self.held,
            asked: self.claim.pair,
            on: self.claim.on,
        }
    }
}
