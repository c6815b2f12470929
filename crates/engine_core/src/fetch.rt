//! A fetch: the first key of a range, with the row that the session sees there.

ghost use Rattle.std.specs.Prelude.{◌≡◌, true, length, IfOk, OnErr};
ghost use Rattle.std.specs.Option.{option_copied};
ghost use Rattle.step_model.specs.Exchange.{IsSession};
ghost use Rattle.step_model.specs.State.{is_open};
ghost use Rattle.step_model.specs.Moves.{without_wait};
ghost use Rattle.step_model.specs.Step.{StepFrom, entry_reply};
ghost use Rattle.history_laws.specs.Sane.{Sane};
ghost use Rattle.engine_core.specs.AtKeys.{fetch_reply_at};

use crate::claim::{fetch_claim_at, includes};
use crate::parts::Parts;
use lock_modes::KeyPart;
use std::alloc::Global;
use step_model::{Hold, Manner, Op, Reply, Start, Stop};
use value_types::{Key, Memory, Row, TableName, beside};

/// The answer of a key that was found, with the row that is seen there, or none.
fn row_reply(alloc: Global, key: &Key, row: Option<&Row>, at: u64) -> Result<Reply, Memory>
    ensures { IfOk result (λ reply. reply ≡ entry_reply (option_copied row.entry) key.now at) }
{
    let key = key.copy(alloc)?;
    match row {
        Some(row) => {
            let (key, row) = beside(key, row.copy(alloc))?;
            Ok(Reply::Row { key, row, at })
        }
        None => Ok(Reply::Gone { key, at }),
    }
}

impl Parts {
    /// Looks for the first key of a range, and locks what is asked there.
    pub(crate) fn fetch(
        &mut self,
        session: u32,
        table: &TableName,
        start: &Start,
        stop: &Stop,
        hold: Hold,
        part: KeyPart,
        manner: Manner,
    ) -> Result<Reply, Memory>
        requires session { IsSession session }
        requires begun { is_open session self.old ≡ true }
        requires sane { Sane self.old }
        requires calm { without_wait session self.old ≡ self.old }
        ensures step { let op = Op.Fetch table.now start.now stop.now hold part in
            IfOk result (λ reply. StepFrom self.old session op manner reply self.new) }
        ensures err { OnErr result (self.new ≡ self.old) }
    {
        let found = self.rows.next_entry(table, start);
        let reply = self.fetch_reply_at(session, table, stop, found)?;
        let Some(claim) = fetch_claim_at(self.alloc, hold, part, table, stop, found)? else {
            return Ok(reply);
        };
        match self.passed(session, claim) {
            Err(foe) => self.refuse(session, foe, manner),
            Ok(claim) => {
                self.keep(session, &claim)?;
                Ok(reply)
            }
        }
    }

    // What a fetch is answered, by the key that it finds.
    fn fetch_reply_at(
        &self,
        session: u32,
        table: &TableName,
        stop: &Stop,
        found: Option<&Key>,
    ) -> Result<Reply, Memory>
        ensures { let answer = fetch_reply_at self.now.entries session table.now stop.now in
            IfOk result (λ reply. reply ≡ answer (length self.now.log) (option_copied found.entry)) }
    {
        let at = self.log.len() as u64;
        match found {
            Some(found) if includes(stop, found) => {
                let seen = self.rows.visible(session, table, found);
                row_reply(self.alloc, found, seen, at)
            }
            _ => Ok(Reply::End { at }),
        }
    }
}
