//! How far a session has come, and what it asks of its port.

ghost use Rattle.std.specs.Prelude.{◌≡◌, ◌<◌, ◌≤◌, ◌-◌, ◌==◌, ℕ, min, nat_le, nat_lt, [], true, false, All, Ok, IfOk, IfErr, None, Some};
ghost use Rattle.session_cursors.specs.Answers.{HasKinds};
ghost use Rattle.session_cursors.specs.Cursors as list;
ghost use Rattle.session_cursors.specs.Faults.{Gives};
ghost use Rattle.step_model.specs.declared.op.Op.TheVariants.{Commit, Rollback};
ghost use Rattle.step_model.specs.declared.reply.Reply.TheVariants.{Ended};
ghost use Rattle.step_model.specs.Exchange.{MayCome, CanReply};
ghost use Rattle.session_vars.specs.Variables.{FitsAt, HasItsType};
ghost use Rattle.tds_tokens.specs.Fit.{FitTokens};
ghost use Rattle.txn_rules.specs.State.{commit_answer, count_limit, is_closed, rollback_answer, save_refusal, xact_state};
ghost use Rattle.batch_meaning.specs.Doing.{Exchanged};
ghost use Rattle.batch_meaning.specs.Progress.{Ready, first_progress, made, asked, assigns, begins, closes_one, counts, declares, dooms, fetches, fills, fired_from, fires_from, stands_with, unless_ended, is_open_after, opens, removes, saves, sends, sets, shuts, size_of, tells_error, tells_fetch, tells_rows, touched_after, touches, txn_after};
ghost use Rattle.batch_meaning.specs.Firing.{has_mark};
ghost use Rattle.batch_meaning.specs.Tokens.{transaction_committed, transaction_rolled_back};
ghost use Rattle.batch_meaning.specs.Transactions.{next_serial, unless_own};
ghost use Rattle.session_state.specs.Ending.{KeepsEndings, begun_serial, ended_all};
ghost use Rattle.session_state.specs.Parts.{SetsFit, assigned_all, cut_to};
ghost use Rattle.session_state.specs.Sendable.{IsFit};

use crate::endings::Endings;
use crate::sendable::TokenList;
use batch_meaning::Settings;
use dml_exec::Level;
use session_cursors::{CursorFault, Cursors};
use session_vars::Vars;
use std::alloc::Global;
use std::marker::Model;
use step_model::{Manner, Op, Patience, Port, Reply};
use tds_tokens::{Token, bytes_of_tokens};
use tsql_tree::Select;
use txn_rules::{BackKind, TxnState};
use value_types::{Memory, Row, SqlType, Units, Value};

/// How many statements a batch may begin.
const STATEMENT_LIMIT: u32 = 1_000_000;

/// How many bytes the tokens of a batch may have.
const BATCH_LIMIT: u32 = 134_217_728;

/// Of these, its own end has so many.
const END_SIZE: u32 = 13;

/// The most transactions that can be open in one another, and the greatest `@@ROWCOUNT`.
const GREATEST_COUNT: u32 = 2_147_483_647;

/// What a session has until SET sets it: it waits for locks, with the priority 0.
const FIRST_SETTINGS: Settings = Settings {
    xact_abort: false,
    no_count: false,
    implicit: false,
    level: Level::ReadCommitted,
    manner: Manner {
        patience: Patience::Forever,
        priority: 0,
    },
};

/// How far a session has come, with what its batch has sent.
#[derive(Drop)]
pub struct SessionState {
    tokens: Vec<Token>,
    bytes_left: u32,
    statements_left: u32,
    vars: Vars,
    row_count: u32,
    error: i32,
    fetch_status: i32,
    cursors: Cursors<Select>,
    settings: Settings,
    txn: TxnState,
    is_open: bool,
    is_own: bool,
    stands: bool,
    touched: bool,
    endings: Option<Endings>,
}

impl Model for SessionState {
    ghost use Rattle.std.specs.Prelude.{◌≡◌, ◌≤◌, true};
    ghost use Rattle.tsql_tree.specs.contracts.query.Select as select;
    ghost use Rattle.std.specs.Coded.{codes};
    ghost use Rattle.batch_meaning.specs.Progress.{SessionProgress};
    ghost use Rattle.session_state.specs.Ending.{KeepsEndings};
    ghost use Rattle.session_state.specs.Sendable.{IsFit};

    ghost Value = { SessionProgress };

    ghost coded = { Prim.hlevel (codes, select.the_row.coded) };

    ghost view = { λ s. record { tokens = s.tokens.items; bytes_left = s.bytes_left; statements_left = s.statements_left; vars = s.vars; row_count = s.row_count; error = s.error; fetch_status = s.fetch_status; cursors = s.cursors; settings = s.settings; txn = s.txn; is_open = s.is_open; is_own = s.is_own; stands = s.stands; touched = s.touched } };

    ghost invariant = { λ s. IsFit s.tokens.items × (s.txn.count ≤ 2147483647) × (s.row_count ≤ 2147483647) × (s.stands ≡ true → s.is_open ≡ true) × KeepsEndings s.txn s.is_own s.endings };
}

impl SessionState {
    /// A session before its first batch.
    pub fn new(alloc: Global) -> SessionState
        ensures { result ≡ first_progress }
    {
        SessionState {
            tokens: Vec::new(alloc),
            bytes_left: 0,
            statements_left: 0,
            vars: Vars::new(alloc),
            row_count: 0,
            error: 0,
            fetch_status: 0,
            cursors: Cursors::new(alloc),
            settings: FIRST_SETTINGS,
            txn: TxnState::new(alloc),
            is_open: false,
            is_own: false,
            stands: false,
            touched: false,
            endings: None,
        }
    }

    // ---- what is asked

    /// Asks one operation in the session's manner.
    pub fn ask<P: Port>(&mut self, port: &mut P, op: &Op) -> Reply
        requires ready { Ready self.old (P.past port.old) }
        requires may { MayCome (P.past port.old).standing op.now }
        ensures asked { Exchanged (P.past port.old) (P.past port.new) op.now self.old result self.new }
        ensures reply { CanReply op.now result }
        ensures ready { Ready self.new (P.past port.new) }
    {
        self.exchange(port, op)
    }

    /// Asks it, and notes what that changes.
    fn exchange<P: Port>(&mut self, port: &mut P, op: &Op) -> Reply
        requires ready { Ready self.old (P.past port.old) }
        requires may { MayCome (P.past port.old).standing op.now }
        ensures asked { Exchanged (P.past port.old) (P.past port.new) op.now self.old result self.new }
        ensures reply { CanReply op.now result }
    {
        let reply = port.ask(op, self.settings.manner);
        self.note(op, &reply);
        reply
    }

    /// An operation was asked, and replied so.
    fn note(&mut self, op: &Op, reply: &Reply)
        requires { CanReply op.now reply.now }
        ensures { self.new ≡ asked op.now reply.now self.old }
    {
        self.is_open = is_open_after(self.is_open, op, reply);
        self.is_own = unless_ended(self.is_own, reply);
        self.stands = unless_ended(self.stands, reply);
        self.touched = touched_after(self.touched, op);
        note_txn(&mut self.txn, op, reply);
    }

    /// Commits the open transaction, and gives what is told of that: nothing of a statement's own.
    pub fn commit<P: Port>(&mut self, alloc: Global, port: &mut P) -> TokenList
        requires ready { Ready self.old (P.past port.old) }
        requires counted { is_closed self.old.txn ≡ false }
        ensures asked { (place : ℕ) × Exchanged (P.past port.old) (P.past port.new) Commit self.old (Ended place) self.new }
        ensures tokens { result ≡ unless_own self.old.is_own (transaction_committed self.old.txn.serial) }
        ensures ready { Ready self.new (P.past port.new) }
    {
        let is_own = self.is_own();
        match port.ask(&Op::Commit, self.settings().manner) {
            Reply::Ended { .. } => committed_tokens(alloc, is_own, self.end()),
            _ => unreachable!(),
        }
    }

    /// Rolls the open transaction back, and gives what is told of that: nothing of a statement's own.
    pub fn roll_back<P: Port>(&mut self, alloc: Global, port: &mut P) -> TokenList
        requires ready { Ready self.old (P.past port.old) }
        requires counted { is_closed self.old.txn ≡ false }
        ensures asked { (place : ℕ) × Exchanged (P.past port.old) (P.past port.new) Rollback self.old (Ended place) self.new }
        ensures tokens { result ≡ unless_own self.old.is_own (transaction_rolled_back self.old.txn.serial) }
        ensures ready { Ready self.new (P.past port.new) }
    {
        let is_own = self.is_own();
        match port.ask(&Op::Rollback, self.settings().manner) {
            Reply::Ended { .. } => rolled_back_tokens(alloc, is_own, self.end()),
            _ => unreachable!(),
        }
    }

    /// The open transaction has ended. Gives what was kept for that.
    fn end(&mut self) -> Option<Endings>
        ensures ended { self.new ≡ ended_all self.old }
        ensures kept { KeepsEndings self.old.txn self.old.is_own result }
    {
        self.is_open = false;
        self.is_own = false;
        self.stands = false;
        self.touched = false;
        self.txn.ended();
        self.endings.take()
    }

    // ---- what it has come to

    /// What the batch has sent.
    pub fn tokens(&self) -> &[Token]
        ensures tokens { result.now ≡ self.now.tokens }
        ensures fit { FitTokens [] self.now.tokens }
    {
        self.tokens.as_slice()
    }

    /// Whether a transaction is open.
    pub fn in_transaction(&self) -> bool
        ensures { result ≡ self.now.is_open }
    {
        self.is_open
    }

    /// Whether the open transaction is a statement's own, whose triggers run.
    pub fn is_own(&self) -> bool
        ensures { result ≡ self.now.is_own }
    {
        self.is_own
    }

    /// Whether the transaction in which a statement worked whose triggers run still stands.
    pub fn stands(&self) -> bool
        ensures stands { result ≡ self.now.stands }
        ensures begun { result ≡ true → self.now.is_open ≡ true }
    {
        self.stands
    }

    /// Whether the mark of a statement whose triggers run is there.
    pub fn has_mark(&self, mark: u64) -> bool
        ensures { result ≡ has_mark mark self.now }
    {
        self.txn
            .saves
            .as_slice()
            .iter()
            .any(|savepoint| savepoint.mark == mark)
    }

    /// Whether something was fetched or written since the last Relax.
    pub fn is_touched(&self) -> bool
        ensures { result ≡ self.now.touched }
    {
        self.touched
    }

    /// Whether no statement may begin.
    pub fn is_spent(&self) -> bool
        ensures { result ≡ (self.now.statements_left == 0) }
    {
        self.statements_left == 0
    }

    /// Whether tokens are more bytes than the batch may still send.
    pub fn is_full(&self, tokens: &TokenList) -> bool
        ensures { result ≡ nat_lt self.now.bytes_left (size_of tokens.now) }
    {
        u64::from(self.bytes_left) < bytes_of_tokens(tokens.as_slice())
    }

    /// Whether what is told of a commit is more bytes than the batch may still send.
    pub fn is_commit_full(&self, alloc: Global) -> bool
        requires { is_closed self.now.txn ≡ false }
        ensures { result ≡ nat_lt self.now.bytes_left (size_of (unless_own self.now.is_own (transaction_committed self.now.txn.serial))) }
    {
        if self.is_own {
            return self.is_full(&TokenList::none(alloc));
        }
        match &self.endings {
            Some(endings) => self.is_full(endings.committed()),
            None => unreachable!(),
        }
    }

    /// Whether what is told of a rollback is.
    pub fn is_rollback_full(&self, alloc: Global) -> bool
        requires { is_closed self.now.txn ≡ false }
        ensures { result ≡ nat_lt self.now.bytes_left (size_of (unless_own self.now.is_own (transaction_rolled_back self.now.txn.serial))) }
    {
        if self.is_own {
            return self.is_full(&TokenList::none(alloc));
        }
        match &self.endings {
            Some(endings) => self.is_full(endings.rolled_back()),
            None => unreachable!(),
        }
    }

    /// The variables of the batch.
    pub fn vars(&self) -> &Vars
        ensures vars { result.now ≡ self.now.vars }
        ensures typed { All HasItsType self.now.vars }
    {
        self.vars.law_typed();
        &self.vars
    }

    /// `@@ROWCOUNT`
    pub(crate) fn row_count(&self) -> u32
        ensures count { result ≡ self.now.row_count }
        ensures most { result ≤ 2147483647 }
    {
        self.row_count
    }

    /// `@@ERROR`
    pub(crate) fn error(&self) -> i32
        ensures { result ≡ self.now.error }
    {
        self.error
    }

    /// `@@FETCH_STATUS`
    pub(crate) fn fetch_status(&self) -> i32
        ensures { result ≡ self.now.fetch_status }
    {
        self.fetch_status
    }

    /// The cursors.
    pub fn cursors(&self) -> &Cursors<Select>
        ensures { result.now ≡ self.now.cursors }
    {
        &self.cursors
    }

    /// What SET has set.
    pub fn settings(&self) -> Settings
        ensures { result ≡ self.now.settings }
    {
        self.settings
    }

    /// How many transactions are open in one another.
    pub fn count(&self) -> u32
        ensures count { result ≡ self.now.txn.count }
        ensures most { result ≤ 2147483647 }
    {
        self.txn.count
    }

    /// `XACT_STATE()`
    pub(crate) fn xact_state(&self) -> i64
        ensures { result ≡ xact_state self.now.txn }
    {
        self.txn.state()
    }

    /// Whether the transaction can only be rolled back.
    pub fn is_doomed(&self) -> bool
        ensures { result ≡ self.now.txn.doomed }
    {
        self.txn.doomed
    }

    /// Whether BEGIN TRANSACTION has begun none.
    pub fn is_closed(&self) -> bool
        ensures { result ≡ is_closed self.now.txn }
    {
        self.txn.count == 0
    }

    /// Whether one more BEGIN TRANSACTION would be too many.
    pub fn is_nested_most(&self) -> bool
        ensures { result ≡ nat_le count_limit self.now.txn.count }
    {
        GREATEST_COUNT <= self.txn.count
    }

    /// The number of the transaction on the connection.
    pub fn serial(&self) -> u64
        ensures { result ≡ self.now.txn.serial }
    {
        self.txn.serial
    }

    /// The number of the next transaction.
    pub fn next_serial(&self) -> u64
        ensures { result ≡ next_serial self.now.txn }
    {
        self.txn.serial.saturating_add(1)
    }

    /// The number of the transaction that is open behind a BEGIN.
    pub fn begun_serial(&self) -> u64
        ensures { result ≡ begun_serial self.now.txn }
    {
        if self.txn.count == 0 {
            self.next_serial()
        } else {
            self.txn.serial
        }
    }

    /// What a COMMIT does: whether it is the outermost, or the number of its error.
    pub fn commit_answer(&self) -> Result<bool, i32>
        ensures { result ≡ commit_answer self.now.txn }
    {
        if self.txn.count == 0 {
            Err(3902)
        } else if self.txn.doomed {
            Err(3930)
        } else {
            Ok(self.txn.count == 1)
        }
    }

    /// Why a SAVE is refused.
    pub fn save_refusal(&self) -> Option<i32>
        ensures { result ≡ save_refusal self.now.txn }
    {
        if self.txn.count == 0 {
            Some(49005)
        } else if self.txn.doomed {
            Some(3930)
        } else {
            None
        }
    }

    /// What a ROLLBACK to a name goes back to, or the number of its error.
    pub fn rollback_answer(&self, name: &Units) -> Result<BackKind, i32>
        ensures { result ≡ rollback_answer name.now self.now.txn }
    {
        self.txn.rollback_to(name)
    }

    // ---- its steps

    /// A batch begins, with its variables.
    pub fn begin_batch(&mut self, vars: Vars)
        ensures { self.new ≡ made (begins vars) self.old }
    {
        self.tokens.clear();
        self.bytes_left = BATCH_LIMIT - END_SIZE;
        self.statements_left = STATEMENT_LIMIT;
        self.vars = vars;
    }

    /// One statement more begins.
    pub fn begin_statement(&mut self)
        requires { 0 < self.old.statements_left }
        ensures { self.new ≡ made counts self.old }
    {
        self.statements_left -= 1;
    }

    /// What is asked from here on is relaxed at the statement's end.
    pub fn touch(&mut self)
        ensures { self.new ≡ made touches self.old }
    {
        self.touched = true;
    }

    /// Sends tokens; all of them, or none where memory is wanting.
    pub fn send(&mut self, tokens: TokenList) -> Result<(), Memory>
        ensures sent { IfOk result (λ _. self.new ≡ made (sends tokens) self.old) }
        ensures kept { IfErr result (λ _. self.new ≡ self.old) }
    {
        let behind = left_behind(self.bytes_left, tokens.as_slice());
        let mut tokens = tokens.into_vec();
        self.tokens.append(&mut tokens)?;
        self.bytes_left = behind;
        Ok(())
    }

    /// Sets `@@ROWCOUNT`.
    pub fn tell_rows(&mut self, rows: u64)
        ensures { self.new ≡ made (tells_rows rows) self.old }
    {
        self.row_count = counted(rows);
    }

    /// Sets `@@ERROR`.
    pub fn tell_error(&mut self, number: i32)
        ensures { self.new ≡ made (tells_error number) self.old }
    {
        self.error = number;
    }

    /// Assigns the variable at a place, where there is one.
    pub(crate) fn assign(&mut self, place: u16, value: Value)
        requires fits { FitsAt place value self.old.vars }
        ensures { self.new ≡ made (assigns place value) self.old }
    {
        if place < self.vars.count() {
            self.vars.set(place, value);
        }
    }

    /// Assigns variables one after another.
    pub fn assign_all(&mut self, sets: Vec<(u16, Value)>)
        requires fits { SetsFit self.old.vars sets.items }
        ensures { self.new ≡ assigned_all sets.items self.old }
    {
        for (place, value) in sets {
            self.assign(place, value);
        }
    }

    /// SET sets.
    pub fn set(&mut self, settings: Settings)
        ensures { self.new ≡ made (sets settings) self.old }
    {
        self.settings = settings;
    }

    /// BEGIN TRANSACTION begins or counts one, with what is told at its end.
    pub fn open(&mut self, name: Option<Units>, endings: Endings)
        requires most { self.old.txn.count < count_limit }
        requires number { endings ≡ begun_serial self.old.txn }
        ensures { self.new ≡ made (opens name) self.old }
    {
        self.txn.begin(name);
        self.endings = Some(endings);
    }

    /// COMMIT counts one less.
    pub fn close_one(&mut self)
        ensures { self.new ≡ made closes_one self.old }
    {
        let _ = self.txn.commit();
    }

    /// SAVE names a mark; where memory is wanting it is not named.
    pub fn save(&mut self, name: Units, mark: u64) -> Result<(), Memory>
        requires { save_refusal self.old.txn ≡ None }
        ensures saved { IfOk result (λ _. self.new ≡ made (saves name mark) self.old) }
        ensures kept { IfErr result (λ _. self.new ≡ self.old) }
    {
        match self.txn.save(name, mark) {
            Ok(()) => Ok(()),
            Err(_) => Err(Memory),
        }
    }

    /// A write was taken back to a mark, or to none: the savepoints behind it are no more.
    pub fn cut_to(&mut self, mark: Option<u64>)
        ensures { self.new ≡ cut_to mark self.old }
    {
        match mark {
            Some(mark) => self.txn.cut(mark),
            None => {}
        }
    }

    /// A transaction that is open can only be rolled back from now on.
    pub fn doom(&mut self)
        ensures { self.new ≡ made dooms self.old }
    {
        if self.txn.count != 0 {
            self.txn.doomed = true;
        }
    }

    /// The variables of a procedure or trigger come in the place of those around it, or those come back.
    pub fn stand_with(&mut self, vars: Vars) -> Vars
        ensures made { self.new ≡ made (stands_with vars) self.old }
        ensures before { result ≡ self.old.vars }
    {
        std::mem::replace(&mut self.vars, vars)
    }

    /// The triggers of a statement with this mark begin to run.
    pub fn begin_firing(&mut self, alloc: Global, mark: u64) -> Result<(), Memory>
        requires begun { self.old.is_open ≡ true }
        ensures fired { IfOk result (λ _. self.new ≡ made (fires_from mark) self.old) }
        ensures kept { IfErr result (λ _. self.new ≡ self.old) }
    {
        let is_own = self.txn.count == 0;
        self.txn.fire(alloc, mark)?;
        self.is_own = self.is_own || is_own;
        self.stands = true;
        Ok(())
    }

    /// They have run, where the transaction around stood or didn't.
    pub fn end_firing(&mut self, mark: u64, stood: bool)
        ensures { self.new ≡ made (fired_from mark stood) self.old }
    {
        if self.stands {
            self.txn.fired(mark);
        }
        self.stands = stood && self.stands;
    }

    /// DECLARE of a cursor keeps its select, unless that is refused.
    pub fn declare_cursor(&mut self, name: Units, select: Select) -> Result<(), CursorFault>
        ensures came { Gives result (list.declare_answer name self.old.cursors) }
        ensures declared { IfOk result (λ _. self.new ≡ made (declares name select) self.old) }
        ensures kept { IfErr result (λ _. self.new ≡ self.old) }
    {
        self.cursors.declare(name, select)
    }

    /// OPEN gives a cursor its rows; one that is open keeps its own.
    pub fn fill_cursor(&mut self, name: &Units, kinds: Vec<SqlType>, rows: Vec<Row>)
        requires { All (HasKinds kinds.items) rows.items }
        ensures { self.new ≡ made (fills name.now kinds.items rows.items) self.old }
    {
        let _ = self.cursors.fill(name, kinds, rows);
    }

    /// FETCH takes the next row of a cursor, unless that is refused.
    pub fn fetch_next(&mut self, name: &Units) -> Result<Option<Row>, CursorFault>
        ensures came { result ≡ list.next_of name.now self.old.cursors }
        ensures fetched { self.new ≡ made (fetches name.now) self.old }
    {
        self.cursors.next(name)
    }

    /// Sets `@@FETCH_STATUS`.
    pub fn tell_fetch(&mut self, status: i32)
        ensures { self.new ≡ made (tells_fetch status) self.old }
    {
        self.fetch_status = status;
    }

    /// CLOSE drops the rows of a cursor, unless that is refused.
    pub fn close_cursor(&mut self, name: &Units) -> Result<(), CursorFault>
        ensures came { result ≡ list.close_answer name.now self.old.cursors }
        ensures closed { self.new ≡ made (shuts name.now) self.old }
    {
        self.cursors.close(name)
    }

    /// DEALLOCATE drops a cursor, unless that is refused.
    pub fn remove_cursor(&mut self, name: &Units) -> Result<(), CursorFault>
        ensures came { result ≡ list.remove_answer name.now self.old.cursors }
        ensures removed { self.new ≡ made (removes name.now) self.old }
    {
        self.cursors.remove(name)
    }
}

/// What an exchange makes of a transaction's savepoints and counts.
fn note_txn(txn: &mut TxnState, op: &Op, reply: &Reply)
    ensures { txn.new ≡ txn_after txn.old op.now reply.now }
{
    match (op, reply) {
        (_, Reply::Ended { .. }) => txn.ended(),
        (Op::BackTo { mark }, Reply::Done) => txn.cut(*mark),
        _ => {}
    }
}

/// What is told of a commit: nothing of a statement's own transaction.
fn committed_tokens(alloc: Global, is_own: bool, endings: Option<Endings>) -> TokenList
    ensures { (serial : ℕ) → (is_own ≡ false → endings ≡ Some serial) → result ≡ unless_own is_own (transaction_committed serial) }
{
    if is_own {
        return TokenList::none(alloc);
    }
    match endings {
        Some(endings) => endings.into_committed(),
        None => TokenList::none(alloc),
    }
}

/// What is told of a rollback: nothing of a statement's own transaction.
fn rolled_back_tokens(alloc: Global, is_own: bool, endings: Option<Endings>) -> TokenList
    ensures { (serial : ℕ) → (is_own ≡ false → endings ≡ Some serial) → result ≡ unless_own is_own (transaction_rolled_back serial) }
{
    if is_own {
        return TokenList::none(alloc);
    }
    match endings {
        Some(endings) => endings.into_rolled_back(),
        None => TokenList::none(alloc),
    }
}

/// Whether a transaction is open behind a reply to an operation.
fn is_open_after(before: bool, op: &Op, reply: &Reply) -> bool
    requires { CanReply op.now reply.now }
    ensures { result ≡ is_open_after before op.now reply.now }
{
    match reply {
        Reply::Began => true,
        Reply::Ended { .. } => false,
        _ => before,
    }
}

/// What was so before, unless the reply ends a transaction.
fn unless_ended(before: bool, reply: &Reply) -> bool
    ensures { result ≡ unless_ended before reply.now }
{
    match reply {
        Reply::Ended { .. } => false,
        _ => before,
    }
}

/// Whether something was fetched or written behind an operation, since the last Relax.
fn touched_after(before: bool, op: &Op) -> bool
    ensures { result ≡ touched_after before op.now }
{
    match op {
        Op::Fetch { .. } => true,
        Op::Insert { .. } => true,
        Op::Replace { .. } => true,
        Op::Erase { .. } => true,
        Op::Mark => before,
        Op::BackTo { .. } => before,
        _ => false,
    }
}

/// How many bytes may still be sent behind tokens.
fn left_behind(bytes_left: u32, tokens: &[Token]) -> u32
    ensures { result ≡ bytes_left - size_of tokens.now }
{
    let size = bytes_of_tokens(tokens);
    if size < u64::from(bytes_left) {
        bytes_left - size as u32
    } else {
        0
    }
}

/// A count of rows as `@@ROWCOUNT` has it.
fn counted(rows: u64) -> u32
    ensures { result ≡ min rows 2147483647 }
{
    if rows < u64::from(GREATEST_COUNT) {
        rows as u32
    } else {
        GREATEST_COUNT
    }
}
