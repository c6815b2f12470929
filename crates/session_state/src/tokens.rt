//! The tokens that answer a statement.

ghost use Rattle.std.specs.Prelude.{◌≡◌, ◌++◌, ◌∷◌, ◌<◌, ◌≤◌, [], All, length, take, IfOk, Some, pos};
ghost use Rattle.error_table.specs.Text.{text_with};
ghost use Rattle.tsql_tree.specs.declared.statement.Form.{out-Form};
ghost use Rattle.session_state.specs.Sendable.{IsFit, IsResult};
ghost use Rattle.tds_tokens.specs.declared.token.Token.TheVariants.{ReturnStatus};
ghost use Rattle.batch_meaning.specs.Databases.{context_tokens};
ghost use Rattle.batch_meaning.specs.Meaning.{told_tokens};
ghost use Rattle.batch_meaning.specs.Raised.{error_token, named, raised_at, raised_in};
ghost use Rattle.batch_meaning.specs.Selecting.{messages};
ghost use Rattle.batch_meaning.specs.Tokens.{command_of, descriptor, last_done, procedure_done, result_tokens, row_tokens, statement_done, statement_failed, transaction_begun, transaction_committed, transaction_rolled_back};
ghost use Rattle.batch_meaning.specs.Values.{is_message};

use crate::sendable::TokenList;
use batch_meaning::{Failure, Raised};
use error_table::{Action, RaisedBy, parts_of, row_of};
use sqlite_items::Boxed;
use std::alloc::Global;
use tds_tokens::{
    Bytes, COMMAND_DELETE, COMMAND_INSERT, COMMAND_NONE, COMMAND_SELECT, COMMAND_UPDATE,
    ColumnList, DONE_COUNT, DONE_ERROR, DONE_FINAL, DONE_MORE, DoneKind, ENV_BEGIN, ENV_COMMIT,
    ENV_DATABASE, ENV_ROLLBACK, Notice, Token,
};
use tsql_tree::Form;
use value_types::{Memory, Row, Units};

/// How many units the name of a procedure, trigger or parameter has at most, `max_name` of clause_binder/specs/Scope.
pub const LONGEST_NAME: usize = 128;

// ---- what a statement sends

/// A result: its columns, its rows and their count.
pub fn result_tokens(
    alloc: Global,
    kind: DoneKind,
    no_count: bool,
    columns: ColumnList,
    rows: Vec<Row>,
) -> Result<TokenList, Memory>
    requires fit { IsResult kind no_count columns rows.items }
    ensures { IfOk result (λ tokens. tokens ≡ result_tokens kind no_count columns rows.items) }
{
    Ok(TokenList::new(tokens_of(alloc, kind, no_count, columns, rows)?))
}

/// The same as tokens alone.
fn tokens_of(
    alloc: Global,
    kind: DoneKind,
    no_count: bool,
    columns: ColumnList,
    rows: Vec<Row>,
) -> Result<Vec<Token>, Memory>
    ensures { IfOk result (λ tokens. tokens.items ≡ result_tokens kind no_count columns rows.items) }
{
    let count = rows.len() as u64;
    let mut tokens = vec![in alloc; Token::Columns(columns)]?;
    push_rows(&mut tokens, rows)?;
    tokens.push(statement_done(kind, no_count, COMMAND_SELECT, count))?;
    Ok(tokens)
}

/// Adds a token for each row.
fn push_rows(tokens: &mut Vec<Token>, rows: Vec<Row>) -> Result<(), Memory>
    ensures { IfOk result (λ _. tokens.new.items ≡ tokens.old.items ++ row_tokens rows.items) }
{
    tokens.reserve(rows.len())?;
    for row in rows {
        tokens.push(Token::Row(row))?;
    }
    Ok(())
}

/// So many rows were written.
pub fn written_tokens(
    alloc: Global,
    kind: DoneKind,
    no_count: bool,
    command: u16,
    rows: u64,
) -> Result<TokenList, Memory>
    ensures { IfOk result (λ tokens. tokens ≡ statement_done kind no_count command rows ∷ []) }
{
    Ok(TokenList::new(vec![in alloc; statement_done(kind, no_count, command, rows)]?))
}

// ---- DONE

/// The end of a statement of a command, where more follows, with its count unless none is told.
fn statement_done(kind: DoneKind, no_count: bool, command: u16, rows: u64) -> Token
    ensures { result ≡ statement_done kind no_count command rows }
{
    if no_count {
        done(kind, DONE_MORE, command, 0)
    } else {
        done(kind, DONE_MORE | DONE_COUNT, command, rows)
    }
}

/// A statement's end with an error, where more follows.
fn statement_failed(kind: DoneKind, command: u16) -> Token
    ensures { result ≡ statement_failed kind command }
{
    done(kind, DONE_MORE | DONE_ERROR, command, 0)
}

/// The last token of a batch or of a call by RPC, by whether an error ended it.
pub fn last_tokens(alloc: Global, kind: DoneKind, failed: bool) -> Result<TokenList, Memory>
    ensures { IfOk result (λ tokens. tokens ≡ last_done kind failed ∷ []) }
{
    Ok(TokenList::new(vec![in alloc; last_done(kind, failed)]?))
}

fn last_done(kind: DoneKind, failed: bool) -> Token
    ensures { result ≡ last_done kind failed }
{
    if failed {
        done(kind, DONE_ERROR, COMMAND_NONE, 0)
    } else {
        done(kind, DONE_FINAL, COMMAND_NONE, 0)
    }
}

/// A DONE.
fn done(kind: DoneKind, status: u16, command: u16, rows: u64) -> Token
    ensures { result ≡ Token.Finished kind status command rows }
{
    Token::Finished {
        kind,
        status,
        command,
        rows,
    }
}

/// The end of a procedure: its status, and DONEPROC.
pub fn procedure_done(alloc: Global, status: i32) -> Result<TokenList, Memory>
    ensures { IfOk result (λ tokens. tokens ≡ procedure_done status) }
{
    Ok(TokenList::new(vec![in alloc;
        Token::ReturnStatus(status),
        done(DoneKind::Proc, DONE_MORE, COMMAND_NONE, 0),
    ]?))
}

/// An error in front of the end of its procedure.
pub fn error_and_done(alloc: Global, raised: &Raised, status: i32) -> Result<TokenList, Memory>
    ensures { IfOk result (λ tokens. tokens ≡ error_token raised.now ∷ procedure_done status) }
{
    Ok(TokenList::new(vec![in alloc;
        Token::Error(notice_of(alloc, raised)?),
        Token::ReturnStatus(status),
        done(DoneKind::Proc, DONE_MORE, COMMAND_NONE, 0),
    ]?))
}

/// What is sent for a procedure that has returned to a call by RPC: its status, and behind it these tokens.
pub fn returned_tokens(
    alloc: Global,
    status: i32,
    mut values: Vec<Token>,
) -> Result<TokenList, Memory>
    requires { IsFit values.items }
    ensures { IfOk result (λ tokens. tokens ≡ ReturnStatus status ∷ values.items) }
{
    let mut tokens = vec![in alloc; Token::ReturnStatus(status)]?;
    tokens.append(&mut values)?;
    Ok(TokenList::new(tokens))
}

/// An error in front of such tokens.
pub fn error_in_front(
    alloc: Global,
    raised: &Raised,
    behind: TokenList,
) -> Result<TokenList, Memory>
    ensures { IfOk result (λ tokens. tokens ≡ error_token raised.now ∷ behind) }
{
    let mut tokens = vec![in alloc; Token::Error(notice_of(alloc, raised)?)]?;
    let mut behind = behind.into_vec();
    tokens.append(&mut behind)?;
    Ok(TokenList::new(tokens))
}

/// The command that a DONE names.
pub fn command_of(form: &Form) -> u16
    ensures { result ≡ command_of (out-Form form.now) }
{
    match form {
        Form::Select(_) => COMMAND_SELECT,
        Form::Insert(_, _, _) => COMMAND_INSERT,
        Form::Update(_, _, _) => COMMAND_UPDATE,
        Form::Delete(_, _) => COMMAND_DELETE,
        _ => COMMAND_NONE,
    }
}

// ---- transactions

/// A transaction is begun.
pub fn transaction_begun(alloc: Global, serial: u64) -> Result<TokenList, Memory>
    ensures { IfOk result (λ tokens. tokens ≡ transaction_begun serial ∷ []) }
{
    let token = Token::EnvBytes {
        kind: ENV_BEGIN,
        fresh: descriptor(alloc, serial)?,
        former: Bytes::from(Vec::new(alloc)),
    };
    Ok(TokenList::new(vec![in alloc; token]?))
}

/// A transaction is committed.
pub fn transaction_committed(alloc: Global, serial: u64) -> Result<TokenList, Memory>
    ensures { IfOk result (λ tokens. tokens ≡ transaction_committed serial ∷ []) }
{
    let token = Token::EnvBytes {
        kind: ENV_COMMIT,
        fresh: Bytes::from(Vec::new(alloc)),
        former: descriptor(alloc, serial)?,
    };
    Ok(TokenList::new(vec![in alloc; token]?))
}

/// A transaction is rolled back.
pub fn transaction_rolled_back(alloc: Global, serial: u64) -> Result<TokenList, Memory>
    ensures { IfOk result (λ tokens. tokens ≡ transaction_rolled_back serial ∷ []) }
{
    let token = Token::EnvBytes {
        kind: ENV_ROLLBACK,
        fresh: Bytes::from(Vec::new(alloc)),
        former: descriptor(alloc, serial)?,
    };
    Ok(TokenList::new(vec![in alloc; token]?))
}

/// A transaction's descriptor.
fn descriptor(alloc: Global, serial: u64) -> Result<Bytes, Memory>
    ensures { IfOk result (λ bytes. bytes ≡ descriptor serial) }
{
    Ok(Bytes::from(Vec::from_slice(alloc, &serial.to_le_bytes())?))
}

// ---- the database

/// The number of the message that tells the database.
const CONTEXT_TOLD: i32 = 5701;

/// The context is the one database, as it was.
pub fn context_tokens(alloc: Global, procedure: Units, line: i32) -> Result<TokenList, Memory>
    ensures { IfOk result (λ tokens. tokens ≡ context_tokens procedure line) }
{
    let raised = Raised {
        number: CONTEXT_TOLD,
        class: 0,
        state: 1,
        text: Units::of_ascii(alloc, b"Changed database context to 'main'.")?,
        procedure,
        line,
        by: RaisedBy::Engine,
    };
    let notice = notice_of(alloc, &raised)?;
    let database = Token::EnvText {
        kind: ENV_DATABASE,
        fresh: Units::of_ascii(alloc, b"main")?,
        former: Units::of_ascii(alloc, b"main")?,
    };
    Ok(TokenList::new(vec![in alloc; database, Token::Info(notice)]?))
}

// ---- errors and messages

/// What is told of an error, by what it ends.
pub fn told_tokens(
    alloc: Global,
    kind: DoneKind,
    action: Action,
    command: u16,
    raised: &Raised,
) -> Result<TokenList, Memory>
    ensures { IfOk result (λ tokens. tokens ≡ told_tokens kind action command raised.now) }
{
    Ok(TokenList::new(tokens_of_error(alloc, kind, action, command, raised)?))
}

/// The same as tokens alone.
fn tokens_of_error(
    alloc: Global,
    kind: DoneKind,
    action: Action,
    command: u16,
    raised: &Raised,
) -> Result<Vec<Token>, Memory>
    ensures told { IfOk result (λ tokens. tokens.items ≡ told_tokens kind action command raised.now) }
    ensures short { IfOk result (λ _. length raised.now.procedure ≤ 128) }
{
    let error = Token::Error(notice_of(alloc, raised)?);
    match action {
        Action::Batch => Ok(vec![in alloc; error]?),
        Action::BatchAndTransaction => Ok(vec![in alloc; error]?),
        Action::Statement => Ok(vec![in alloc; error, statement_failed(kind, command)]?),
        Action::Doom => Ok(vec![in alloc; error, statement_failed(kind, command)]?),
    }
}

/// ERROR alone.
pub fn error_tokens(alloc: Global, raised: &Raised) -> Result<TokenList, Memory>
    ensures { IfOk result (λ tokens. tokens ≡ error_token raised.now ∷ []) }
{
    told_tokens(alloc, DoneKind::Done, Action::Batch, COMMAND_NONE, raised)
}

/// INFO, for what is no error.
pub fn messages(alloc: Global, raised: &Raised) -> Result<TokenList, Memory>
    ensures { IfOk result (λ tokens. tokens ≡ messages raised.now) }
{
    if is_message(raised) {
        let token = Token::Info(notice_of(alloc, raised)?);
        Ok(TokenList::new(vec![in alloc; token]?))
    } else {
        Ok(TokenList::none(alloc))
    }
}

/// Whether it is no error.
pub fn is_message(raised: &Raised) -> bool
    ensures { result ≡ is_message raised.now }
{
    raised.class <= 10
}

/// What is told of an error or a message.
fn notice_of(alloc: Global, raised: &Raised) -> Result<Notice, Memory>
    ensures told { IfOk result (λ notice. notice ≡ record { number = raised.now.number; state = raised.now.state; class = raised.now.class; text = take 2000 raised.now.text; procedure = raised.now.procedure; line = raised.now.line }) }
    ensures short { IfOk result (λ _. length raised.now.procedure ≤ 128) }
{
    let text = raised.text.copy(alloc)?;
    let procedure = procedure_of(alloc, raised)?;
    Ok(Notice::new(
        raised.number,
        raised.state,
        raised.class,
        text,
        procedure,
        raised.line,
    ))
}

/// A copy of the name of the procedure or trigger of an error; of a batch it is empty. One that is longer than a name may be
/// is not told: it is as if memory were wanting.
pub(crate) fn procedure_of(alloc: Global, raised: &Raised) -> Result<Units, Memory>
    ensures name { IfOk result (λ name. name ≡ raised.now.procedure) }
    ensures short { IfOk result (λ _. length raised.now.procedure ≤ 128) }
{
    if LONGEST_NAME < raised.procedure.len() {
        return Err(Memory);
    }
    raised.procedure.copy(alloc)
}

/// ERROR of this number at a line, with state 1 and no procedure, for a name.
pub fn error_of(alloc: Global, number: i32, name: Units, line: i32) -> Result<Token, Memory>
    ensures { IfOk result (λ token. token ≡ error_token (raised_at line (record { number = number; name = Some name }))) }
{
    let failure = Failure {
        number,
        name: Some(name),
    };
    let raised = raised_at(alloc, line, &failure)?;
    Ok(Token::Error(notice_of(alloc, raised.get())?))
}

/// Why a statement at a line failed, as it is raised in a batch.
pub fn raised_at(alloc: Global, line: i32, failure: &Failure) -> Result<Boxed<Raised>, Memory>
    ensures { IfOk result (λ raised. raised ≡ raised_at line failure.now) }
{
    raised_in(alloc, Units::new(alloc), line, failure)
}

/// The same in a procedure or trigger of this name.
pub fn raised_in(
    alloc: Global,
    procedure: Units,
    line: i32,
    failure: &Failure,
) -> Result<Boxed<Raised>, Memory>
    ensures { IfOk result (λ raised. raised ≡ raised_in procedure line failure.now) }
{
    let (class, text) = class_and_text(alloc, failure)?;
    let raised = Raised {
        number: failure.number,
        class,
        state: 1,
        text,
        procedure,
        line,
        by: RaisedBy::Engine,
    };
    Ok(Boxed::new(alloc, raised)?)
}

/// The class and the text of an error.
fn class_and_text(alloc: Global, failure: &Failure) -> Result<(u8, Units), Memory>
    ensures { IfOk result (λ parts. parts ≡ ((raised_at (pos 1) failure.now).class, (raised_at (pos 1) failure.now).text)) }
{
    match row_of(failure.number) {
        Some(row) => Ok((row.class, text_with(alloc, row.text, named(failure))?)),
        None => Ok((16, Units::of_ascii(alloc, b"Not built.")?)),
    }
}

/// What an error names.
fn named(failure: &Failure) -> &[u16]
    ensures { result.now ≡ named failure.now.name }
{
    match &failure.name {
        Some(name) => name.as_slice(),
        None => &[],
    }
}

/// An error's text with a name in its place.
fn text_with(alloc: Global, text: &str, name: &[u16]) -> Result<Units, Memory>
    requires { All (λ byte. byte < 128) text.now }
    ensures { IfOk result (λ units. units ≡ text_with text.now name.now) }
{
    match parts_of(text) {
        Some((before, behind)) => around(alloc, before, name, behind),
        None => Units::of_ascii(alloc, text.as_bytes()),
    }
}

/// A name between two parts of a text, which are ASCII.
fn around(alloc: Global, before: &str, name: &[u16], behind: &str) -> Result<Units, Memory>
    ensures { IfOk result (λ text. text ≡ before.now ++ name.now ++ behind.now) }
{
    let mut units = Vec::new(alloc);
    add_ascii(&mut units, before)?;
    units.extend_from_slice(name)?;
    add_ascii(&mut units, behind)?;
    Ok(Units::from(units))
}

/// Adds the units of an ASCII text.
fn add_ascii(units: &mut Vec<u16>, text: &str) -> Result<(), Memory>
    ensures { IfOk result (λ _. units.new.items ≡ units.old.items ++ text.now) }
{
    for byte in text.as_bytes() {
        units.push(u16::from(*byte))?;
    }
    Ok(())
}
