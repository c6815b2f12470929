//! What statements ask of their port, in order, and what they tell where it refuses an operation.

ghost use Rattle.std.specs.Prelude.{◌≡◌, false, IfOk};
ghost use Rattle.engine_core.specs.Solo.{solo_open};

use crate::served::reply_to;
use crate::watched::{Answer, Watched};
use engine_core::SoloPort;
use std::alloc::{AllocError, Global};
use std::test::Fail;
use value_types::Memory;

const TABLE: &str = "CREATE TABLE t (k INT NOT NULL PRIMARY KEY, v INT NOT NULL)";

const ROWS: &str =
    "CREATE TABLE t (k INT NOT NULL PRIMARY KEY, v INT NOT NULL); INSERT t VALUES (1, 10), (2, 20), (3, 30)";

/// `u` has an index part for its UNIQUE, which is its part 1, and one for its FOREIGN KEY.
const KEYS: &str =
    "CREATE TABLE p (k INT NOT NULL PRIMARY KEY); CREATE TABLE u (k INT NOT NULL PRIMARY KEY, v INT UNIQUE, f INT REFERENCES p); INSERT p VALUES (1), (2); INSERT u VALUES (1, 10, 1)";

/// Statements of each form. The first line has whether they find nothing, the table `t`, rows in it, too, or the tables `p` and
/// `u` with rows, and the command of their DONE; the second has the text. Behind that stands what is asked, and behind `=>` what
/// is told. Memory may be wanting at all that they ask but BackTo, Relax and the end; each fetch and each insertion may be refused
/// for a lock, or the session may have fallen.
const STATEMENTS: &str = "nothing 0
CREATE TABLE t (k INT NOT NULL PRIMARY KEY)
Begin
Mark
Insert objects
Relax
Commit
=>
done 0 0 0,
---
table 0
CREATE TABLE t (k INT NOT NULL PRIMARY KEY)
Begin
Mark
Insert objects
BackTo
Relax
Rollback
=>
error 2714, done 2 0 0,
---
rows C3
INSERT INTO t VALUES (4, 40)
Begin
Fetch objects At Range
Fetch objects First Range
Fetch objects Past Range
Mark
Insert t
Relax
Commit
=>
done 11 C3 1, done 0 0 0,
---
rows C3
INSERT INTO t VALUES (2, 30)
Begin
Fetch objects At Range
Fetch objects First Range
Fetch objects Past Range
Mark
Insert t
BackTo
Relax
Rollback
=>
error 2627, done 3 C3 0, done 0 0 0,
---
nothing C3
INSERT INTO t VALUES (2, 30)
Begin
Fetch objects At Range
Relax
Rollback
=>
error 208, done 2 0 0,
---
rows C1
SELECT k, v FROM t
Begin
Fetch objects At Range
Fetch t First Row
Fetch t Past Row
Fetch t Past Row
Fetch t Past Row
Relax
Commit
=>
columns, row 1 10, row 2 20, row 3 30, done 11 C1 3, done 0 0 0,
---
rows C1
SELECT 1 FROM t, objects, nosuch
Begin
Fetch objects At Range
Relax
Rollback
=>
error 208, done 2 0 0,
---
rows C1
SELECT MAX(a.k), (SELECT MIN(v) FROM t WHERE k = 2) FROM t a, t b
Begin
Fetch objects At Range
Fetch t At Row
Fetch t First Row
Fetch t Past Row
Fetch t Past Row
Fetch t Past Row
Fetch t First Row
Fetch t Past Row
Fetch t Past Row
Fetch t Past Row
Relax
Commit
=>
columns, row 3 20, done 11 C1 1, done 0 0 0,
---
rows C1
SELECT v FROM t WHERE v > 5 AND k = 2
Begin
Fetch objects At Range
Fetch t At Row
Relax
Commit
=>
columns, row 20, done 11 C1 1, done 0 0 0,
---
rows C1
SELECT v FROM t WHERE k > 1
Begin
Fetch objects At Range
Fetch t Past Row
Fetch t Past Row
Fetch t Past Row
Relax
Commit
=>
columns, row 20, row 30, done 11 C1 2, done 0 0 0,
---
rows C1
SELECT v FROM t WHERE k BETWEEN 1 AND 2
Begin
Fetch objects At Range
Fetch t At Row
Fetch t Past Row
Fetch t Past Row
Relax
Commit
=>
columns, row 10, row 20, done 11 C1 2, done 0 0 0,
---
rows C1
SELECT v FROM t WHERE k >= 2 AND k < 2
Begin
Fetch objects At Range
Fetch t At Row
Relax
Commit
=>
columns, done 11 C1 0, done 0 0 0,
---
rows C1
SELECT v FROM t WHERE k = 2 OR k = 3
Begin
Fetch objects At Range
Fetch t First Row
Fetch t Past Row
Fetch t Past Row
Fetch t Past Row
Relax
Commit
=>
columns, row 20, row 30, done 11 C1 2, done 0 0 0,
---
rows C5
UPDATE t SET v = 21 WHERE k = 2
Begin
Fetch objects At Range
Fetch objects First Range
Fetch objects Past Range
Fetch t At Row
Mark
Replace t
BackTo
Relax
Rollback
=>
error 701, done 3 C5 0, done 0 0 0,
---
rows C1
SELECT k, nosuch FROM t
Begin
Fetch objects At Range
Relax
Rollback
=>
error 207, done 2 0 0,
---
rows C1
SELECT 1 / (k - 2) FROM t
Begin
Fetch objects At Range
Fetch t First Row
Fetch t Past Row
Fetch t Past Row
Fetch t Past Row
Relax
Rollback
=>
error 8134, done 3 C1 0, done 0 0 0,
---
rows C1
SELECT 1 / 0
=>
error 8134, done 3 C1 0, done 0 0 0,
---
keys C3
INSERT INTO u VALUES (2, 20, 2)
Begin
Fetch objects At Range
Fetch objects First Range
Fetch objects Past Range
Fetch objects Past Range
Mark
Insert u
Insert u.1
Insert u.2
Fetch u.1 At Range
Fetch u.1 Past Range
Fetch p At Range
Relax
Commit
=>
done 11 C3 1, done 0 0 0,
---
keys C3
INSERT INTO u VALUES (2, 10, 2)
Begin
Fetch objects At Range
Fetch objects First Range
Fetch objects Past Range
Fetch objects Past Range
Mark
Insert u
Insert u.1
Insert u.2
Fetch u.1 At Range
Fetch u.1 Past Range
Fetch u.1 Past Range
BackTo
Relax
Rollback
=>
error 2627, done 3 C3 0, done 0 0 0,
---
keys C3
INSERT INTO u VALUES (2, 20, 3)
Begin
Fetch objects At Range
Fetch objects First Range
Fetch objects Past Range
Fetch objects Past Range
Mark
Insert u
Insert u.1
Insert u.2
Fetch u.1 At Range
Fetch u.1 Past Range
Fetch p At Range
BackTo
Relax
Rollback
=>
error 547, done 3 C3 0, done 0 0 0,
---
keys C5
UPDATE u SET v = 30, f = 2 WHERE k = 1
Begin
Fetch objects At Range
Fetch objects First Range
Fetch objects Past Range
Fetch objects Past Range
Fetch u At Row
Fetch u.1 At Range
Fetch u.2 At Range
Mark
Replace u
BackTo
Relax
Rollback
=>
error 701, done 3 C5 0, done 0 0 0,
---
keys C5
UPDATE u SET v = v WHERE k = 1
Begin
Fetch objects At Range
Fetch objects First Range
Fetch objects Past Range
Fetch objects Past Range
Fetch u At Row
Mark
Replace u
BackTo
Relax
Rollback
=>
error 701, done 3 C5 0, done 0 0 0,
---
table C3
INSERT INTO objects VALUES (2, 30)
=>
error 208, done 2 0 0,
";

/// Batches over `t` with its rows: the number of the operation that is answered otherwise, and how; the text; and what is told.
const BATCHES: &str =
    "3 gone|SELECT k, v FROM t|columns, row 2 20, row 3 30, done 11 C1 2, done 0 0 0,
4 gone|SELECT k, v FROM t|columns, row 1 10, row 3 30, done 11 C1 2, done 0 0 0,
5 gone|SELECT k, v FROM t|columns, row 1 10, row 2 20, done 11 C1 2, done 0 0 0,
4 unfit|SELECT k, v FROM t|columns, row 1 10, row 3 30, done 11 C1 2, done 0 0 0,
2 gone|SELECT k, v FROM t|error 208, done 2 0 0,
2 unfit|SELECT k, v FROM t|error 208, done 2 0 0,
2 unfit|INSERT t VALUES (4, 40)|error 208, done 2 0 0,
3 fall|BEGIN TRAN; SELECT k FROM t|change 8, error 1205, change 10, done 2 0 0,
3 lock|BEGIN TRAN; SELECT k FROM t|change 8, error 1222, done 3 C1 0, done 0 0 0,
3 lock|BEGIN TRAN; SELECT k FROM t; SELECT XACT_STATE()|change 8, error 1222, done 3 C1 0, columns, row 1, done 11 C1 1, done 0 0 0,
3 fall|BEGIN TRAN; BEGIN TRY SELECT k FROM t END TRY BEGIN CATCH SELECT ERROR_NUMBER(), XACT_STATE() END CATCH; ROLLBACK|change 8, columns, row 1205 -1, done 11 C1 1, change 10, done 0 0 0,
3 lock|BEGIN TRAN; BEGIN TRY SELECT k FROM t END TRY BEGIN CATCH SELECT ERROR_NUMBER(), XACT_STATE() END CATCH; ROLLBACK|change 8, columns, row 1222 1, done 11 C1 1, change 10, done 0 0 0,
3 lock|SET XACT_ABORT ON; BEGIN TRAN; SELECT k FROM t|change 8, error 1222, change 10, done 2 0 0,
6 lock|BEGIN TRAN; INSERT t VALUES (4, 40); SELECT k FROM t WHERE k = 1|change 8, error 1222, done 3 C3 0, columns, row 1, done 11 C1 1, done 0 0 0,
6 fall|BEGIN TRAN; INSERT t VALUES (4, 40); SELECT k FROM t|change 8, error 1205, change 10, done 2 0 0,
3 fall|BEGIN TRY SELECT k FROM t END TRY BEGIN CATCH SELECT ERROR_NUMBER(), XACT_STATE() END CATCH|columns, row 1205 0, done 11 C1 1, done 0 0 0,
3 fall|BEGIN TRAN; BEGIN TRY SELECT k FROM t END TRY BEGIN CATCH THROW END CATCH|change 8, error 1205, error 3998, change 10, done 2 0 0,
3 lock|IF EXISTS (SELECT k FROM t) PRINT N'a'; PRINT N'b'|error 1222, done 3 0 0, other, done 0 0 0,";

/// A statement, what it finds, what it asks and what it tells.
#[derive(Clone, Copy)]
struct Statement<'a> {
    found: &'a str,
    command: &'a str,
    text: &'a str,
    asked: &'a str,
    told: &'a str,
}

/// The statement of some lines.
fn statement_of(lines: &str) -> Option<Statement<'_>> {
    let (head, behind) = lines.split_once('\n')?;
    let (text, behind) = behind.split_once('\n')?;
    let (asked, told) = behind.split_once("=>\n")?;
    let (found, command) = head.split_once(' ')?;
    Some(Statement {
        found,
        command,
        text,
        asked,
        told,
    })
}

/// A port over an engine that has what a statement is to find.
fn port_for(alloc: Global, found: &str) -> Result<Watched, Memory>
    ensures { IfOk result (λ port. (port.port.session ≡ 1) × (solo_open port.port ≡ false)) }
{
    let mut port = Watched {
        port: SoloPort::new(alloc, 1),
        asked: String::new(alloc),
        count: 0,
        number: 0,
        answer: Answer::Plain,
        alloc,
    };
    match found {
        "table" => reply_to(alloc, &mut port, TABLE)?,
        "rows" => reply_to(alloc, &mut port, ROWS)?,
        "keys" => reply_to(alloc, &mut port, KEYS)?,
        _ => String::new(alloc),
    };
    Ok(port)
}

/// What a batch is told whose operation of this number is answered so.
fn told_of(
    alloc: Global,
    port: &mut Watched,
    text: &str,
    number: u32,
    answer: Answer,
) -> Result<String, Memory>
    requires { (port.old.port.session ≡ 1) × (solo_open port.old.port ≡ false) }
    ensures { (port.new.port.session ≡ 1) × (solo_open port.new.port ≡ false) }
{
    port.asked.clear();
    port.count = 0;
    port.number = number;
    port.answer = answer;
    reply_to(alloc, port, text)
}

/// Whether a statement asks what it is to ask, and tells what it is to tell.
fn is_done(alloc: Global, port: &mut Watched, statement: Statement<'_>) -> Result<bool, Memory>
    requires { (port.old.port.session ≡ 1) × (solo_open port.old.port ≡ false) }
{
    let told = told_of(alloc, port, statement.text, 0, Answer::Plain)?;
    let is_told = statement.told.strip_suffix('\n') == Some(told.as_str());
    Ok(is_told && port.asked.as_str() == statement.asked)
}

/// What is told of a statement that is refused so.
fn refusal_told(alloc: Global, answer: Answer, command: &str) -> Result<String, AllocError> {
    match answer {
        Answer::Memory => format!(in alloc; "error 701, done 3 {command} 0, done 0 0 0,"),
        Answer::Lock => format!(in alloc; "error 1222, done 3 {command} 0, done 0 0 0,"),
        _ => String::from_str(alloc, "error 1205, done 2 0 0,"),
    }
}

/// Whether a statement whose operation of this number is refused so has done nothing, and is done when it is not.
fn is_refused(
    alloc: Global,
    statement: Statement<'_>,
    number: u32,
    answer: Answer,
) -> Result<bool, Memory> {
    let mut port = port_for(alloc, statement.found)?;
    let told = told_of(alloc, &mut port, statement.text, number, answer)?;
    let is_told = told == refusal_told(alloc, answer, statement.command)?;
    let is_asked = port.asked == asked_until(alloc, statement.asked, number)?;
    Ok(is_told && is_asked && is_done(alloc, &mut port, statement)?)
}

/// The first operations of a statement, of which the last is refused, and what is asked then: BackTo only
/// behind a mark, Relax only behind a fetch or an insertion.
fn asked_until(alloc: Global, asked: &str, number: u32) -> Result<String, Memory> {
    let mut front = String::new(alloc);
    let mut is_touched = false;
    let mut is_marked = false;
    for line in asked.lines().take(number as usize) {
        is_marked = front.as_str().ends_with("Mark\n") || is_marked;
        is_touched = is_touched || asks_lock(line);
        front.push_str(line)?;
        front.push('\n')?;
    }
    if is_marked {
        front.push_str("BackTo\n")?;
    }
    if is_touched && number > 1 {
        front.push_str("Relax\n")?;
    }
    if number > 1 {
        front.push_str("Rollback\n")?;
    }
    Ok(front)
}

/// Whether an operation asks for a lock.
fn asks_lock(line: &str) -> bool {
    line.starts_with("Fetch") || line.starts_with("Insert")
}

/// Whether a statement does what it is to do, and nothing where one of its operations is refused.
fn holds(alloc: Global, statement: Statement<'_>) -> Result<bool, Memory> {
    let mut port = port_for(alloc, statement.found)?;
    let mut holds = is_done(alloc, &mut port, statement)?;
    let mut number = 0u32;
    for line in statement.asked.lines() {
        if line == "BackTo" || line == "Relax" {
            break;
        }
        number = number.saturating_add(1);
        holds = holds && is_refused(alloc, statement, number, Answer::Memory)?;
        if asks_lock(line) {
            holds = holds
                && is_refused(alloc, statement, number, Answer::Lock)?
                && is_refused(alloc, statement, number, Answer::Fall)?;
        }
    }
    Ok(holds)
}

#[test]
fn statements_ask_these_operations(rt: HostRuntime) -> Result<(), Fail> {
    for lines in STATEMENTS.split("---\n") {
        let statement = statement_of(lines).ok_or(lines)?;
        assert!(rt; holds(rt.alloc(), statement)?, "{lines}");
    }
    Ok(())
}

/// The number of an operation, and how it is answered.
fn answer_of(words: &str) -> (u32, Answer) {
    let (number, word) = words.split_once(' ').unwrap_or((words, words));
    let answer = match word {
        "gone" => Answer::Gone,
        "unfit" => Answer::Unfit,
        "lock" => Answer::Lock,
        "fall" => Answer::Fall,
        _ => Answer::Plain,
    };
    (number.parse().unwrap_or(0), answer)
}

/// Whether a batch tells what its line says.
fn is_told(alloc: Global, line: &str) -> Result<bool, Memory> {
    let (words, behind) = line.split_once('|').unwrap_or((line, line));
    let (text, wanted) = behind.split_once('|').unwrap_or((line, line));
    let (number, answer) = answer_of(words);
    let mut port = port_for(alloc, "rows")?;
    let told = told_of(alloc, &mut port, text, number, answer)?;
    Ok(told.as_str() == wanted)
}

#[test]
fn batches_tell_these_answers(rt: HostRuntime) -> Result<(), Fail> {
    for line in BATCHES.lines() {
        assert!(rt; is_told(rt.alloc(), line)?, "{line}");
    }
    Ok(())
}
