//! The batches of a load, as a client sends them.

ghost use Rattle.std.specs.Prelude.{◌≡◌, ◌≤◌, ◌<◌, ◌++◌, string_bytes, IfOk, OnOk};
ghost use Rattle.transfer_load.specs.Batches.{account_text, batch_bytes, batch_payload, batches_bytes, closing_texts, create_text, insert_text, opening_texts, or_text, payee, payer, total_text, transfer_text, update_text, where_text, worker_texts};

use outside_io::MemorySink;
use std::alloc::Global;
use tds_packets::{DEFAULT_SIZE, SQL_BATCH, send_message};
use value_types::Memory;

/// How many accounts there are.
const ACCOUNTS: u32 = 100;

/// ALL_HEADERS with a transaction descriptor ([MS-TDS] 2.2.5.3): 22 bytes.
const ALL_HEADERS: [u8; 22] = [
    0x16, 0x00, 0x00, 0x00, 0x12, 0x00, 0x00, 0x00, 0x02, 0x00, 0x00, 0x00, 0x00, 0x00, 0x00, 0x00,
    0x00, 0x00, 0x01, 0x00, 0x00, 0x00,
];

/// The bytes of the batches before the transfers.
pub fn opening_bytes(alloc: Global) -> Result<Vec<u8>, Memory>
    ensures { IfOk result (λ bytes. bytes.items ≡ batches_bytes opening_texts) }
{
    let mut sink = MemorySink::new(alloc, u32::MAX, Vec::new(alloc));
    let create = "CREATE TABLE accounts (id INT NOT NULL PRIMARY KEY, amount BIGINT NOT NULL)";
    put_batch(alloc, create, &mut sink)?;
    put_batch(alloc, insert_text(alloc)?.as_str(), &mut sink)?;
    Ok(sink.into_bytes())
}

/// The bytes of a worker's batches, for so many transfers.
pub fn worker_bytes(alloc: Global, transfers: u32, worker: u32) -> Result<Vec<u8>, Memory>
    requires transfers { transfers ≤ 10000 }
    requires worker { worker < 64 }
    ensures { IfOk result (λ bytes. bytes.items ≡ batches_bytes (worker_texts transfers worker)) }
{
    let mut sink = MemorySink::new(alloc, u32::MAX, Vec::new(alloc));
    for transfer in 0..transfers {
        let (from, to) = (payer(worker, transfer), payee(worker, transfer));
        put_batch(alloc, transfer_text(alloc, from, to)?.as_str(), &mut sink)?;
    }
    Ok(sink.into_bytes())
}

/// The bytes of the batch behind the transfers.
pub fn closing_bytes(alloc: Global) -> Result<Vec<u8>, Memory>
    ensures { IfOk result (λ bytes. bytes.items ≡ batches_bytes closing_texts) }
{
    let mut sink = MemorySink::new(alloc, u32::MAX, Vec::new(alloc));
    put_batch(alloc, "SELECT SUM(amount) FROM accounts", &mut sink)?;
    Ok(sink.into_bytes())
}

/// The text that makes all accounts.
fn insert_text(alloc: Global) -> Result<String, Memory>
    ensures { IfOk result (λ text. string_bytes text ≡ insert_text) }
{
    let mut text = String::from_str(alloc, "INSERT INTO accounts VALUES (1, 10000)")?;
    for k in 0..ACCOUNTS - 1 {
        text.push_str(account_text(alloc, k + 2)?.as_str())?;
    }
    Ok(text)
}

/// The part of that for one account behind the first.
fn account_text(alloc: Global, id: u32) -> Result<String, Memory>
    ensures { IfOk result (λ text. string_bytes text ≡ account_text id) }
{
    let text = format!(in alloc; ", ({id}, 10000)")?;
    Ok(text)
}

/// Which account a worker's transfer takes from.
fn payer(worker: u32, transfer: u32) -> u32
    requires transfer { transfer < 10000 }
    requires worker { worker < 64 }
    ensures { result ≡ payer worker transfer }
{
    1 + (37 * transfer + 11 * worker) % ACCOUNTS
}

/// And which it gives to.
fn payee(worker: u32, transfer: u32) -> u32
    requires transfer { transfer < 10000 }
    requires worker { worker < 64 }
    ensures { result ≡ payee worker transfer }
{
    1 + (payer(worker, transfer) + transfer % 99) % ACCOUNTS
}

/// The text by which one account gives to another.
fn transfer_text(alloc: Global, from: u32, to: u32) -> Result<String, Memory>
    ensures { IfOk result (λ text. string_bytes text ≡ transfer_text from to) }
{
    let mut text = update_text(alloc, from)?;
    text.push_str(where_text(alloc, from)?.as_str())?;
    text.push_str(or_text(alloc, to)?.as_str())?;
    Ok(text)
}

/// Its front.
#[tactic(auto, unfolding(crate::specs::Batches::update_text))]
fn update_text(alloc: Global, from: u32) -> Result<String, Memory>
    ensures { IfOk result (λ text. string_bytes text ≡ update_text from) }
{
    let text = format!(in alloc; "UPDATE accounts SET amount = amount + CASE WHEN id = {from}")?;
    Ok(text)
}

/// What it gives, and to whom not.
#[tactic(auto, unfolding(crate::specs::Batches::where_text))]
fn where_text(alloc: Global, from: u32) -> Result<String, Memory>
    ensures { IfOk result (λ text. string_bytes text ≡ where_text from) }
{
    let text = format!(in alloc; " THEN -1 ELSE 1 END WHERE id = {from}")?;
    Ok(text)
}

/// The other account.
#[tactic(auto, unfolding(crate::specs::Batches::or_text))]
fn or_text(alloc: Global, to: u32) -> Result<String, Memory>
    ensures { IfOk result (λ text. string_bytes text ≡ or_text to) }
{
    let text = format!(in alloc; " OR id = {to}")?;
    Ok(text)
}

/// Sends the batch of a text, which is ASCII.
#[tactic(auto, unfolding(crate::specs::Batches::batch_bytes))]
fn put_batch(alloc: Global, text: &str, sink: &mut MemorySink) -> Result<(), Memory>
    ensures { OnOk result (sink.new.written ≡ sink.old.written ++ batch_bytes text.now) }
{
    let payload = batch_payload(alloc, text.as_bytes())?;
    match send_message(alloc, sink, SQL_BATCH, 0, DEFAULT_SIZE, &payload) {
        Ok(()) => Ok(()),
        Err(_) => Err(Memory),
    }
}

/// What it carries: ALL_HEADERS and the text, each byte of which is a unit.
fn batch_payload(alloc: Global, text: &[u8]) -> Result<Vec<u8>, Memory>
    ensures { IfOk result (λ payload. payload.items ≡ batch_payload text.now) }
{
    let mut payload = Vec::from_slice(alloc, &ALL_HEADERS)?;
    for byte in text {
        payload.extend_from_slice(&u16::from(*byte).to_le_bytes())?;
    }
    Ok(payload)
}
