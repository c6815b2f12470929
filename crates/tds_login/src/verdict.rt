//! Who may log in, and what is answered.

ghost use Rattle.std.specs.Prelude.{◌≡◌, [], IfOk};
ghost use Rattle.std.specs.Fmt.{decimal};
ghost use Rattle.tds_packets.specs.Packets.{default_size};
ghost use Rattle.tds_tokens.specs.Numbers.{env_database, env_packet_size, env_collation};
ghost use Rattle.tds_tokens.specs.Fit.{FitTokens};
ghost use Rattle.tds_tokens.specs.Spelling.{collation, server_name};
ghost use Rattle.tds_tokens.specs.declared.token.Token.TheVariants.{EnvText, EnvBytes, LoginAck};
ghost use Rattle.tds_login.specs.Login.{served_version};
ghost use Rattle.tds_login.specs.Verdict.{judge_login, size_for, has_credentials, is_known, main_database, release, login_reply};

use crate::config::Config;
use crate::login::{Login, TDS_7_4};
use std::alloc::Global;
use tds_packets::{DEFAULT_SIZE, LEAST_SIZE, MOST_SIZE};
use tds_tokens::{
    Bytes, COLLATION, COMMAND_NONE, DONE_FINAL, DoneKind, ENV_COLLATION, ENV_DATABASE,
    ENV_PACKET_SIZE, Token, server_name,
};
use value_types::{Memory, Units};

/// The number of the error where user or password is another.
pub const LOGIN_FAILED: i32 = 18456;

/// The number of the error where there is no such database.
pub const UNKNOWN_DATABASE: i32 = 49011;

/// The release of the server, 15.0.0.0.
const RELEASE: u32 = 0x0F00_0000;

/// The name of the one database.
const MAIN: &str = "main";

/// Its other name.
const MASTER: &str = "master";

/// Judges a login: the size of the packets from then on, in bytes, or the number of the error that refuses
/// it, [`LOGIN_FAILED`] where user or password is another, else [`UNKNOWN_DATABASE`].
#[tactic(auto, unfolding(crate::specs::Verdict::judge_login))]
pub fn judge_login(login: &Login, config: &Config) -> Result<u16, i32>
    ensures { result ≡ judge_login login.now config.now }
{
    if !has_credentials(login, config) {
        return Err(LOGIN_FAILED);
    }
    if !is_known(&login.database) {
        return Err(UNKNOWN_DATABASE);
    }
    Ok(size_for(login.packet_size))
}

/// The tokens that grant a login with packets of this many bytes: ENVCHANGE of database, collation and
/// packet size, LOGINACK and DONE ([MS-TDS] 2.2.7.9, 2.2.7.14, 2.2.7.6). They have a spelling.
#[tactic(auto, using(crate::proofs::Granted::login_reply_fits))]
pub fn login_reply(alloc: Global, size: u16) -> Result<Vec<Token>, Memory>
    ensures tokens { IfOk result (λ tokens. tokens.items ≡ login_reply size) }
    ensures fit { IfOk result (λ tokens. FitTokens [] tokens.items) }
{
    let end = Token::Finished {
        kind: DoneKind::Done,
        status: DONE_FINAL,
        command: COMMAND_NONE,
        rows: 0,
    };
    Ok(vec![in alloc;
        database(alloc)?,
        collation(alloc)?,
        acknowledgement(alloc)?,
        packet_size(alloc, size)?,
        end,
    ]?)
}

/// The database, where there was none before.
fn database(alloc: Global) -> Result<Token, Memory>
    ensures { IfOk result (λ token. token ≡ EnvText env_database main_database []) }
{
    Ok(Token::EnvText {
        kind: ENV_DATABASE,
        fresh: Units::of_ascii(alloc, MAIN.as_bytes())?,
        former: Units::new(alloc),
    })
}

/// The collation, where there was none before.
fn collation(alloc: Global) -> Result<Token, Memory>
    ensures { IfOk result (λ token. token ≡ EnvBytes env_collation collation []) }
{
    Ok(Token::EnvBytes {
        kind: ENV_COLLATION,
        fresh: Bytes::from(Vec::from_slice(alloc, &COLLATION)?),
        former: Bytes::from(Vec::new(alloc)),
    })
}

/// The login is granted.
fn acknowledgement(alloc: Global) -> Result<Token, Memory>
    ensures { IfOk result (λ token. token ≡ LoginAck served_version server_name release) }
{
    Ok(Token::LoginAck {
        version: TDS_7_4,
        program: server_name(alloc)?,
        release: RELEASE,
    })
}

/// The packet size, where it was the default before.
fn packet_size(alloc: Global, size: u16) -> Result<Token, Memory>
    ensures { IfOk result (λ token. token ≡ EnvText env_packet_size (decimal size) (decimal default_size)) }
{
    Ok(Token::EnvText {
        kind: ENV_PACKET_SIZE,
        fresh: digits_of(alloc, size)?,
        former: digits_of(alloc, DEFAULT_SIZE)?,
    })
}

/// The digits of a packet size.
fn digits_of(alloc: Global, size: u16) -> Result<Units, Memory>
    ensures { IfOk result (λ digits. digits ≡ decimal size) }
{
    let digits = format!(in alloc; "{size}")?;
    Units::of_ascii(alloc, digits.as_bytes())
}

/// The user and the password are the configuration's.
fn has_credentials(login: &Login, config: &Config) -> bool
    ensures { result ≡ has_credentials login.now config.now }
{
    login.user == config.user && login.password == config.password
}

/// The database is the one that there is, by one of its names, or none is named.
fn is_known(database: &Units) -> bool
    ensures { result ≡ is_known database.now }
{
    database.is("") || database.is(MAIN) || database.is(MASTER)
}

/// The packet size that is served where this one is asked for.
fn size_for(asked: u32) -> u16
    ensures { result ≡ size_for asked }
{
    if u32::from(LEAST_SIZE) <= asked && asked <= u32::from(MOST_SIZE) {
        asked as u16
    } else {
        DEFAULT_SIZE
    }
}
