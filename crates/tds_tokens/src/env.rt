//! The kinds of ENVCHANGE ([MS-TDS] 2.2.7.9).

ghost use Rattle.std.specs.Prelude.{◌≡◌};
ghost use Rattle.tds_tokens.specs.Numbers.{env_database, env_packet_size, env_collation, env_begin, env_commit, env_rollback};

/// The database, a text.
pub const ENV_DATABASE: u8 = 1;

/// The size of packets, a text.
pub const ENV_PACKET_SIZE: u8 = 4;

/// The collation, bytes.
pub const ENV_COLLATION: u8 = 7;

/// A transaction begins, with its descriptor as bytes.
pub const ENV_BEGIN: u8 = 8;

/// It is committed.
pub const ENV_COMMIT: u8 = 9;

/// It is rolled back.
pub const ENV_ROLLBACK: u8 = 10;

/// The constants are the numbers of their names.
pub fn law_env_kinds()
    ensures database { ENV_DATABASE ≡ env_database }
    ensures packet_size { ENV_PACKET_SIZE ≡ env_packet_size }
    ensures collation { ENV_COLLATION ≡ env_collation }
    ensures began { ENV_BEGIN ≡ env_begin }
    ensures committed { ENV_COMMIT ≡ env_commit }
    ensures rolled_back { ENV_ROLLBACK ≡ env_rollback }
{}
