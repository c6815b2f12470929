//! Laws of batches and replies. Each is a function with no effect, whose contract is the law.

ghost use Rattle.std.specs.Prelude.{◌≡◌, ℕ, List, []};
ghost use Rattle.std.specs.List.{AllByRecursion, AllZip};
ghost use Rattle.tds_packets.specs.Stream.{Splits};
ghost use Rattle.tds_tokens.specs.declared.token.Token.{Token};
ghost use Rattle.session_server.specs.Response.{Response};
ghost use Rattle.session_server.specs.Talk.{Bytes};
ghost use Rattle.transfer_load.specs.Batches.{IsShort, batches_bytes, batches_messages};
ghost use Rattle.transfer_load.specs.Replies.{AreReplies};
ghost use Rattle.transfer_load.specs.Responses.{Tells};

/// The bytes of batches are the messages of their texts.
pub fn law_batches()
    ensures { (texts : List (List ℕ)) → AllByRecursion IsShort texts → Splits (batches_bytes texts) (batches_messages 0 texts) [] }
{}

/// Bytes are one list of replies at most.
pub fn law_one_reading()
    ensures { (bytes : List ℕ) (replies others : List (List Token)) → AreReplies bytes replies → AreReplies bytes others → replies ≡ others }
{}

/// The bytes of responses are the replies of their tokens.
pub fn law_responses()
    ensures { (spid : ℕ) (responses : List Response) (replies : List (List Token)) → AllZip Tells responses replies → AreReplies (Bytes spid responses) replies }
{}
