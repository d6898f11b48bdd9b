// The extras: what each request asks of its Dictionary, entry by entry in the order of document 01, "Requests", wherever they stand in
// the message. `found` says where the value under each known name stands.
ghost use Rattle.std.specs.Prelude.{◌≡◌};
ghost use Rattle.refusal.specs.Answer.{told_at};
ghost use Rattle.requests.specs.Checks.{complaints};
ghost use Rattle.requests.specs.Private.Views.{hello_seen, transaction_seen, batch_seen};
ghost use Rattle.entries.specs.Walk.{entry_in};

use crate::checks;
use crate::request::{Batch, Request, Transaction};
use entries::names::Name;
use entries::view;
use handshake::version::Version;
use refusal::{Fault, Refusal};

// HELLO; `at` is the marker of its extra.
#[tactic(auto, unfolding(crate::specs::Private::Views::hello_seen))]
pub fn hello(
    message: &[u8],
    version: Version,
    at: usize,
    found: &[usize; 13],
) -> Result<Request, Fault>
    ensures { told_at result ≡ hello_seen complaints version.minor at (entry_in message.now found.now) }
{
    let given = checks::string_in(view::entry_under(message, found, Name::UserAgent))?;
    let user_agent = given.ok_or(Refusal::MissingEntry.at(at))?;
    let scheme = checks::string_in(view::entry_under(message, found, Name::Scheme))?;
    let principal = checks::string_in(view::entry_under(message, found, Name::Principal))?;
    let credentials = checks::string_in(view::entry_under(message, found, Name::Credentials))?;
    // Before 4.1 the name is not known, and its entry is passed over.
    let entry = if version >= Version::V4_1 {
        view::entry_under(message, found, Name::Routing)
    } else {
        None
    };
    let routing = checks::dictionary_in(entry)?;
    Ok(Request::Hello {
        user_agent,
        scheme,
        principal,
        credentials,
        routing,
    })
}

// RUN and BEGIN.
#[tactic(auto, unfolding(crate::specs::Private::Views::transaction_seen))]
pub fn transaction(message: &[u8], found: &[usize; 13]) -> Result<Transaction, Fault>
    ensures { told_at result ≡ transaction_seen complaints (entry_in message.now found.now) }
{
    let bookmarks = checks::list_of_strings_in(view::entry_under(message, found, Name::Bookmarks))?;
    let tx_timeout = checks::integer_in(
        view::entry_under(message, found, Name::TxTimeout),
        |number| 0 <= number,
    )?;
    let tx_metadata = checks::dictionary_in(view::entry_under(message, found, Name::TxMetadata))?;
    let mode = checks::mode_in(view::entry_under(message, found, Name::Mode))?;
    let db = checks::string_in(view::entry_under(message, found, Name::Db))?;
    Ok(Transaction {
        bookmarks,
        tx_timeout,
        tx_metadata,
        mode,
        db,
    })
}

// DISCARD and PULL; `at` is the marker of their extra.
#[tactic(auto, unfolding(crate::specs::Private::Views::batch_seen))]
pub fn batch(message: &[u8], at: usize, found: &[usize; 13]) -> Result<Batch, Fault>
    ensures { told_at result ≡ batch_seen complaints at (entry_in message.now found.now) }
{
    let given = checks::integer_in(view::entry_under(message, found, Name::N), bolt::is_count)?;
    let n = given.ok_or(Refusal::MissingEntry.at(at))?;
    let qid = checks::integer_in(view::entry_under(message, found, Name::Qid), bolt::is_qid)?;
    Ok(Batch {
        n,
        qid: qid.unwrap_or(-1),
    })
}
