// Reading requests: document 01, "Requests". The whole message is read first; its fields and entries are then found by peeking at
// offsets, and nothing of it is checked again.
ghost use Rattle.std.specs.Prelude.{◌≡◌, cond, eqb};
ghost use Rattle.refusal.specs.Answer.{returned, refused, told_at};
ghost use Rattle.values.specs.Decode.{decode};
ghost use Rattle.requests.specs.Checks.{complaints};
ghost use Rattle.requests.specs.Requests.{run as runIn, three, tagged, request_of};
ghost use Rattle.requests.specs.Private.Fields.{Answers, Finds};

use crate::extra;
use crate::request::Request;
use entries::view;
use handshake::version::Version;
use refusal::{Fault, Refusal};
use values::head::Head;
use values::walk;

// A request that has no fields.
fn bare(request: Request, fields: usize) -> Result<Request, Fault>
    ensures { told_at result ≡ cond (eqb fields 0) (returned request) (refused 15 0) }
{
    if fields != 0 {
        return Err(Refusal::WrongFieldCount.into());
    }
    Ok(request)
}

// Where the values in the extra at `at` stand, for a request that has no other field.
fn extra_alone(message: &[u8], at: usize, fields: usize) -> Result<[usize; 13], Fault>
    ensures { Finds message.now at fields result }
{
    if fields != 1 {
        return Err(Refusal::WrongFieldCount.into());
    }
    let entries = entries::entries_at(message, at).ok_or(Refusal::WrongKind.at(at))?;
    Ok(entries::find(message, entries))
}

// RUN: the query, the parameters, and the extra, the query at `at`.
fn run(message: &[u8], at: usize, fields: usize) -> Result<Request, Fault>
    ensures { Answers message.now at fields (three (runIn complaints)) result }
{
    if fields != 3 {
        return Err(Refusal::WrongFieldCount.into());
    }
    let query = view::string_at(message, at).ok_or(Refusal::WrongKind.at(at))?;
    let parameters = query.start + query.size;
    entries::entries_at(message, parameters).ok_or(Refusal::WrongKind.at(parameters))?;
    let extra = walk::skip(message, parameters).ok_or(Refusal::WrongKind.at(parameters))?;
    let entries = entries::entries_at(message, extra).ok_or(Refusal::WrongKind.at(extra))?;
    let found = entries::find(message, entries);
    let transaction = extra::transaction(message, &found)?;
    Ok(Request::Run {
        query,
        parameters,
        transaction,
    })
}

// The request of this tag, whose fields lie from `at` on.
fn by_tag(
    message: &[u8],
    version: Version,
    tag: u8,
    at: usize,
    fields: usize,
) -> Result<Request, Fault>
    ensures { Answers message.now at fields (tagged complaints version.minor tag) result }
{
    // The tags as they stand on the wire: document 01, "Requests".
    match tag {
        0x01 => {
            let found = extra_alone(message, at, fields)?;
            extra::hello(message, version, at, &found)
        }
        0x02 => bare(Request::Goodbye, fields),
        0x0F => bare(Request::Reset, fields),
        0x10 => run(message, at, fields),
        0x11 => {
            let found = extra_alone(message, at, fields)?;
            Ok(Request::Begin(extra::transaction(message, &found)?))
        }
        0x12 => bare(Request::Commit, fields),
        0x13 => bare(Request::Rollback, fields),
        0x2F => {
            let found = extra_alone(message, at, fields)?;
            Ok(Request::Discard(extra::batch(message, at, &found)?))
        }
        0x3F => {
            let found = extra_alone(message, at, fields)?;
            Ok(Request::Pull(extra::batch(message, at, &found)?))
        }
        _ => Err(Refusal::UnknownRequest.into()),
    }
}

// Reads a message of this version as a request. Refuses as `values` refuses the value, then with 14 where it is no known request
// structure, with 15 where it has another number of fields, and at the first field or entry that is wrong with 25 where a required entry
// is absent, 26 where it is of another kind and 27 where a number or word is out of its range.
pub fn read_request(message: &[u8], version: Version) -> Result<Request, Fault>
    ensures { told_at result ≡ request_of version.minor (decode message.now) }
{
    let found = values::read::read_message(message)?;
    let Head::Structure { tag, first, count } = found.head else {
        return Err(Refusal::UnknownRequest.into());
    };
    by_tag(message, version, tag, first, count)
}
