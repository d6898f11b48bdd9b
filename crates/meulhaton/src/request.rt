// Requests read, as numbers: the request as the connection is told of it, and its fields.
ghost use Rattle.std.specs.Prelude.{◌≡◌};
ghost use Rattle.values.specs.Decode.{decode};
ghost use Rattle.requests.specs.Requests.{request_of};
ghost use Rattle.meulhaton_fields.specs.Requests.{request_answer};
ghost use Rattle.meulhaton.specs.Wire.{in_version};

use crate::wire;
use meulhaton_fields::request::RequestRead;
use refusal::{Fault, Refusal};

// What a message asks for: `requests::read::read_request`, in the version of this minor number.
pub fn meulhaton_read_request(minor: u8, message: &[u8]) -> RequestRead
    ensures { result ≡ request_answer (in_version minor (λ v. request_of v (decode message.now))) }
{
    // One call of `from`, so that the compiler puts it in line: passed on from call to call, the 272 bytes are cleared and copied each time.
    let found = match wire::version_of(minor) {
        Some(version) => requests::read::read_request(message, version),
        None => Err(Fault::from(Refusal::InvalidRecord)),
    };
    RequestRead::from(found)
}
