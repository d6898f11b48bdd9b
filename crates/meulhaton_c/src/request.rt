// Requests read, for C: `meulhaton::request`.
ghost use Rattle.std.specs.Prelude.{◌≡◌};
ghost use Rattle.values.specs.Decode.{decode};
ghost use Rattle.requests.specs.Requests.{request_of};
ghost use Rattle.meulhaton_fields.specs.Requests.{request_answer};
ghost use Rattle.meulhaton.specs.Wire.{in_version};

use meulhaton_fields::request::RequestRead;

#[unsafe(no_mangle)]
pub extern "C" fn meulhaton_read_request(minor: u8, message: &[u8]) -> RequestRead
    ensures { result ≡ request_answer (in_version minor (λ v. request_of v (decode message.now))) }
{
    meulhaton::request::meulhaton_read_request(minor, message)
}
