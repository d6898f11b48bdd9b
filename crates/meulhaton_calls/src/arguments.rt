// What the arguments of the calls name.
ghost use Rattle.std.specs.Prelude.{◌≡◌};
ghost use Rattle.meulhaton_calls.specs.Calls.{arriving, outcome_of, is_outcome};

use meulhaton_fields::request::RequestImage;
use record::names;
use states::answers::Outcome;
use states::request::Request;

// How the engine ended a request: success 0, success with more 1, failure 2.
#[repr(C)]
#[derive(Clone, Copy, Debug, PartialEq, Eq)]
pub struct OutcomeImage {
    pub number: u8,
}

// The request that a kind names. Where it names none, one whose n is out of its range: it is refused with the same number, 27.
pub fn arriving(image: RequestImage) -> Request
    ensures { result ≡ arriving image }
{
    if names::is_request(image.kind) {
        return names::request_of(image.kind, image.n, image.qid);
    }
    Request::Pull { n: 0, qid: 0 }
}

// Whether the number names an outcome. C can pass any number, and `outcome_of` says what each is taken for: so these are two functions, and no
// TryFrom.
pub fn is_outcome(image: OutcomeImage) -> bool
    ensures { result ≡ is_outcome image }
{
    image.number <= 2
}

// The outcome that a number names; one that names none is taken for the last.
pub fn outcome_of(image: OutcomeImage) -> Outcome
    ensures { result ≡ outcome_of image.number }
{
    match image.number {
        0 => Outcome::Success,
        1 => Outcome::More,
        _ => Outcome::Failure,
    }
}
