// States and requests by their numbers: a state has its place in 003's list, a request its tag, with n and qid of DISCARD and PULL and zeros
// else. A number that names none is taken for the last of them; whether it names one is a question of its own.
ghost use Rattle.std.specs.Prelude.{◌≡◌, leb};
ghost use Rattle.record.specs.Names.{state_of, request_of, is_request, count_of, qid_of};

use states::request;
use states::request::Request;
use states::state::State;

// No From: a conversion would not say what becomes of a number that names no state.
pub fn state_of(number: u8) -> State
    ensures { result ≡ state_of number }
{
    match number {
        0 => State::Connected,
        1 => State::Ready,
        2 => State::Streaming,
        3 => State::TxReady,
        4 => State::TxStreaming,
        5 => State::Failed,
        6 => State::Interrupted,
        _ => State::Defunct,
    }
}

pub fn request_of(kind: u8, n: i64, qid: i64) -> Request
    ensures { result ≡ request_of kind n qid }
{
    match kind {
        request::HELLO => Request::Hello,
        request::GOODBYE => Request::Goodbye,
        request::RESET => Request::Reset,
        request::RUN => Request::Run,
        request::BEGIN => Request::Begin,
        request::COMMIT => Request::Commit,
        request::ROLLBACK => Request::Rollback,
        request::DISCARD => Request::Discard { n, qid },
        _ => Request::Pull { n, qid },
    }
}

// Whether a number is a request's tag.
pub fn is_request(kind: u8) -> bool
    ensures { result ≡ is_request kind }
{
    request_of(kind, 0, 0).tag() == kind
}

// A request's n and qid.
pub fn numbers_of(request: Request) -> (i64, i64)
    ensures { result ≡ (count_of request, qid_of request) }
{
    // Two arms, as in `states::request`.
    match request {
        Request::Discard { n, qid } => (n, qid),
        Request::Pull { n, qid } => (n, qid),
        _ => (0, 0),
    }
}
