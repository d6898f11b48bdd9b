// What of a request the connection is told: its kind and, of DISCARD and PULL, the numbers. Document 01, "Connection record", "Arrive".
ghost use Rattle.std.specs.Prelude.{◌≡◌};
ghost use Rattle.summaries.specs.Arrivals.{arrival_of};

use requests::request::{Batch, Request};

// The request as it arrives at the connection. A function and no From: both types are of other crates.
pub fn arrival_of(request: Request) -> states::request::Request
    ensures { result ≡ arrival_of request }
{
    match request {
        Request::Hello { .. } => states::request::Request::Hello,
        Request::Goodbye => states::request::Request::Goodbye,
        Request::Reset => states::request::Request::Reset,
        Request::Run { .. } => states::request::Request::Run,
        Request::Begin(_) => states::request::Request::Begin,
        Request::Commit => states::request::Request::Commit,
        Request::Rollback => states::request::Request::Rollback,
        Request::Discard(Batch { n, qid }) => states::request::Request::Discard { n, qid },
        Request::Pull(Batch { n, qid }) => states::request::Request::Pull { n, qid },
    }
}
