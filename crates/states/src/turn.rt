// What becomes of a request whose turn comes, by the rows of 003's appendix, with those that document 02, request 2, adds for FAILED. Whatever no
// row names closes the connection. Document 01, "Connection record", Take.
ghost use Rattle.std.specs.Prelude.{◌≡◌};
ghost use Rattle.states.specs.Requests.{kind_of};
ghost use Rattle.states.specs.Appendix.{hands_over, works};
ghost use Rattle.states.specs.Table.{ignores};

use super::request::Request;
use super::state::State;

#[derive(Clone, Copy, Debug, PartialEq, Eq)]
pub enum Turn {
    // The connection closes, with no summary.
    Closes,
    // A RESET has its SUCCESS.
    Resets,
    Ignored,
    // To the engine.
    Handed,
    // A RUN for which no stream can be opened.
    Full,
    // A PULL or DISCARD that names no open stream.
    Unknown,
}

// Whether a request is handed to the engine in a state.
#[tactic(auto, unfolding(crate::specs::Appendix::hands_over))]
pub fn hands_over(state: State, request: Request) -> bool
    ensures { result ≡ hands_over state (kind_of request) }
{
    match request {
        Request::Hello => state == State::Connected,
        Request::Goodbye | Request::Reset => false,
        Request::Run => state.runs(),
        Request::Begin => state == State::Ready,
        Request::Commit | Request::Rollback => state == State::TxReady,
        Request::Discard { .. } | Request::Pull { .. } => state.is_streaming(),
    }
}

// Whether a request is of a kind that some state hands over, except HELLO.
#[tactic(auto, unfolding(crate::specs::Appendix::hands_over, crate::specs::Appendix::handed_somewhere, crate::specs::Appendix::works))]
pub fn is_work(request: Request) -> bool
    ensures { result ≡ works (kind_of request) }
{
    !matches!(request, Request::Hello | Request::Goodbye | Request::Reset)
}

// A stopped connection ignores work.
#[tactic(auto, unfolding(crate::specs::Table::ignores))]
pub fn is_ignored(state: State, request: Request) -> bool
    ensures { result ≡ ignores state (kind_of request) }
{
    state.is_stopped() && is_work(request)
}
