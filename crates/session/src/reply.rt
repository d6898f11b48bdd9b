// What one more line leads to, written as it comes, but for the refusal at its end.
ghost use Rattle.std.specs.Prelude.{◌≡◌, ◌≤◌, length};
ghost use Rattle.session.specs.Room.{enough};
ghost use Rattle.session.specs.Receiving.{handshake_in};
ghost use Rattle.session.specs.Session.{greeting, next_of};
ghost use Rattle.session.specs.Private.Replies.{Replies};
ghost use Rattle.session.specs.declared.phase.Phase.TheVariants.{Awaiting};

use super::phase::{Phase, Session};
use super::{receive, serve, write};
use refusal::Refusal;
use serving::Ending;

// Why a line's reply ended, and where what was written of it ends. What a refusal leads to is still to do.
#[derive(Clone, Copy, Debug, PartialEq, Eq)]
pub struct Reply {
    pub ending: Result<Ending, Refusal>,
    pub end: usize,
}

impl Reply {
    // Nothing is written.
    pub fn silent(ending: Result<Ending, Refusal>) -> Reply
        ensures { result ≡ record { ending = ending; end = 0 } }
    {
        Reply { ending, end: 0 }
    }
}

// The line of the handshake: the version agreed on is sent, or four zeros where there is none in common.
fn greet(session: &mut Session, line: &[u8], out: &mut [u8]) -> Reply
    requires room { enough ≤ length out.old }
    requires awaiting { session.old.phase ≡ Awaiting }
    ensures { Replies (greeting session.old.connection (handshake_in line.now)) result session.new out.old out.new }
{
    match receive::receive_handshake(line) {
        Ok(version) => {
            session.phase = Phase::Open(version);
            Reply {
                ending: Ok(Ending::Idle),
                end: write::put_line(&version.to_bytes(), out, 0),
            }
        }
        Err(why) => {
            let mut end = 0;
            if why == Refusal::NoCommonVersion {
                end = write::put_line(&[0; 4], out, 0);
            }
            Reply {
                ending: Err(why),
                end,
            }
        }
    }
}

// What one more line leads to: the handshake first, then one frame a line.
pub fn reply_to(session: &mut Session, line: &[u8], out: &mut [u8]) -> Reply
    requires { enough ≤ length out.old }
    ensures { Replies (next_of session.old line.now) result session.new out.old out.new }
{
    let Phase::Open(version) = session.phase else {
        return greet(session, line, out);
    };
    match receive::receive(version, line) {
        Ok(Some(request)) => serve::request(&mut session.connection, request, out),
        Ok(None) => Reply::silent(Ok(Ending::Idle)),
        Err(why) => Reply::silent(Err(why)),
    }
}
