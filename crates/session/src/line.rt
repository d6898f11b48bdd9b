// One more line of a session: what it sends is written as lines, whole or not at all.
ghost use Rattle.std.specs.Prelude.{◌≡◌, ◌≤◌, length};
ghost use Rattle.refusal.specs.Answer.{left, told, mapped};
ghost use Rattle.refusal.specs.Numbers.{number_of};
ghost use Rattle.serving.specs.Serving.{after_refusal};
ghost use Rattle.session.specs.Room.{enough};
ghost use Rattle.session.specs.Session.{next_of, handling, telling, told_handled, going_on, putting};
ghost use Rattle.session.specs.Private.Replies.{Responds};

use super::phase::Session;
use super::{reply, write};
use record::record::Connection;
use refusal::Refusal;
use serving;
use serving::Ending;
use slices;

// More than one line can send.
const ENOUGH: usize = 4400;

// What one more line comes to: how many characters were written, and whether the run goes on.
#[derive(Clone, Copy, Debug, PartialEq, Eq)]
pub enum Handled {
    GoesOn(usize),
    // With a refusal, or because the connection closed.
    Ended(usize),
}

impl Handled {
    // How many characters were written.
    fn characters(self) -> usize
        ensures { result ≡ (told_handled self).characters }
    {
        match self {
            Handled::GoesOn(n) | Handled::Ended(n) => n,
        }
    }
}

// After some refusals the caller closes.
fn leave(connection: &mut Connection, why: Refusal)
    ensures { connection.new ≡ after_refusal (number_of why) connection.old }
{
    connection.control = serving::after_refusal(
        connection.control,
        &connection.streams,
        &connection.queue,
        why,
    );
}

// Handles a line where there is room for any.
fn respond(session: &mut Session, line: &[u8], out: &mut [u8]) -> Handled
    requires { enough ≤ length out.old }
    ensures { Responds (next_of session.old line.now) result session.new out.old out.new }
{
    let reply = reply::reply_to(session, line, out);
    let ending = match reply.ending {
        Ok(ending) => ending,
        Err(why) => {
            leave(&mut session.connection, why);
            let end = write::put_line(&[why.number()], out, reply.end);
            return Handled::Ended(end);
        }
    };
    match ending {
        Ending::Idle => Handled::GoesOn(reply.end),
        Ending::Closed => Handled::Ended(reply.end),
    }
}

// Handles one more line, given without its end. What it sends stands as lines at the front of `out`, whose rest stays. A refusal is one of
// the things sent, and ends the run; only where `out` is too short for them all is the line itself refused, with 21, and nothing changed.
// Where it may be too short, what is sent goes to memory of its own first.
pub fn handle(session: &mut Session, line: &[u8], out: &mut [u8]) -> Result<Handled, Refusal>
    ensures answer { mapped told_handled (told result) ≡ telling (handling (length out.old) session.old line.now) }
    ensures goes_on { session.new ≡ left going_on (handling (length out.old) session.old line.now) session.old }
    ensures filled { out.new ≡ left putting (handling (length out.old) session.old line.now) out.old }
{
    if ENOUGH <= out.len() {
        return Ok(respond(session, line, out));
    }
    let saved = *session;
    let mut buffer = [0u8; ENOUGH];
    let handled = respond(session, line, &mut buffer);
    let size = handled.characters();
    if out.len() < size {
        *session = saved;
        return Err(Refusal::NoRoom);
    }
    slices::copy(&buffer, 0, size, out, 0);
    Ok(handled)
}
