// Serving a request: it arrives, and then turn follows turn until the connection is idle or closed. Each summary is written as it comes, so
// that none is held.
ghost use Rattle.std.specs.Prelude.{◌≡◌, ◌≤◌, length};
ghost use Rattle.states.specs.Answers.{told_taken};
ghost use Rattle.serving.specs.Serving.{turn_of, serving, turns, served};
ghost use Rattle.session.specs.Room.{enough};
ghost use Rattle.session.specs.Private.Replies.{Sends};

use super::reply::Reply;
use super::write;
use connection;
use record::record::Connection;
use refusal::Refusal;
use serving;
use serving::Ending;
use states::answers::{Arrival, Taken};
use states::request::Request;

// One turn of the record where it lies.
fn turn(connection: &mut Connection) -> Result<Taken, Refusal>
    ensures { (connection.new ≡ (turn_of connection.old).connection) × (told_taken result ≡ (turn_of connection.old).answer) }
{
    let after = serving::turn(
        connection.control,
        &mut connection.streams,
        &connection.queue,
    );
    connection.control = after.control;
    after.answer
}

// Turn after turn. No more than 32 requests wait, so that the turns never run out before the connection is idle or closed.
fn serve(connection: &mut Connection, out: &mut [u8]) -> Reply
    requires { enough ≤ length out.old }
    ensures { Sends (serving turns connection.old) connection.new result out.old out.new }
{
    let mut end = 0;
    for _ in 0..33u64 {
        let taken = match turn(connection) {
            Ok(taken) => taken,
            Err(why) => {
                return Reply {
                    ending: Err(why),
                    end,
                };
            }
        };
        match taken {
            Taken::Answered(answered) => {
                end = write::put_summary(answered.summary, out, end);
            }
            Taken::Idle | Taken::Handed { .. } => {
                return Reply {
                    ending: Ok(Ending::Idle),
                    end,
                };
            }
            Taken::Closed => {
                return Reply {
                    ending: Ok(Ending::Closed),
                    end,
                };
            }
        }
    }
    Reply {
        ending: Ok(Ending::Idle),
        end,
    }
}

// A request arrives and is served, with all that waited before it.
pub fn request(connection: &mut Connection, request: Request, out: &mut [u8]) -> Reply
    requires { enough ≤ length out.old }
    ensures { Sends (served connection.old request) connection.new result out.old out.new }
{
    match connection::arrive(connection, request) {
        Ok(Arrival::Queued) => serve(connection, out),
        Ok(Arrival::Closed) => Reply::silent(Ok(Ending::Closed)),
        Err(why) => Reply::silent(Err(why)),
    }
}
