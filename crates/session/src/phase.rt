// A session: how far it has come, and the record of its connection.
ghost use Rattle.std.specs.Prelude.{◌≡◌};
ghost use Rattle.session.specs.Session.{fresh as fresh_session};

use handshake::version::Version;
use record::record::Connection;

#[derive(Clone, Copy, Debug, PartialEq, Eq)]
pub enum Phase {
    // The next line is the handshake.
    Awaiting,
    // The version is agreed on: each line is a frame.
    Open(Version),
}

#[derive(Clone, Copy)]
pub struct Session {
    pub phase: Phase,
    pub connection: Connection,
}

// A session to which nothing has come yet.
pub fn fresh() -> Session
    ensures { result ≡ fresh_session }
{
    Session {
        phase: Phase::Awaiting,
        connection: record::record::fresh(),
    }
}
