// The requests, and tests of a request. Document 01, "Requests".
ghost use Rattle.std.specs.Prelude.{◌≡◌, ◌&&◌};
ghost use Rattle.states.specs.Requests.{kind_of, fetches, in_range, asked_by, asked, named};
ghost use Rattle.bolt.specs.Ranges.{minus_one_or};
ghost use Rattle.bolt.specs.Requests.{tag as tag_of};

// A request as it arrives. Only DISCARD and PULL carry numbers: how many records, and of which stream, where -1 is the latest.
#[derive(Clone, Copy, Debug, PartialEq, Eq)]
pub enum Request {
    Hello,
    Goodbye,
    Reset,
    Run,
    Begin,
    Commit,
    Rollback,
    Discard { n: i64, qid: i64 },
    Pull { n: i64, qid: i64 },
}

// The tags: document 01, "Requests".
pub const HELLO: u8 = 0x01;

pub const GOODBYE: u8 = 0x02;

pub const RESET: u8 = 0x0F;

pub const RUN: u8 = 0x10;

pub const BEGIN: u8 = 0x11;

pub const COMMIT: u8 = 0x12;

pub const ROLLBACK: u8 = 0x13;

pub const DISCARD: u8 = 0x2F;

pub const PULL: u8 = 0x3F;

impl Request {
    // A request's tag. A match, since variants with fields have no discriminants.
    pub fn tag(self) -> u8
        ensures { result ≡ tag_of (kind_of self) }
    {
        match self {
            Request::Hello => HELLO,
            Request::Goodbye => GOODBYE,
            Request::Reset => RESET,
            Request::Run => RUN,
            Request::Begin => BEGIN,
            Request::Commit => COMMIT,
            Request::Rollback => ROLLBACK,
            Request::Discard { .. } => DISCARD,
            Request::Pull { .. } => PULL,
        }
    }

    // Whether a request fetches from a stream.
    pub fn fetches(self) -> bool
        ensures { result ≡ fetches self }
    {
        matches!(self, Request::Discard { .. } | Request::Pull { .. })
    }

    // The stream that a request is for, None for the latest; a request that fetches nothing names none.
    pub fn asked(self) -> Option<u64>
        ensures { result ≡ asked self }
    {
        // Two arms: of one that binds a signed number in two patterns rattle says that it cannot prove it, by a bug of its own.
        match self {
            Request::Discard { qid, .. } => stream_of(qid),
            Request::Pull { qid, .. } => stream_of(qid),
            _ => None,
        }
    }

    // Whether a request's numbers are in their ranges.
    pub fn is_in_range(self) -> bool
        ensures { result ≡ in_range self }
    {
        // Two arms, as above.
        match self {
            Request::Discard { n, qid } => are_in_range(n, qid),
            Request::Pull { n, qid } => are_in_range(n, qid),
            _ => true,
        }
    }
}

// The stream that a qid names: -1 means the latest.
pub fn stream_of(qid: i64) -> Option<u64>
    ensures { result ≡ asked_by qid }
{
    u64::try_from(qid).ok()
}

// The number of the stream that is asked for, by the number that the next one gets.
pub fn number_of(asked: Option<u64>, next: u64) -> u64
    ensures { result ≡ named asked next }
{
    asked.unwrap_or(next.saturating_sub(1))
}

// Whether n and qid are in their ranges.
pub fn are_in_range(n: i64, qid: i64) -> bool
    ensures { result ≡ (minus_one_or 1 n && minus_one_or 0 qid) }
{
    bolt::is_count(n) && bolt::is_qid(qid)
}
