// Requests as the server reads them. A String is given by where its content lies in the message, a List or a Dictionary by the offset
// of its marker, and an Integer by its value. What may be absent is an Option.
use entries::view::Mode;
use markers::extent::Span;

// What RUN and BEGIN say of their transaction.
#[derive(Clone, Copy, Debug, PartialEq, Eq)]
pub struct Transaction {
    pub bookmarks: Option<usize>,
    pub tx_timeout: Option<i64>,
    pub tx_metadata: Option<usize>,
    pub mode: Option<Mode>,
    pub db: Option<Span>,
}

// What DISCARD and PULL ask for: `n` records, -1 for all, of the stream `qid`, -1 for the latest.
#[derive(Clone, Copy, Debug, PartialEq, Eq)]
pub struct Batch {
    pub n: i64,
    pub qid: i64,
}

#[derive(Clone, Copy, Debug, PartialEq, Eq)]
pub enum Request {
    Hello {
        user_agent: Span,
        scheme: Option<Span>,
        principal: Option<Span>,
        credentials: Option<Span>,
        routing: Option<usize>,
    },
    Goodbye,
    Reset,
    Run {
        query: Span,
        parameters: usize,
        transaction: Transaction,
    },
    Begin(Transaction),
    Commit,
    Rollback,
    Discard(Batch),
    Pull(Batch),
}
