// The names of the known entries: document 01, "Requests".

// In checking order, request by request.
#[derive(Clone, Copy, Debug, PartialEq, Eq)]
pub enum Name {
    UserAgent,
    Scheme,
    Principal,
    Credentials,
    Routing,
    Bookmarks,
    TxTimeout,
    TxMetadata,
    Mode,
    Db,
    N,
    Qid,
}
