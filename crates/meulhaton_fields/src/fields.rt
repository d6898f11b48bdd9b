// The fields of requests, as numbers: C has no Option, so `present` is 1 where a field is there.
ghost use Rattle.std.specs.Prelude.{◌≡◌};
ghost use Rattle.meulhaton_fields.specs.Requests.{span_image, text_image, place_image, number_image, mode_number, transaction_image, fields_of};

use entries::view::Mode;
use markers::extent::Span;
use requests::request::{Request, Transaction};

// A String that may be absent: its content is `size` bytes of the message from `start` on.
#[repr(C)]
#[derive(Clone, Copy, Debug, Default, PartialEq, Eq)]
pub struct TextImage {
    pub present: u8,
    pub start: u64,
    pub size: u64,
}

// A List or a Dictionary that may be absent: the offset of its marker.
#[repr(C)]
#[derive(Clone, Copy, Debug, Default, PartialEq, Eq)]
pub struct PlaceImage {
    pub present: u8,
    pub offset: u64,
}

// An Integer that may be absent.
#[repr(C)]
#[derive(Clone, Copy, Debug, Default, PartialEq, Eq)]
pub struct NumberImage {
    pub present: u8,
    pub value: i64,
}

// What HELLO says.
#[repr(C)]
#[derive(Clone, Copy, Debug, Default, PartialEq, Eq)]
pub struct HelloImage {
    pub user_agent: TextImage,
    pub scheme: TextImage,
    pub principal: TextImage,
    pub credentials: TextImage,
    pub routing: PlaceImage,
}

// What RUN says.
#[repr(C)]
#[derive(Clone, Copy, Debug, Default, PartialEq, Eq)]
pub struct RunImage {
    pub query: TextImage,
    pub parameters: PlaceImage,
}

// What RUN and BEGIN say of their transaction. The mode: 1 is "r", 2 is "w", 0 is absent.
#[repr(C)]
#[derive(Clone, Copy, Debug, Default, PartialEq, Eq)]
pub struct TransactionImage {
    pub bookmarks: PlaceImage,
    pub tx_timeout: NumberImage,
    pub tx_metadata: PlaceImage,
    pub mode: u8,
    pub db: TextImage,
}

// The fields of a request; those of other requests are absent.
#[repr(C)]
#[derive(Clone, Copy, Debug, Default, PartialEq, Eq)]
pub struct FieldsImage {
    pub hello: HelloImage,
    pub run: RunImage,
    pub transaction: TransactionImage,
}

impl From<Span> for TextImage {
    ghost from_gives = { λ span image. image ≡ span_image span };

    fn from(span: Span) -> TextImage {
        TextImage {
            present: 1,
            start: span.start as u64,
            size: span.size as u64,
        }
    }
}

impl From<Option<Span>> for TextImage {
    ghost from_gives = { λ text image. image ≡ text_image text };

    fn from(text: Option<Span>) -> TextImage {
        match text {
            Some(span) => TextImage::from(span),
            None => TextImage::default(),
        }
    }
}

impl From<Option<usize>> for PlaceImage {
    ghost from_gives = { λ place image. image ≡ place_image place };

    fn from(place: Option<usize>) -> PlaceImage {
        match place {
            Some(offset) => PlaceImage {
                present: 1,
                offset: offset as u64,
            },
            None => PlaceImage::default(),
        }
    }
}

impl From<Option<i64>> for NumberImage {
    ghost from_gives = { λ number image. image ≡ number_image number };

    fn from(number: Option<i64>) -> NumberImage {
        match number {
            Some(value) => NumberImage { present: 1, value },
            None => NumberImage::default(),
        }
    }
}

// A function, since both types are of other crates, and an impl of From has to stand in the crate of one of them.
fn mode_number(mode: Option<Mode>) -> u8
    ensures { result ≡ mode_number mode }
{
    match mode {
        None => 0,
        Some(Mode::Read) => 1,
        Some(Mode::Write) => 2,
    }
}

impl From<Transaction> for TransactionImage {
    ghost from_gives = { λ transaction image. image ≡ transaction_image transaction };

    fn from(transaction: Transaction) -> TransactionImage {
        TransactionImage {
            bookmarks: transaction.bookmarks.into(),
            tx_timeout: transaction.tx_timeout.into(),
            tx_metadata: transaction.tx_metadata.into(),
            mode: mode_number(transaction.mode),
            db: transaction.db.into(),
        }
    }
}

impl From<Request> for FieldsImage {
    ghost from_gives = { λ request image. image ≡ fields_of request };

    fn from(request: Request) -> FieldsImage {
        let absent = FieldsImage::default();
        match request {
            Request::Hello {
                user_agent,
                scheme,
                principal,
                credentials,
                routing,
            } => FieldsImage {
                hello: HelloImage {
                    user_agent: user_agent.into(),
                    scheme: scheme.into(),
                    principal: principal.into(),
                    credentials: credentials.into(),
                    routing: routing.into(),
                },
                ..absent
            },
            Request::Run {
                query,
                parameters,
                transaction,
            } => FieldsImage {
                run: RunImage {
                    query: query.into(),
                    parameters: Some(parameters).into(),
                },
                transaction: transaction.into(),
                ..absent
            },
            Request::Begin(transaction) => FieldsImage {
                transaction: transaction.into(),
                ..absent
            },
            Request::Goodbye
            | Request::Reset
            | Request::Commit
            | Request::Rollback
            | Request::Discard(_)
            | Request::Pull(_) => absent,
        }
    }
}
