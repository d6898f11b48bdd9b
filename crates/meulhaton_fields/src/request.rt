// Requests, as numbers: the request as the connection is told of it, and its fields. C has no Result and no enum with fields: a kind is its tag,
// and `refusal` is 0 where there is none.
ghost use Rattle.std.specs.Prelude.{◌≡◌};
ghost use Rattle.refusal.specs.Answer.{told_at};
ghost use Rattle.meulhaton_fields.specs.Requests.{bare, request_image, request_answer};

use crate::fields::FieldsImage;
use record::names;
use refusal::Fault;
use states::request::Request;

// A request: its tag, and n and qid of DISCARD and PULL.
#[repr(C)]
#[derive(Clone, Copy, Debug, PartialEq, Eq)]
pub struct RequestImage {
    pub n: i64,
    pub qid: i64,
    pub kind: u8,
}

// A request, as the connection is told of it, and its fields; or the refusal.
#[repr(C)]
#[derive(Clone, Copy, Debug, PartialEq, Eq)]
pub struct RequestRead {
    pub refusal: u8,
    pub place: u64,
    pub request: RequestImage,
    pub fields: FieldsImage,
}

// A request that carries no numbers.
pub fn bare(kind: u8) -> RequestImage
    ensures { result ≡ bare kind }
{
    RequestImage { kind, n: 0, qid: 0 }
}

impl From<Request> for RequestImage {
    ghost from_gives = { λ request image. image ≡ request_image request };

    fn from(request: Request) -> RequestImage {
        let (n, qid) = names::numbers_of(request);
        RequestImage {
            kind: request.tag(),
            n,
            qid,
        }
    }
}

impl From<Result<requests::request::Request, Fault>> for RequestRead {
    ghost from_gives = { λ found answer. answer ≡ request_answer (told_at found) };

    fn from(found: Result<requests::request::Request, Fault>) -> RequestRead {
        match found {
            Ok(request) => RequestRead {
                refusal: 0,
                place: 0,
                request: summaries::arrival::arrival_of(request).into(),
                fields: request.into(),
            },
            Err(fault) => RequestRead {
                refusal: fault.refusal.number(),
                place: fault.place as u64,
                request: bare(0),
                fields: FieldsImage::default(),
            },
        }
    }
}
