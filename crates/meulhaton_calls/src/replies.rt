// What the calls answer, as numbers: C has no Result and no enum with fields.
ghost use Rattle.std.specs.Prelude.{◌≡◌};
ghost use Rattle.refusal.specs.Numbers.{number_of};
ghost use Rattle.refusal.specs.Answer.{returned, refused};
ghost use Rattle.states.specs.Answers.{answer_says, told_arrival, told_taken, told_reported, told_closing};
ghost use Rattle.meulhaton_calls.specs.Replies.{summary_numbers, summary_image, saying, reply_of};

use meulhaton_fields::request;
use meulhaton_fields::request::RequestImage;
use refusal::Refusal;
use states::answers::{Answered, Arrival, Failure, Summary, Taken};

// A summary: IGNORED 1, SUCCESS with nothing 2, with has_more 3, with qid 4; FAILURE for too many streams 5, for an unknown stream 6,
// of the engine 7. `value` is has_more or qid.
#[repr(C)]
#[derive(Clone, Copy, Debug, PartialEq, Eq)]
pub struct SummaryImage {
    pub value: u32,
    pub kind: u8,
}

// What a call answers: queued 1, closed 2, idle 3, handed over 4 with a request and its number, answered 5 with a summary and its
// request's number; or the refusal. The bytes come last, so that no gap lies between: a copy over a gap waits for the stores around it.
#[repr(C)]
#[derive(Clone, Copy, Debug, PartialEq, Eq)]
pub struct Reply {
    pub place: u64,
    pub number: u64,
    pub request: RequestImage,
    pub summary: SummaryImage,
    pub refusal: u8,
    pub said: u8,
}

fn summary_numbers(kind: u8, value: u32) -> SummaryImage
    ensures { result ≡ summary_numbers kind value }
{
    SummaryImage { kind, value }
}

impl From<Summary> for SummaryImage {
    ghost from_gives = { λ summary image. image ≡ summary_image summary };

    fn from(summary: Summary) -> SummaryImage {
        match summary {
            Summary::Ignored => summary_numbers(1, 0),
            Summary::Success => summary_numbers(2, 0),
            Summary::HasMore(more) => summary_numbers(3, more as u32),
            Summary::Stream(qid) => summary_numbers(4, qid),
            Summary::Failure(Failure::StreamsFull) => summary_numbers(5, 0),
            Summary::Failure(Failure::StreamUnknown) => summary_numbers(6, 0),
            Summary::Failure(Failure::EngineFailed) => summary_numbers(7, 0),
        }
    }
}

// A reply with neither a request nor a summary.
fn saying(refusal: u8, said: u8) -> Reply
    ensures { result ≡ saying refusal said }
{
    Reply {
        refusal,
        said,
        summary: summary_numbers(0, 0),
        place: 0,
        number: 0,
        request: request::bare(0),
    }
}

impl From<Refusal> for Reply {
    ghost from_gives = { λ why reply. reply ≡ reply_of (refused (number_of why) 0) };

    fn from(why: Refusal) -> Reply {
        saying(why.number(), 0)
    }
}

impl From<Result<Arrival, Refusal>> for Reply {
    ghost from_gives = { λ answer reply. reply ≡ reply_of (told_arrival answer) };

    fn from(answer: Result<Arrival, Refusal>) -> Reply {
        match answer {
            Ok(Arrival::Queued) => saying(0, 1),
            Ok(Arrival::Closed) => saying(0, 2),
            Err(why) => Reply::from(why),
        }
    }
}

impl From<Answered> for Reply {
    ghost from_gives = { λ answered reply. reply ≡ reply_of (returned (answer_says answered)) };

    fn from(answered: Answered) -> Reply {
        Reply {
            refusal: 0,
            said: 5,
            summary: SummaryImage::from(answered.summary),
            place: 0,
            number: answered.number,
            request: request::bare(0),
        }
    }
}

impl From<Result<Taken, Refusal>> for Reply {
    ghost from_gives = { λ answer reply. reply ≡ reply_of (told_taken answer) };

    fn from(answer: Result<Taken, Refusal>) -> Reply {
        match answer {
            Ok(Taken::Idle) => saying(0, 3),
            Ok(Taken::Closed) => saying(0, 2),
            Ok(Taken::Handed { number, request }) => Reply {
                refusal: 0,
                said: 4,
                summary: summary_numbers(0, 0),
                place: 0,
                number,
                request: RequestImage::from(request),
            },
            Ok(Taken::Answered(answered)) => Reply::from(answered),
            Err(why) => Reply::from(why),
        }
    }
}

impl From<Result<Answered, Refusal>> for Reply {
    ghost from_gives = { λ answer reply. reply ≡ reply_of (told_reported answer) };

    fn from(answer: Result<Answered, Refusal>) -> Reply {
        match answer {
            Ok(answered) => Reply::from(answered),
            Err(why) => Reply::from(why),
        }
    }
}

impl From<Result<(), Refusal>> for Reply {
    ghost from_gives = { λ answer reply. reply ≡ reply_of (told_closing answer) };

    fn from(answer: Result<(), Refusal>) -> Reply {
        match answer {
            Ok(()) => saying(0, 2),
            Err(why) => Reply::from(why),
        }
    }
}
