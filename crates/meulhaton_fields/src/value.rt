// Values read, as numbers: C has no Result and no enum with fields.
ghost use Rattle.std.specs.Prelude.{◌≡◌};
ghost use Rattle.refusal.specs.Answer.{told_at};
ghost use Rattle.meulhaton_fields.specs.Values.{plain, lying, head_image, value_answer};

use refusal::Fault;
use values::head::Head;
use values::read::Found;

// What a value is: Null 1, Boolean 2, Integer 3, Float 4, Bytes 5, String 6, List 7, Dictionary 8, Structure 9; then what it holds.
// `start` and `size`: where the content of Bytes or a String lies; or the marker of the first item, entry or field, and how many they are.
#[repr(C)]
#[derive(Clone, Copy, Debug, PartialEq, Eq)]
pub struct HeadImage {
    pub kind: u8,
    pub boolean: u8,
    pub tag: u8,
    pub integer: i64,
    pub bits: u64,
    pub start: u64,
    pub size: u64,
}

// A value and the offset past it, or the refusal.
#[repr(C)]
#[derive(Clone, Copy, Debug, PartialEq, Eq)]
pub struct ValueRead {
    pub refusal: u8,
    pub place: u64,
    pub end: u64,
    pub head: HeadImage,
}

// A value that lies nowhere but in its marker or its number.
fn plain(kind: u8, boolean: u8, integer: i64, bits: u64) -> HeadImage
    ensures { result ≡ plain kind boolean integer bits }
{
    HeadImage {
        kind,
        boolean,
        tag: 0,
        integer,
        bits,
        start: 0,
        size: 0,
    }
}

// A value whose content, or what it holds, lies from `start` on.
fn lying(kind: u8, tag: u8, start: usize, size: usize) -> HeadImage
    ensures { result ≡ lying kind tag start size }
{
    HeadImage {
        kind,
        boolean: 0,
        tag,
        integer: 0,
        bits: 0,
        start: start as u64,
        size: size as u64,
    }
}

impl From<Head> for HeadImage {
    ghost from_gives = { λ head image. image ≡ head_image head };

    fn from(head: Head) -> HeadImage {
        match head {
            Head::Null => plain(1, 0, 0, 0),
            Head::Boolean(value) => plain(2, value as u8, 0, 0),
            Head::Integer(number) => plain(3, 0, number, 0),
            Head::Float(bits) => plain(4, 0, 0, bits),
            Head::Bytes { start, size } => lying(5, 0, start, size),
            Head::String { start, size } => lying(6, 0, start, size),
            Head::List { first, count } => lying(7, 0, first, count),
            Head::Dictionary { first, count } => lying(8, 0, first, count),
            Head::Structure { tag, first, count } => lying(9, tag, first, count),
        }
    }
}

impl From<Result<Found, Fault>> for ValueRead {
    ghost from_gives = { λ found answer. answer ≡ value_answer (told_at found) };

    fn from(found: Result<Found, Fault>) -> ValueRead {
        match found {
            Ok(Found { head, end }) => ValueRead {
                refusal: 0,
                place: 0,
                end: end as u64,
                head: head.into(),
            },
            Err(Fault { refusal, place }) => ValueRead {
                refusal: refusal.number(),
                place: place as u64,
                end: 0,
                head: plain(0, 0, 0, 0),
            },
        }
    }
}
