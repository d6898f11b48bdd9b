// Why a call was refused. Every layer refuses with one of these, and a refused call has changed nothing: it consumed no
// input, and what was lent to it stands as it stood. Document 01, "Refusal numbers"; 25 to 27 are document 02's.
#![tactic(auto)]

ghost use Rattle.std.specs.Prelude.{◌≡◌};
ghost use Rattle.refusal.specs.Numbers.{number_of};
ghost use Rattle.refusal.specs.Answer.{closes_after, placed};

#[derive(Clone, Copy, Debug, PartialEq, Eq)]
pub enum Refusal {
    // Handshake short.
    HandshakeTruncated = 1,
    // Preamble wrong.
    WrongPreamble = 2,
    // Nothing in common: the caller sends four zeros.
    NoCommonVersion = 3,
    // Frame incomplete: the caller waits for more bytes.
    FrameIncomplete = 4,
    // Empty message, where the version has no keep-alives.
    EmptyMessage = 5,
    // Too long: over 16,384 bytes.
    TooLong = 6,
    // A marker, its size or tag, or its content is missing.
    ValueTruncated = 7,
    // Reserved marker.
    ReservedMarker = 8,
    // Too deep: a seventeenth open container.
    TooDeep = 9,
    // Not UTF-8.
    InvalidUtf8 = 10,
    // A Dictionary's key is no String.
    KeyNotString = 11,
    // A Dictionary's key comes twice.
    DuplicateKey = 12,
    // Bytes are left over after the value.
    TrailingBytes = 13,
    // Not a known request structure.
    UnknownRequest = 14,
    // Field count.
    WrongFieldCount = 15,
    // 32 waiting.
    QueueFull = 17,
    // The connection is DEFUNCT.
    ConnectionDefunct = 18,
    // No request in flight, or success with more for a request that has none.
    UnexpectedReport = 19,
    // 4,294,967,295 accepted.
    RequestLimitReached = 20,
    // No room in the lent buffer.
    NoRoom = 21,
    // Empty message or chunk size outside its range, in writing.
    InvalidChunking = 22,
    // Line over 40,000 characters, not pairs of upper-case hexadecimal digits, or with bytes after its frame.
    InvalidLine = 23,
    // The record breaks a standing rule.
    InvalidRecord = 24,
    // A required entry is absent.
    MissingEntry = 25,
    // A field or an entry of another kind.
    WrongKind = 26,
    // A number or a word out of its range.
    OutOfRange = 27,
}

impl Refusal {
    // The refusal's number in document 01's table.
    pub fn number(self) -> u8
        ensures { result ≡ number_of self }
    {
        self as u8
    }

    // The refusal at a place.
    pub fn at(self, place: usize) -> Fault
        ensures { result ≡ placed self place }
    {
        Fault {
            refusal: self,
            place,
        }
    }

    // Whether the caller closes the connection after it.
    pub fn closes(self) -> bool
        ensures { result ≡ closes_after (number_of self) }
    {
        matches!(self.number(), 5..=15 | 25..=27)
    }
}

// Why a message is refused, and where: for most refusals the offset of a marker.
#[derive(Clone, Copy, Debug, PartialEq, Eq)]
pub struct Fault {
    pub refusal: Refusal,
    pub place: usize,
}

// A refusal of the whole gives place 0.
impl From<Refusal> for Fault {
    ghost from_gives = { λ why fault. fault ≡ placed why 0 };

    fn from(refusal: Refusal) -> Fault {
        refusal.at(0)
    }
}
