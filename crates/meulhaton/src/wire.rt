// The handshake, frames and chunks, as numbers: C has no Result and no enum with fields.
ghost use Rattle.std.specs.Prelude.{◌≡◌, length};
ghost use Rattle.slices.specs.Parts.{front};
ghost use Rattle.handshake.specs.Version.{bytes_of, keeps_alive, proposed, named_by};
ghost use Rattle.handshake.specs.Negotiation.{negotiated};
ghost use Rattle.refusal.specs.Numbers.{number_of};
ghost use Rattle.refusal.specs.Answer.{refused, counted, left, told, mapped};
ghost use Rattle.framing.specs.Reading.{frame_of, told_frame, telling, leaves};
ghost use Rattle.framing.specs.Chunking.{writing};
ghost use Rattle.meulhaton.specs.Wire.{agreement_of, frame_answer, output_of, in_version};

use framing::reader::Frame;
use handshake::version::Version;
use refusal::Refusal;

// The minor version agreed on, or the refusal.
#[repr(C)]
#[derive(Clone, Copy)]
pub struct Agreement {
    pub refusal: u8,
    pub minor: u8,
    pub place: u64,
}

// A frame: a message (1) or a keep-alive (2), or the refusal.
#[repr(C)]
#[derive(Clone, Copy)]
pub struct FrameRead {
    pub refusal: u8,
    pub kind: u8,
    pub place: u64,
    pub length: u64,
    pub consumed: u64,
}

// What a writer answers: the offset past what it wrote, or the refusal.
#[repr(C)]
#[derive(Clone, Copy)]
pub struct Output {
    pub refusal: u8,
    pub place: u64,
    pub end: u64,
}

impl From<Result<Version, Refusal>> for Agreement {
    ghost from_gives = { λ found agreement. agreement ≡ agreement_of (mapped (λ version. version.minor) (told found)) };

    fn from(found: Result<Version, Refusal>) -> Agreement {
        match found {
            Ok(version) => {
                let [_, _, minor, _] = version.to_bytes();
                Agreement {
                    refusal: 0,
                    minor,
                    place: 0,
                }
            }
            Err(why) => Agreement {
                refusal: why.number(),
                minor: 0,
                place: 0,
            },
        }
    }
}

// The version to go on with: `handshake::negotiation::negotiate`.
pub fn meulhaton_negotiate(input: &[u8]) -> Agreement
    ensures { result ≡ agreement_of (negotiated input.now) }
{
    Agreement::from(handshake::negotiation::negotiate(input))
}

// The known version of this minor number.
pub fn version_of(minor: u8) -> Option<Version>
    ensures { named_by result ≡ proposed (bytes_of minor) }
{
    Version::from_bytes([0, 0, minor, 4])
}

impl From<Result<Frame, Refusal>> for FrameRead {
    ghost from_gives = { λ found frame. frame ≡ frame_answer (mapped told_frame (told found)) };

    fn from(found: Result<Frame, Refusal>) -> FrameRead {
        match found {
            Ok(Frame::Message { length, consumed }) => FrameRead {
                refusal: 0,
                kind: 1,
                place: 0,
                length: length as u64,
                consumed: consumed as u64,
            },
            Ok(Frame::KeepAlive) => FrameRead {
                refusal: 0,
                kind: 2,
                place: 0,
                length: 0,
                consumed: 2,
            },
            Err(why) => FrameRead {
                refusal: why.number(),
                kind: 0,
                place: 0,
                length: 0,
                consumed: 0,
            },
        }
    }
}

// The frame at the front of `input`: `framing::reader::read_frame`, in the version of this minor number.
pub fn meulhaton_read_frame(minor: u8, input: &[u8], buffer: &mut [u8]) -> FrameRead
    ensures answer { result ≡ frame_answer (telling (in_version minor (λ v. frame_of (keeps_alive v) (length buffer.old) input.now))) }
    ensures filled { buffer.new ≡ left leaves (in_version minor (λ v. frame_of (keeps_alive v) (length buffer.old) input.now)) buffer.old }
{
    let Some(version) = version_of(minor) else {
        return FrameRead::from(Err(Refusal::InvalidRecord));
    };
    FrameRead::from(framing::reader::read_frame(version, input, buffer))
}

impl From<Result<usize, Refusal>> for Output {
    ghost from_gives = { λ done output. output ≡ output_of (told done) };

    fn from(done: Result<usize, Refusal>) -> Output {
        match done {
            Ok(end) => Output {
                refusal: 0,
                place: 0,
                end: end as u64,
            },
            Err(why) => Output {
                refusal: why.number(),
                place: 0,
                end: 0,
            },
        }
    }
}

// The message in chunks: `framing::writer::write_chunks`.
pub fn meulhaton_write_chunks(message: &[u8], chunk_size: usize, out: &mut [u8]) -> Output
    ensures answer { result ≡ output_of (counted (writing chunk_size (length out.old) message.now)) }
    ensures filled { out.new ≡ left front (writing chunk_size (length out.old) message.now) out.old }
{
    Output::from(framing::writer::write_chunks(message, chunk_size, out))
}
