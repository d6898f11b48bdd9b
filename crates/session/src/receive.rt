// What a line brings: a version to agree on, or a frame with a request. Checked in order: length and digits, handshake or frame, bytes
// after it, request.
ghost use Rattle.std.specs.Prelude.{◌≡◌, ◌≤◌, ◌/◌, length};
ghost use Rattle.refusal.specs.Answer.{told, mapped};
ghost use Rattle.handshake.specs.Version.{keeps_alive};
ghost use Rattle.handshake.specs.Negotiation.{negotiated};
ghost use Rattle.bolt.specs.Limits.{most_bytes};
ghost use Rattle.framing.specs.Reading.{frame_of};
ghost use Rattle.values.specs.Decode.{decode};
ghost use Rattle.requests.specs.Requests.{request_of};
ghost use Rattle.session.specs.Receiving.{alone, handshake_in, arriving, framed, brought_in};
ghost use Rattle.session.specs.Private.Receiving.{bringing};

use bolt::MOST_BYTES;
use framing::reader;
use framing::reader::Frame;
use handshake::negotiation;
use handshake::version::Version;
use refusal::Refusal;
use requests::read;
use states::request::Request;
use summaries::arrival;

// The version agreed on by these bytes, where they are a handshake and no more.
fn agree(bytes: &[u8]) -> Result<Version, Refusal>
    ensures { mapped (λ version. version.minor) (told result) ≡ alone (length bytes.now) (negotiated bytes.now) }
{
    let version = negotiation::negotiate(bytes)?;
    if 20 < bytes.len() {
        return Err(Refusal::InvalidLine);
    }
    Ok(version)
}

// The version agreed on by a line.
pub fn receive_handshake(line: &[u8]) -> Result<Version, Refusal>
    ensures { mapped (λ version. version.minor) (told result) ≡ handshake_in line.now }
{
    let mut bytes = [0u8; 20000];
    let n = hex_lines::decode(line, &mut bytes)?;
    agree(&bytes[..n])
}

// The request that a message is.
fn receive_message(version: Version, message: &[u8]) -> Result<Option<Request>, Refusal>
    ensures { bringing (told result) ≡ arriving (request_of version.minor (decode message.now)) }
{
    match read::read_request(message, version) {
        Ok(request) => Ok(Some(arrival::arrival_of(request))),
        Err(fault) => Err(fault.refusal),
    }
}

// What these bytes bring, where they are a frame and no more.
fn receive_frame(
    version: Version,
    bytes: &[u8],
    message: &mut [u8],
) -> Result<Option<Request>, Refusal>
    ensures { bringing (told result) ≡ framed version.minor (length bytes.now) (frame_of (keeps_alive version.minor) (length message.old) bytes.now) }
{
    match reader::read_frame(version, bytes, message)? {
        Frame::Message { length, consumed } => {
            if consumed < bytes.len() {
                return Err(Refusal::InvalidLine);
            }
            receive_message(version, &message[..length])
        }
        Frame::KeepAlive => {
            if 2 < bytes.len() {
                return Err(Refusal::InvalidLine);
            }
            Ok(None)
        }
    }
}

// What a line brings, by way of memory for so many of its bytes, and for a message of so many.
fn receive_in<const BYTES: usize, const MESSAGE: usize>(
    version: Version,
    line: &[u8],
) -> Result<Option<Request>, Refusal>
    requires line { length line.now / 2 ≤ BYTES }
    requires memory { (BYTES ≤ 20000) × (MESSAGE ≤ most_bytes) }
    ensures { bringing (told result) ≡ brought_in MESSAGE version.minor line.now }
{
    let mut bytes = [0u8; BYTES];
    let mut message = [0u8; MESSAGE];
    let bytes = &mut bytes[..];
    let n = hex_lines::decode(line, bytes)?;
    receive_frame(version, &bytes[..n], &mut message)
}

// What a line brings, or nothing where it is a keep-alive. Most lines are short, and should not pay for clearing the memory that a long one
// needs. A short line whose header announces more than the short memory holds is read again in the long one.
pub fn receive(version: Version, line: &[u8]) -> Result<Option<Request>, Refusal>
    ensures { bringing (told result) ≡ brought_in most_bytes version.minor line.now }
{
    if 40000 < line.len() {
        return Err(Refusal::InvalidLine);
    }
    if 1024 < line.len() {
        return receive_in::<20000, MOST_BYTES>(version, line);
    }
    match receive_in::<512, 512>(version, line) {
        Ok(brought) => Ok(brought),
        Err(why) => {
            if why == Refusal::NoRoom {
                return receive_in::<20000, MOST_BYTES>(version, line);
            }
            Err(why)
        }
    }
}
