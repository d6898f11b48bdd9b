// Reading one frame. The headers are looked at first, so that a refusal writes nothing; then each byte of the message is copied once.
ghost use Rattle.std.specs.Prelude.{◌≡◌, List, ℕ, ◌+◌, ◌≤◌, ◌<◌, length};
ghost use Rattle.slices.specs.Parts.{part};
ghost use Rattle.numbers.specs.BigEndian.{big_endian};
ghost use Rattle.handshake.specs.Version.{keeps_alive};
ghost use Rattle.refusal.specs.Answer.{told, mapped, left};
ghost use Rattle.framing.specs.Reading.{frame_of, telling, told_frame, leaves};
ghost use Rattle.framing.specs.Private.Copying.{IsMessage};

use bolt::MOST_BYTES;
use handshake::version::Version;
use refusal::Refusal;

// What stands at the front of the input.
#[derive(Clone, Copy, Debug, PartialEq, Eq)]
pub enum Frame {
    // A message of `length` bytes, now in front of the lent buffer; it took `consumed` bytes of the input.
    Message { length: usize, consumed: usize },
    // An empty message, where the version has keep-alives: nothing arrives. It took two bytes.
    KeepAlive,
}

// The size that the chunk header at `at` names.
fn size_at(input: &[u8], at: usize) -> usize
    requires { at + 2 ≤ length input.now }
    ensures { (result ≡ big_endian (part input.now at 2)) × (result < 65536) }
{
    (input[at] as usize) * 256 + (input[at + 1] as usize)
}

// What stands at the front of `input`, for a buffer of `room` bytes: headers only. Chunks of one size are passed in an inner loop,
// so that no load decides where the next header lies. A `for` or an iterator is no plainer: each header says where the next one lies.
fn scan(keep_alive: bool, input: &[u8], room: usize) -> Result<Frame, Refusal>
    ensures { mapped told_frame (told result) ≡ telling (frame_of keep_alive room input.now) }
{
    let mut at: usize = 0;
    let mut sum: usize = 0;
    loop {
        if input.len() - at < 2 {
            return Err(Refusal::FrameIncomplete);
        }
        let size = size_at(input, at);
        if size == 0 {
            if 0 < sum {
                return Ok(Frame::Message {
                    length: sum,
                    consumed: at + 2,
                });
            }
            if keep_alive {
                return Ok(Frame::KeepAlive);
            }
            return Err(Refusal::EmptyMessage);
        }
        loop {
            if MOST_BYTES < sum + size {
                return Err(Refusal::TooLong);
            }
            if room < sum + size {
                return Err(Refusal::NoRoom);
            }
            if input.len() - at - 2 < size {
                return Err(Refusal::FrameIncomplete);
            }
            sum += size;
            at += size + 2;
            if input.len() - at < 2 {
                return Err(Refusal::FrameIncomplete);
            }
            if size_at(input, at) != size {
                break;
            }
        }
    }
}

// Copies the message that stands at the front of `input` to the front of `buffer`, chunks of one size in an inner loop as above.
fn copy_message(keep_alive: bool, input: &[u8], buffer: &mut [u8])
    requires { IsMessage (frame_of keep_alive (length buffer.old) input.now) }
    ensures { buffer.new ≡ left leaves (frame_of keep_alive (length buffer.old) input.now) buffer.old }
{
    let mut at: usize = 0;
    let mut to: usize = 0;
    loop {
        let size = size_at(input, at);
        if size == 0 {
            return;
        }
        loop {
            slices::copy(input, at + 2, size, buffer, to);
            to += size;
            at += size + 2;
            if size_at(input, at) != size {
                break;
            }
        }
    }
}

// Reads the frame at the front of `input`: a message goes to the front of `buffer`, whose rest stays as it is. Refuses with 6 at the
// first header that takes the message over 16,384 bytes, with 21 at the first that takes it over the buffer, with 5 where the version
// has no keep-alives and the message is empty, and with 4 where the frame is incomplete: the caller then waits for more.
pub fn read_frame(version: Version, input: &[u8], buffer: &mut [u8]) -> Result<Frame, Refusal>
    ensures answer { mapped told_frame (told result) ≡ telling (frame_of (keeps_alive version.minor) (length buffer.old) input.now) }
    ensures filled { buffer.new ≡ left leaves (frame_of (keeps_alive version.minor) (length buffer.old) input.now) buffer.old }
{
    let keep_alive = version.allows_keep_alive();
    let frame = scan(keep_alive, input, buffer.len())?;
    if let Frame::Message { .. } = frame {
        copy_message(keep_alive, input, buffer);
    }
    Ok(frame)
}
