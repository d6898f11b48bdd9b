// Writing a message in chunks.
ghost use Rattle.std.specs.Prelude.{◌≡◌, ◌+◌, ◌≤◌, ◌<◌, length};
ghost use Rattle.std.proofs.lemmas.List.Edits.{sets};
ghost use Rattle.bolt.specs.Limits.{most_bytes};
ghost use Rattle.slices.specs.Parts.{front};
ghost use Rattle.refusal.specs.Answer.{told, counted, left};
ghost use Rattle.framing.specs.Chunking.{chunk_of, chunked, end, writing};

use bolt::MOST_BYTES;
use refusal::Refusal;

// How many bytes a message of `length` takes in chunks of `chunk_size`.
fn chunked_length(message: &[u8], chunk_size: usize) -> usize
    requires { (0 < chunk_size) × (length message.now ≤ most_bytes) }
    ensures { result ≡ length (chunked chunk_size message.now) }
{
    let n = message.len();
    let whole = n + 2 * (n / chunk_size) + 2;
    if n % chunk_size == 0 {
        whole
    } else {
        whole + 2
    }
}

// Writes `chunk` with its size in front of it at `to`.
fn put_chunk(chunk: &[u8], out: &mut [u8], to: usize)
    requires { (length chunk.now < 65536) × (to + (length chunk.now + 2) ≤ length out.old) }
    ensures { out.new ≡ sets out.old to (chunk_of chunk.now) }
{
    let size = chunk.len();
    out[to] = (size / 256) as u8;
    out[to + 1] = (size % 256) as u8;
    slices::copy(chunk, 0, size, out, to + 2);
}

// Writes the end of a message at `to`.
fn put_end(out: &mut [u8], to: usize)
    requires { to + 2 ≤ length out.old }
    ensures { out.new ≡ sets out.old to end }
{
    out[to] = 0;
    out[to + 1] = 0;
}

// Writes the message's chunks and its end to the front of `out`.
fn put_chunks(message: &[u8], chunk_size: usize, out: &mut [u8])
    requires { ((0 < chunk_size) × (chunk_size < 65536)) × (length (chunked chunk_size message.now) ≤ length out.old) }
    ensures { out.new ≡ front (chunked chunk_size message.now) out.old }
{
    let mut to = 0;
    for chunk in message.chunks(chunk_size) {
        put_chunk(chunk, out, to);
        to += chunk.len() + 2;
    }
    put_end(out, to);
}

// Writes `message` in chunks of `chunk_size` bytes to the front of `out`; what stands past the output stays. Refuses with 22 where the
// message is empty or the chunk size is not 1 to 65,535, with 6 where the message has over 16,384 bytes, and with 21 where the whole
// output is longer than `out`.
#[tactic(auto, unfolding(crate::specs::Chunking::writing))]
pub fn write_chunks(message: &[u8], chunk_size: usize, out: &mut [u8]) -> Result<usize, Refusal>
    ensures answer { told result ≡ counted (writing chunk_size (length out.old) message.now) }
    ensures filled { out.new ≡ left front (writing chunk_size (length out.old) message.now) out.old }
{
    if message.len() == 0 || chunk_size == 0 || 65535 < chunk_size {
        return Err(Refusal::InvalidChunking);
    }
    if MOST_BYTES < message.len() {
        return Err(Refusal::TooLong);
    }
    let total = chunked_length(message, chunk_size);
    if out.len() < total {
        return Err(Refusal::NoRoom);
    }
    put_chunks(message, chunk_size, out);
    Ok(total)
}
