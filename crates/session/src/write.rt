// Lines of digits, written one behind the other. There is room for each: no line sends more than `enough` (specs/Room.antt).
ghost use Rattle.std.specs.Prelude.{◌≡◌, ◌+◌, ◌*◌, ◌≤◌, length};
ghost use Rattle.std.proofs.lemmas.List.Edits.{sets};
ghost use Rattle.session.specs.Text.{line_text};
ghost use Rattle.session.specs.Session.{summary_line};

use framing::writer;
use lines::LINE_END;
use states::answers::Summary;
use summaries::summary;

// No summary is as long: each goes out in one chunk.
const CHUNK: usize = 80;

// Writes a line of these bytes at `at`, and answers where it ends.
pub fn put_line(bytes: &[u8], out: &mut [u8], at: usize) -> usize
    requires { at + (2 * length bytes.now + 1) ≤ length out.old }
    ensures answer { result ≡ at + length (line_text bytes.now) }
    ensures filled { out.new ≡ sets out.old at (line_text bytes.now) }
{
    let end = at + hex_lines::encode(bytes, &mut out[at..]).unwrap();
    out[end] = LINE_END;
    end + 1
}

// Writes a summary's line.
pub fn put_summary(summary: Summary, out: &mut [u8], at: usize) -> usize
    requires { at + length (line_text (summary_line summary)) ≤ length out.old }
    ensures answer { result ≡ at + length (line_text (summary_line summary)) }
    ensures filled { out.new ≡ sets out.old at (line_text (summary_line summary)) }
{
    let mut packed = [0u8; CHUNK];
    let mut chunk = [0u8; CHUNK + 4];
    let size = summary::pack_summary(summary, &mut packed, 0).unwrap();
    let n = writer::write_chunks(&packed[..size], CHUNK, &mut chunk).unwrap();
    put_line(&chunk[..n], out, at)
}
