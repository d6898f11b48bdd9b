// A run of the bench trial that comes in blocks, as a stream is read: each block is cut into lines, and each line that ends in it is handled.
// Document 01, "Bench trial program". Whatever the blocks, what is written for them is what the whole input means: specs/Whole.antt.
#![tactic(auto)]

ghost use Rattle.std.specs.Prelude.{◌≡◌, ◌≤◌, length};
ghost use Rattle.slices.specs.Parts.{front};
ghost use Rattle.lines.specs.Lines.{first_lines};
ghost use Rattle.session.specs.Room.{enough};
ghost use Rattle.run.specs.Run.{start, progress_of, after_line, sent_for, cut_in, step_in, leaves, portion, last_in};

use session::line::Handled;
use session::phase::Session;
use session::{line, phase};

// More than one line can send.
const ENOUGH: usize = 4400;

// How far a run has come: its session, whether it goes on, and how many characters of the line that has begun are held. A flag beside the session,
// and no Option: the record is there when the run has ended, too. The characters lie in memory that the program lends to each call.
#[derive(Clone, Copy)]
pub struct Run {
    pub session: Session,
    pub goes_on: bool,
    pub begun: usize,
}

// A run to which nothing has come yet.
pub fn fresh() -> Run
    ensures progress { progress_of result ≡ start }
    ensures begun { result.begun ≡ 0 }
{
    Run {
        session: phase::fresh(),
        goes_on: true,
        begun: 0,
    }
}

// How much of a block was taken, and how many characters were written for it.
#[derive(Clone, Copy, Debug, PartialEq, Eq)]
pub struct Fed {
    pub taken: usize,
    pub written: usize,
}

// Handles a line that has ended, unless the run has, and answers how many characters were written.
fn handle_line(run: &mut Run, line: &[u8], out: &mut [u8]) -> usize
    requires { enough ≤ length out.old }
    ensures progress { progress_of run.new ≡ after_line (progress_of run.old) line.now }
    ensures begun { run.new.begun ≡ run.old.begun }
    ensures written { result ≡ length (sent_for (progress_of run.old) line.now) }
    ensures filled { out.new ≡ front (sent_for (progress_of run.old) line.now) out.old }
{
    if !run.goes_on {
        return 0;
    }
    // There is room for any line.
    match line::handle(&mut run.session, line, out).unwrap() {
        Handled::GoesOn(n) => n,
        Handled::Ended(n) => {
            run.goes_on = false;
            n
        }
    }
}

// Takes the first line of a block.
fn feed_line(run: &mut Run, held: &mut [u8], block: &[u8], out: &mut [u8]) -> Fed
    requires { enough ≤ length out.old }
    ensures progress { progress_of run.new ≡ (step_in held.old run.old (first_lines 1 block.now)).progress }
    ensures begun { run.new.begun ≡ length (cut_in held.old run.old (first_lines 1 block.now)).begun }
    ensures taken { result.taken ≡ length (first_lines 1 block.now) }
    ensures written { result.written ≡ length (step_in held.old run.old (first_lines 1 block.now)).output }
    ensures held { held.new ≡ leaves (cut_in held.old run.old (first_lines 1 block.now)) held.old }
    ensures filled { out.new ≡ front (step_in held.old run.old (first_lines 1 block.now)).output out.old }
{
    let line = lines::take_line(held, run.begun, block);
    if !line.ended {
        run.begun = line.size;
        return Fed {
            taken: line.taken,
            written: 0,
        };
    }
    run.begun = 0;
    let written = handle_line(run, &held[..line.size], out);
    Fed {
        taken: line.taken,
        written,
    }
}

// Hands a block over: as many lines of it as are sure to have room in `out` for what they send, which stands at its front. The line that
// has begun stands in front of `held`, which is lent from block to block and left alone between them; the rest of it is scratch.
pub fn feed(run: &mut Run, held: &mut [u8], block: &[u8], out: &mut [u8]) -> Fed
    ensures progress { progress_of run.new ≡ (step_in held.old run.old (portion (length out.old) block.now)).progress }
    ensures begun { run.new.begun ≡ length (cut_in held.old run.old (portion (length out.old) block.now)).begun }
    ensures taken { result.taken ≡ length (portion (length out.old) block.now) }
    ensures written { result.written ≡ length (step_in held.old run.old (portion (length out.old) block.now)).output }
    ensures held { held.new ≡ leaves (cut_in held.old run.old (portion (length out.old) block.now)) held.old }
    ensures filled { out.new ≡ front (step_in held.old run.old (portion (length out.old) block.now)).output out.old }
{
    run.begun = run.begun.min(held.len());
    let mut taken = 0;
    let mut written = 0;
    for _ in 0..out.len() / ENOUGH {
        if block.len() <= taken {
            break;
        }
        let next = feed_line(run, held, &block[taken..], &mut out[written..]);
        taken += next.taken;
        written += next.written;
    }
    Fed { taken, written }
}

// At the end of the input: where a line has begun, it is the last.
pub fn finish(run: &mut Run, held: &mut [u8], out: &mut [u8]) -> Fed
    ensures progress { progress_of run.new ≡ (step_in held.old run.old (portion (length out.old) (last_in held.old run.old))).progress }
    ensures begun { run.new.begun ≡ length (cut_in held.old run.old (portion (length out.old) (last_in held.old run.old))).begun }
    ensures taken { result.taken ≡ length (portion (length out.old) (last_in held.old run.old)) }
    ensures written { result.written ≡ length (step_in held.old run.old (portion (length out.old) (last_in held.old run.old))).output }
    ensures held { held.new ≡ leaves (cut_in held.old run.old (portion (length out.old) (last_in held.old run.old))) held.old }
    ensures filled { out.new ≡ front (step_in held.old run.old (portion (length out.old) (last_in held.old run.old))).output out.old }
{
    if run.begun.min(held.len()) == 0 {
        return feed(run, held, b"", out);
    }
    feed(run, held, b"\n", out)
}
