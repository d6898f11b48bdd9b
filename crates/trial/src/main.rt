// The bench trial, from standard input to standard output: blocks are read, handed over, and what they lead to is written, until the input
// ends, the connection closes or a line is refused. Document 01, "Bench trial program". What the whole input leads to: crates/run.
#![tactic(auto)]

ghost use Rattle.std.specs.Prelude.{◌≡◌, ◌≤◌, IfOk, OnErr, length, take};
ghost use Rattle.session.specs.Room.{enough};
ghost use Rattle.run.specs.Run.{progress_of, cut_in, step_in};

use console::{input, output};
use run::Run;
use std::io;

// What 64 lines can send at most.
const ROOM: usize = 281600;

// Hands a block over, portion by portion, and writes what each leads to. Fails only where a write does: the run, what is held and `out` are
// then as the last portion left them.
fn pass(
    rt: HostRuntime,
    run: &mut Run,
    held: &mut [u8],
    block: &[u8],
    out: &mut [u8],
) -> io::Result<()>
    requires { enough ≤ length out.old }
    ensures progress { IfOk result (λ done. progress_of run.new ≡ (step_in held.old run.old block.now).progress) }
    ensures begun { IfOk result (λ done. take run.new.begun held.new ≡ (cut_in held.old run.old block.now).begun) }
    ensures err { OnErr result ((length held.new ≡ length held.old) × (length out.new ≡ length out.old)) }
{
    let mut from = 0;
    // A while loop: how much of the block is taken at a time shows only then.
    while from < block.len() {
        let fed = run::feed(run, held, &block[from..], out);
        output::text(rt, &out[..fed.written])?;
        from += fed.taken;
    }
    Ok(())
}

// The input need not end, so the turns are counted by a number that no run uses up.
fn serve(rt: HostRuntime, block: &mut [u8], held: &mut [u8], out: &mut [u8]) -> io::Result<()>
    requires { (40001 ≤ length held.old) × (enough ≤ length out.old) }
{
    let mut run = run::fresh();
    for _ in 0..u64::MAX {
        let size = input::read(rt, block)?;
        if size == 0 {
            let last = run::finish(&mut run, held, out);
            return output::text(rt, &out[..last.written]);
        }
        pass(rt, &mut run, held, &block[..size], out)?;
        if !run.goes_on {
            return Ok(());
        }
    }
    Ok(())
}

fn main(rt: HostRuntime) -> io::Result<()> {
    let mut block = [0u8; input::BLOCK];
    let mut held = [0u8; lines::HELD];
    let mut out = [0u8; ROOM];
    serve(rt, &mut block, &mut held, &mut out)
}
