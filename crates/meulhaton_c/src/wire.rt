// The handshake, frames and chunks, for C: `meulhaton::wire`.
ghost use Rattle.std.specs.Prelude.{◌≡◌, length};
ghost use Rattle.slices.specs.Parts.{front};
ghost use Rattle.handshake.specs.Version.{keeps_alive};
ghost use Rattle.handshake.specs.Negotiation.{negotiated};
ghost use Rattle.refusal.specs.Answer.{counted, left};
ghost use Rattle.framing.specs.Reading.{frame_of, telling, leaves};
ghost use Rattle.framing.specs.Chunking.{writing};
ghost use Rattle.meulhaton.specs.Wire.{agreement_of, frame_answer, output_of, in_version};

use meulhaton::wire::{Agreement, FrameRead, Output};

#[unsafe(no_mangle)]
pub extern "C" fn meulhaton_negotiate(input: &[u8]) -> Agreement
    ensures { result ≡ agreement_of (negotiated input.now) }
{
    meulhaton::wire::meulhaton_negotiate(input)
}

#[unsafe(no_mangle)]
pub extern "C" fn meulhaton_read_frame(minor: u8, input: &[u8], buffer: &mut [u8]) -> FrameRead
    ensures answer { result ≡ frame_answer (telling (in_version minor (λ v. frame_of (keeps_alive v) (length buffer.old) input.now))) }
    ensures filled { buffer.new ≡ left leaves (in_version minor (λ v. frame_of (keeps_alive v) (length buffer.old) input.now)) buffer.old }
{
    meulhaton::wire::meulhaton_read_frame(minor, input, buffer)
}

#[unsafe(no_mangle)]
pub extern "C" fn meulhaton_write_chunks(
    message: &[u8],
    chunk_size: usize,
    out: &mut [u8],
) -> Output
    ensures answer { result ≡ output_of (counted (writing chunk_size (length out.old) message.now)) }
    ensures filled { out.new ≡ left front (writing chunk_size (length out.old) message.now) out.old }
{
    meulhaton::wire::meulhaton_write_chunks(message, chunk_size, out)
}
