// Packing summaries: document 01, "Summaries". But for the number of a stream a summary has only so many forms, each written here as it
// stands on the wire; it is packed whole or not at all. A buffer and an offset, as `packing` has them.
ghost use Rattle.std.specs.Prelude.{◌≡◌, length};
ghost use Rattle.refusal.specs.Answer.{returned, left, told};
ghost use Rattle.packing.specs.Packing.{fitted, leaves, telling};
ghost use Rattle.states.specs.declared.answers.Summary.TheVariants as S;
ghost use Rattle.summaries.specs.Summaries.{pack_summary};

use refusal::Refusal;
use states::answers::{Failure, Summary};

// How many bytes the summary of a RUN in a transaction takes.
fn stream_length(number: u32) -> usize
    ensures { result ≡ length (pack_summary (S.Stream number)) }
{
    7 + packing::integer_length(number as i64)
}

// How many bytes a FAILURE takes.
fn failure_length(why: Failure) -> usize
    ensures { result ≡ length (pack_summary (S.Failure why)) }
{
    match why {
        Failure::StreamsFull => 54,
        Failure::StreamUnknown => 60,
        Failure::EngineFailed => 58,
    }
}

// How many bytes a summary takes.
pub fn summary_length(summary: Summary) -> usize
    ensures { result ≡ length (pack_summary summary) }
{
    match summary {
        Summary::Ignored => 2,
        Summary::Success => 3,
        Summary::HasMore(_) => 13,
        Summary::Stream(number) => stream_length(number),
        Summary::Failure(why) => failure_length(why),
    }
}

// Packs what is already in its packed form.
fn pack_form(form: &[u8], out: &mut [u8], at: usize) -> Result<usize, Refusal>
    ensures answer { told result ≡ telling at (fitted out.old at (returned form.now)) }
    ensures filled { out.new ≡ left (leaves at) (fitted out.old at (returned form.now)) out.old }
{
    if slices::copy(form, 0, form.len(), out, at) {
        Ok(at + form.len())
    } else {
        Err(Refusal::NoRoom)
    }
}

// SUCCESS with has_more, as it is packed.
fn has_more_form(more: bool) -> &'static [u8]
    ensures { result.now ≡ pack_summary (S.HasMore more) }
{
    if more {
        b"\xB1\x70\xA1\x88has_more\xC3"
    } else {
        b"\xB1\x70\xA1\x88has_more\xC2"
    }
}

// Packs SUCCESS with has_more.
fn pack_has_more(more: bool, out: &mut [u8], at: usize) -> Result<usize, Refusal>
    ensures answer { told result ≡ telling at (fitted out.old at (returned (pack_summary (S.HasMore more)))) }
    ensures filled { out.new ≡ left (leaves at) (fitted out.old at (returned (pack_summary (S.HasMore more)))) out.old }
{
    pack_form(has_more_form(more), out, at)
}

// Packs SUCCESS with the qid of a stream.
fn pack_stream(number: u32, out: &mut [u8], at: usize) -> Result<usize, Refusal>
    ensures answer { told result ≡ telling at (fitted out.old at (returned (pack_summary (S.Stream number)))) }
    ensures filled { out.new ≡ left (leaves at) (fitted out.old at (returned (pack_summary (S.Stream number)))) out.old }
{
    if !numbers::in_bounds(out.len(), at, stream_length(number)) {
        return Err(Refusal::NoRoom);
    }
    slices::copy(b"\xB1\x70\xA1\x83qid", 0, 7, out, at);
    packing::pack_integer(number as i64, out, at + 7)
}

// FAILURE, as it is packed: the text as its code and as its message.
fn failure_form(why: Failure) -> &'static [u8]
    ensures { result.now ≡ pack_summary (S.Failure why) }
{
    match why {
        Failure::StreamsFull => {
            b"\xB1\x7F\xA2\x84code\xD0\x11Parts.Stream.Full\x87message\xD0\x11Parts.Stream.Full"
        }
        Failure::StreamUnknown => {
            b"\xB1\x7F\xA2\x84code\xD0\x14Parts.Stream.Unknown\x87message\xD0\x14Parts.Stream.Unknown"
        }
        Failure::EngineFailed => {
            b"\xB1\x7F\xA2\x84code\xD0\x13Parts.Engine.Failed\x87message\xD0\x13Parts.Engine.Failed"
        }
    }
}

// Packs FAILURE.
fn pack_failure(why: Failure, out: &mut [u8], at: usize) -> Result<usize, Refusal>
    ensures answer { told result ≡ telling at (fitted out.old at (returned (pack_summary (S.Failure why)))) }
    ensures filled { out.new ≡ left (leaves at) (fitted out.old at (returned (pack_summary (S.Failure why)))) out.old }
{
    pack_form(failure_form(why), out, at)
}

// Packs a summary from `at` on. Refuses with 21 where the whole of it does not fit, and has then written nothing.
pub fn pack_summary(summary: Summary, out: &mut [u8], at: usize) -> Result<usize, Refusal>
    ensures answer { told result ≡ telling at (fitted out.old at (returned (pack_summary summary))) }
    ensures filled { out.new ≡ left (leaves at) (fitted out.old at (returned (pack_summary summary))) out.old }
{
    match summary {
        Summary::Ignored => pack_form(b"\xB0\x7E", out, at),
        Summary::Success => pack_form(b"\xB1\x70\xA0", out, at),
        Summary::HasMore(more) => pack_has_more(more, out, at),
        Summary::Stream(number) => pack_stream(number, out, at),
        Summary::Failure(why) => pack_failure(why, out, at),
    }
}
