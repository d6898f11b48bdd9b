// Summaries packed, for C: `meulhaton::summary`.
ghost use Rattle.std.specs.Prelude.{◌≡◌};
ghost use Rattle.refusal.specs.Answer.{left};
ghost use Rattle.packing.specs.Packing.{fitted, leaves, telling};
ghost use Rattle.meulhaton_calls.specs.Summaries.{summary_form};
ghost use Rattle.meulhaton.specs.Wire.{output_of};

use meulhaton::wire::Output;
use meulhaton_calls::replies::SummaryImage;

#[unsafe(no_mangle)]
pub extern "C" fn meulhaton_pack_summary(summary: SummaryImage, out: &mut [u8], at: usize) -> Output
    ensures answer { result ≡ output_of (telling at (fitted out.old at (summary_form summary))) }
    ensures filled { out.new ≡ left (leaves at) (fitted out.old at (summary_form summary)) out.old }
{
    meulhaton::summary::meulhaton_pack_summary(summary, out, at)
}
