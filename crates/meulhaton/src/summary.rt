// Summaries packed, given as numbers.
ghost use Rattle.std.specs.Prelude.{◌≡◌};
ghost use Rattle.refusal.specs.Answer.{left};
ghost use Rattle.packing.specs.Packing.{fitted, leaves, telling};
ghost use Rattle.meulhaton_calls.specs.Summaries.{summary_form};
ghost use Rattle.meulhaton.specs.Wire.{output_of};

use crate::wire::Output;
use meulhaton_calls::replies::SummaryImage;
use meulhaton_calls::summary;
use refusal::Refusal;

// A summary, as a reply has it: `summaries::summary::pack_summary`.
#[tactic(auto, unfolding(meulhaton_calls::specs::Summaries::summary_form))]
pub fn meulhaton_pack_summary(summary: SummaryImage, out: &mut [u8], at: usize) -> Output
    ensures answer { result ≡ output_of (telling at (fitted out.old at (summary_form summary))) }
    ensures filled { out.new ≡ left (leaves at) (fitted out.old at (summary_form summary)) out.old }
{
    if !summary::is_summary(summary) {
        return Output::from(Err(Refusal::InvalidRecord));
    }
    let named = summary::summary_of(summary);
    Output::from(summaries::summary::pack_summary(named, out, at))
}
