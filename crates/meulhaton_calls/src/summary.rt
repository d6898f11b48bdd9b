// Summaries by their numbers. C can pass any numbers, and `summary_of` says what each is taken for, named or not: so it is no TryFrom.
ghost use Rattle.std.specs.Prelude.{◌≡◌};
ghost use Rattle.meulhaton_calls.specs.Summaries.{summary_of, is_summary};

use crate::replies::SummaryImage;
use states::answers::{Failure, Summary};

pub fn summary_of(image: SummaryImage) -> Summary
    ensures { result ≡ summary_of image }
{
    match image.kind {
        1 => Summary::Ignored,
        2 => Summary::Success,
        3 => Summary::HasMore(image.value == 1),
        4 => Summary::Stream(image.value),
        5 => Summary::Failure(Failure::StreamsFull),
        6 => Summary::Failure(Failure::StreamUnknown),
        _ => Summary::Failure(Failure::EngineFailed),
    }
}

// Whether the numbers are those of a summary.
pub fn is_summary(image: SummaryImage) -> bool
    ensures { result ≡ is_summary image }
{
    SummaryImage::from(summary_of(image)) == image
}
