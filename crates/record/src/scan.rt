// One pass over the places in which requests wait, for all that the standing rules ask of them.
ghost use Rattle.std.specs.Prelude.{◌≡◌, not, ◌&&◌};
ghost use Rattle.bolt.specs.Ranges.{minus_one_or};
ghost use Rattle.record.specs.Ring.{lined, place_at};
ghost use Rattle.record.specs.Private.Seen.{seen_of};

use crate::record::Queue;
use crate::{names, ring};
use states::request;

// What one pass over those that wait finds: a place whose numbers are no request's or out of their ranges, else whether one is a RESET. An
// Option<bool> would leave its reader to remember what its three values mean.
#[derive(Clone, Copy, Debug, PartialEq, Eq)]
pub enum Seen {
    Plain,
    WithReset,
    Wrong,
}

// Whether the numbers of DISCARD or PULL are out of their ranges. This is the inner loop of every call, so each test leaves at once: by
// `are_in_range` a check of the rules takes 1.6 to 3 percent more instructions.
fn are_out_of_range(n: i64, qid: i64) -> bool
    ensures { result ≡ not (minus_one_or 1 n && minus_one_or 0 qid) }
{
    n < -1 || n == 0 || qid < -1
}

// One pass, in the order in which they wait.
pub fn scan(queue: &Queue, first: usize, waiting: usize) -> Seen
    ensures { result ≡ seen_of (lined (place_at queue.now) first waiting) }
{
    let mut reset = false;
    // The place goes around the ring, as in `Queue::has_reset`.
    let mut at = first;
    for _ in 0..waiting {
        let place = at % 32;
        at = ring::behind(at);
        // By ifs: in the last arm of a match no fact that a proof may name says which tags it is not.
        let kind = queue.kinds[place];
        if kind == request::PULL || kind == request::DISCARD {
            if are_out_of_range(queue.counts[place], queue.qids[place]) {
                return Seen::Wrong;
            }
            continue;
        }
        if kind == request::RESET {
            reset = true;
            continue;
        }
        if !names::is_request(kind) {
            return Seen::Wrong;
        }
    }
    if reset {
        return Seen::WithReset;
    }
    Seen::Plain
}
