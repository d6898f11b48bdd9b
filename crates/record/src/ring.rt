// The requests that wait stand around a ring of 32 places, one behind the other from the first on. A place beyond the last is counted around.
ghost use Rattle.std.specs.Prelude.{◌≡◌};
ghost use Rattle.states.specs.Requests.{any};
ghost use Rattle.record.specs.Ring.{behind as behindOf, lined, kind_at, place_at, is_reset, request_in};

use crate::names;
use crate::record::Queue;
use states::request;
use states::request::Request;

// The place behind one.
pub fn behind(at: usize) -> usize
    ensures { result ≡ behindOf at }
{
    (at % 32 + 1) % 32
}

impl Queue {
    // The request in a place.
    pub fn request_at(&self, at: usize) -> Request
        ensures { result ≡ request_in (place_at self.now at) }
    {
        let place = at % 32;
        names::request_of(self.kinds[place], self.counts[place], self.qids[place])
    }

    // Whether a RESET is among those that wait.
    #[tactic(auto, using(crate::proofs::Places::passed))]
    pub fn has_reset(&self, first: usize, waiting: usize) -> bool
        ensures { result ≡ any is_reset (lined (kind_at self.now.kinds) first waiting) }
    {
        // The place goes around the ring beside the count: no iterator says that more plainly.
        let mut at = first;
        for _ in 0..waiting {
            if self.kinds[at % 32] == request::RESET {
                return true;
            }
            at = behind(at);
        }
        false
    }
}
