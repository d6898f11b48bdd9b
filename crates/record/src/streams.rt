// The numbers of the open streams of a transaction stand at the front of their array; how many they are is the control's to know. What the
// other places hold never matters.
ghost use Rattle.std.specs.Prelude.{◌≡◌, ◌≤◌, length, take, drop};
ghost use Rattle.states.specs.Table.{has};
ghost use Rattle.states.specs.Rules.{distinct_below};

// How many the first `count` are: a count above 8 means all of them.
pub fn held(streams: &[u64; 8], count: usize) -> usize
    ensures { (result ≡ length (take count streams.now)) × (result ≤ 8) }
{
    count.min(streams.len())
}

// Whether a number is among the first `count`, looking from a place on.
pub fn is_open(streams: &[u64; 8], from: usize, count: usize, number: u64) -> bool
    ensures { result ≡ has number (drop from (take count streams.now)) }
{
    streams
        .iter()
        .take(count)
        .skip(from)
        .any(|&open| open == number)
}

// Whether the first `count` are distinct and below the next number.
pub fn are_valid(streams: &[u64; 8], count: usize, next: u64) -> bool
    requires { count ≤ 8 }
    ensures { result ≡ distinct_below next (take count streams.now) }
{
    // By index: each number is sought among those behind it.
    for i in 0..held(streams, count) {
        let number = streams[i];
        if next <= number || is_open(streams, i + 1, count, number) {
            return false;
        }
    }
    true
}
