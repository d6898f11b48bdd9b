// What Bolt 4 fixes for several layers: how long a message may be, and the ranges of n and qid; the requests and their tags stand in
// specs/Requests.antt.
#![tactic(auto)]

ghost use Rattle.std.specs.Prelude.{◌≡◌};
ghost use Rattle.bolt.specs.Ranges.{minus_one_or};

// A message has at most so many bytes.
pub const MOST_BYTES: usize = 16384;

// Whether n is -1 or at least 1.
pub fn is_count(n: i64) -> bool
    ensures { result ≡ minus_one_or 1 n }
{
    n == -1 || 1 <= n
}

// Whether qid is -1 or at least 0.
pub fn is_qid(qid: i64) -> bool
    ensures { result ≡ minus_one_or 0 qid }
{
    -1 <= qid
}
