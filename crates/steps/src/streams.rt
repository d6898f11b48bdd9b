// The numbers of the open streams, changed where they lie: the open ones stand at the front of their array.
ghost use Rattle.std.specs.Prelude.{◌≡◌, ◌++◌, ◌∷◌, [], ◌≤◌, ◌<◌, take, length};
ghost use Rattle.std.proofs.lemmas.List.Edits.{sets};
ghost use Rattle.states.specs.Table.{without};

// How many streams are open, and the number that the next one gets.
#[derive(Clone, Copy, Debug)]
pub struct Opened {
    pub count: usize,
    pub next: u64,
}

// A number goes behind the first `count`.
pub fn push(streams: &mut [u64; 8], count: usize, number: u64)
    requires { (count < 8) × (length streams.old ≡ 8) }
    ensures { streams.new ≡ sets streams.old 0 (take count streams.old ++ (number ∷ [])) }
{
    streams[count] = number;
}

// A number goes from among the first `count`, and those behind it move up; how many are left.
pub fn remove(streams: &mut [u64; 8], count: usize, number: u64) -> usize
    requires { (count ≤ 8) × (length streams.old ≡ 8) }
    ensures left { result ≡ length (without number (take count streams.old)) }
    ensures moved { streams.new ≡ sets streams.old 0 (without number (take count streams.old)) }
{
    let mut left = 0;
    // By index, since what stays is written into the array that is read.
    for i in 0..count {
        let x = streams[i];
        if x != number {
            streams[left] = x;
            left += 1;
        }
    }
    left
}
