// The handshake: twenty bytes, of which the first four are the preamble and the others four proposals in order of preference.
ghost use Rattle.std.specs.Prelude.{◌≡◌, ◌+◌, ◌≤◌, length};
ghost use Rattle.slices.specs.Parts.{part};
ghost use Rattle.refusal.specs.Answer.{told, mapped};
ghost use Rattle.handshake.specs.Negotiation.{negotiated, agrees, preamble};

use crate::version::Version;
use refusal::Refusal;

const PREAMBLE: [u8; 4] = [0x60, 0x60, 0xB0, 0x17];

// Whether the bytes of the preamble that are there are right.
fn preamble_agrees(input: &[u8]) -> bool
    ensures { result ≡ agrees preamble input.now }
{
    PREAMBLE.starts_with(&input[..input.len().min(PREAMBLE.len())])
}

// The four bytes at `at`.
fn four_at(input: &[u8], at: usize) -> [u8; 4]
    requires { at + 4 ≤ length input.now }
    ensures { result ≡ part input.now at 4 }
{
    input[at..at + 4].try_into().unwrap()
}

// The version to go on with: the first proposal that is known. Reads the first twenty bytes of `input`; what follows them is the
// caller's. Refuses with 2 where a byte of the preamble is wrong, else with 1 where fewer than twenty bytes are there, else with 3
// where no proposal is known: the server then sends four zeros.
pub fn negotiate(input: &[u8]) -> Result<Version, Refusal>
    ensures { mapped (λ version. version.minor) (told result) ≡ negotiated input.now }
{
    if !preamble_agrees(input) {
        return Err(Refusal::WrongPreamble);
    }
    if input.len() < 20 {
        return Err(Refusal::HandshakeTruncated);
    }
    // By index: there are four proposals, though more may follow them.
    for k in 0..4 {
        if let Some(version) = Version::from_bytes(four_at(input, 4 + 4 * k)) {
            return Ok(version);
        }
    }
    Err(Refusal::NoCommonVersion)
}
