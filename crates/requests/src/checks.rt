// What an entry may hold: document 01, "Requests". One of another kind is refused with 26 and one out of its range with 27, at its marker.
ghost use Rattle.std.specs.Prelude.{◌≡◌, Bool, ℤ};
ghost use Rattle.refusal.specs.Answer.{told_at};
ghost use Rattle.requests.specs.Checks.{complaints};
ghost use Rattle.requests.specs.Private.Views.{string_seen, dictionary_seen, integer_seen, mode_seen, list_of_strings_seen};

use entries::view::{Entry, Mode, View};
use markers::extent::Span;
use refusal::{Fault, Refusal};

// A String.
pub fn string_in(entry: Option<Entry>) -> Result<Option<Span>, Fault>
    ensures { told_at result ≡ string_seen complaints entry }
{
    let Some(Entry { place, view }) = entry else {
        return Ok(None);
    };
    match view {
        View::String { span, .. } => Ok(Some(span)),
        _ => Err(Refusal::WrongKind.at(place)),
    }
}

// A Dictionary: its marker.
pub fn dictionary_in(entry: Option<Entry>) -> Result<Option<usize>, Fault>
    ensures { told_at result ≡ dictionary_seen complaints entry }
{
    let Some(Entry { place, view }) = entry else {
        return Ok(None);
    };
    match view {
        View::Dictionary => Ok(Some(place)),
        _ => Err(Refusal::WrongKind.at(place)),
    }
}

// A List of Strings: its marker.
pub fn list_of_strings_in(entry: Option<Entry>) -> Result<Option<usize>, Fault>
    ensures { told_at result ≡ list_of_strings_seen complaints entry }
{
    let Some(Entry { place, view }) = entry else {
        return Ok(None);
    };
    match view {
        View::List { wrong: None } => Ok(Some(place)),
        View::List { wrong: Some(item) } => Err(Refusal::WrongKind.at(item)),
        _ => Err(Refusal::WrongKind.at(place)),
    }
}

// "r" or "w".
pub fn mode_in(entry: Option<Entry>) -> Result<Option<Mode>, Fault>
    ensures { told_at result ≡ mode_seen complaints entry }
{
    let Some(Entry { place, view }) = entry else {
        return Ok(None);
    };
    let View::String { mode, .. } = view else {
        return Err(Refusal::WrongKind.at(place));
    };
    if mode.is_none() {
        return Err(Refusal::OutOfRange.at(place));
    }
    Ok(mode)
}

// An Integer that passes a test: the one of its range.
pub fn integer_in<F: Fn(i64) -> bool>(
    entry: Option<Entry>,
    is_in_range: F,
) -> Result<Option<i64>, Fault>
    requires { F.IsAlwaysCallable is_in_range }
    ensures { (range : ℤ → Bool) → ((z : ℤ) (b : Bool) → F.post is_in_range z b → b ≡ range z) → told_at result ≡ integer_seen complaints range entry }
{
    let Some(Entry { place, view }) = entry else {
        return Ok(None);
    };
    match view {
        View::Integer(number) if is_in_range(number) => Ok(Some(number)),
        View::Integer(_) => Err(Refusal::OutOfRange.at(place)),
        _ => Err(Refusal::WrongKind.at(place)),
    }
}
