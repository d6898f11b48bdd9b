// The UTF-8 check as a function for C: rust/bench times it alone, without the readers that call it.
#![tactic(auto)]

ghost use Rattle.std.specs.Prelude.{◌≡◌};
ghost use Rattle.utf8.specs.Utf8.{utf8};

#[unsafe(no_mangle)]
pub extern "C" fn utf8_is_utf8(bytes: &[u8]) -> bool
    ensures { result ≡ utf8 bytes.now }
{
    utf8::is_utf8(bytes)
}
