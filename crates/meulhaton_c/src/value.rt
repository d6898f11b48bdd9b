// Values read and packed, for C: `meulhaton::value`.
ghost use Rattle.std.specs.Prelude.{◌≡◌};
ghost use Rattle.refusal.specs.Answer.{returned, left};
ghost use Rattle.values.specs.Decode.{value_in, decode};
ghost use Rattle.values.specs.Reading.{allowed, tell_message, tell_value};
ghost use Rattle.packing.specs.Packing.{pack_boolean, pack_integer, string_form, dictionary_form, structure_form, fitted, leaves, telling};
ghost use Rattle.meulhaton.specs.Wire.{output_of};
ghost use Rattle.meulhaton_fields.specs.Values.{value_answer};

use meulhaton::wire::Output;
use meulhaton_fields::value::ValueRead;

#[unsafe(no_mangle)]
pub extern "C" fn meulhaton_read_message(message: &[u8]) -> ValueRead
    ensures { result ≡ value_answer (tell_message message.now (decode message.now)) }
{
    meulhaton::value::meulhaton_read_message(message)
}

#[unsafe(no_mangle)]
pub extern "C" fn meulhaton_read_value(message: &[u8], at: usize, depth: usize) -> ValueRead
    ensures { result ≡ value_answer (tell_value (value_in message.now (allowed depth) at)) }
{
    meulhaton::value::meulhaton_read_value(message, at, depth)
}

#[unsafe(no_mangle)]
pub extern "C" fn meulhaton_pack_boolean(value: bool, out: &mut [u8], at: usize) -> Output
    ensures answer { result ≡ output_of (telling at (fitted out.old at (returned (pack_boolean value)))) }
    ensures filled { out.new ≡ left (leaves at) (fitted out.old at (returned (pack_boolean value))) out.old }
{
    meulhaton::value::meulhaton_pack_boolean(value, out, at)
}

#[unsafe(no_mangle)]
pub extern "C" fn meulhaton_pack_integer(number: i64, out: &mut [u8], at: usize) -> Output
    ensures answer { result ≡ output_of (telling at (fitted out.old at (returned (pack_integer number)))) }
    ensures filled { out.new ≡ left (leaves at) (fitted out.old at (returned (pack_integer number))) out.old }
{
    meulhaton::value::meulhaton_pack_integer(number, out, at)
}

#[unsafe(no_mangle)]
pub extern "C" fn meulhaton_pack_string(text: &[u8], out: &mut [u8], at: usize) -> Output
    ensures answer { result ≡ output_of (telling at (fitted out.old at (string_form text.now))) }
    ensures filled { out.new ≡ left (leaves at) (fitted out.old at (string_form text.now)) out.old }
{
    meulhaton::value::meulhaton_pack_string(text, out, at)
}

#[unsafe(no_mangle)]
pub extern "C" fn meulhaton_pack_dictionary(count: usize, out: &mut [u8], at: usize) -> Output
    ensures answer { result ≡ output_of (telling at (fitted out.old at (dictionary_form count))) }
    ensures filled { out.new ≡ left (leaves at) (fitted out.old at (dictionary_form count)) out.old }
{
    meulhaton::value::meulhaton_pack_dictionary(count, out, at)
}

#[unsafe(no_mangle)]
pub extern "C" fn meulhaton_pack_structure(
    tag: u8,
    count: usize,
    out: &mut [u8],
    at: usize,
) -> Output
    ensures answer { result ≡ output_of (telling at (fitted out.old at (structure_form tag count))) }
    ensures filled { out.new ≡ left (leaves at) (fitted out.old at (structure_form tag count)) out.old }
{
    meulhaton::value::meulhaton_pack_structure(tag, count, out, at)
}
