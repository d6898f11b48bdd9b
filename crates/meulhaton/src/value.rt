// Values read and packed, as numbers.
ghost use Rattle.std.specs.Prelude.{◌≡◌};
ghost use Rattle.refusal.specs.Answer.{returned, left};
ghost use Rattle.values.specs.Decode.{value_in, decode};
ghost use Rattle.values.specs.Reading.{allowed, tell_message, tell_value};
ghost use Rattle.packing.specs.Packing.{pack_boolean, pack_integer, string_form, dictionary_form, structure_form, fitted, leaves, telling};
ghost use Rattle.meulhaton.specs.Wire.{output_of};
ghost use Rattle.meulhaton_fields.specs.Values.{value_answer};

use crate::wire::Output;
use meulhaton_fields::value::ValueRead;

// A whole message as one value: `values::read::read_message`.
pub fn meulhaton_read_message(message: &[u8]) -> ValueRead
    ensures { result ≡ value_answer (tell_message message.now (decode message.now)) }
{
    ValueRead::from(values::read::read_message(message))
}

// The value at `at`, with room for `depth` open containers, of which there are never more than 16: `values::read::read_value`.
pub fn meulhaton_read_value(message: &[u8], at: usize, depth: usize) -> ValueRead
    ensures { result ≡ value_answer (tell_value (value_in message.now (allowed depth) at)) }
{
    ValueRead::from(values::read::read_value(message, at, depth))
}

// False or True: `packing::pack_boolean`.
pub fn meulhaton_pack_boolean(value: bool, out: &mut [u8], at: usize) -> Output
    ensures answer { result ≡ output_of (telling at (fitted out.old at (returned (pack_boolean value)))) }
    ensures filled { out.new ≡ left (leaves at) (fitted out.old at (returned (pack_boolean value))) out.old }
{
    Output::from(packing::pack_boolean(value, out, at))
}

// An Integer: `packing::pack_integer`.
pub fn meulhaton_pack_integer(number: i64, out: &mut [u8], at: usize) -> Output
    ensures answer { result ≡ output_of (telling at (fitted out.old at (returned (pack_integer number)))) }
    ensures filled { out.new ≡ left (leaves at) (fitted out.old at (returned (pack_integer number))) out.old }
{
    Output::from(packing::pack_integer(number, out, at))
}

// A String, given its bytes: `packing::pack_string`.
pub fn meulhaton_pack_string(text: &[u8], out: &mut [u8], at: usize) -> Output
    ensures answer { result ≡ output_of (telling at (fitted out.old at (string_form text.now))) }
    ensures filled { out.new ≡ left (leaves at) (fitted out.old at (string_form text.now)) out.old }
{
    Output::from(packing::pack_string(text, out, at))
}

// The header of a Dictionary: `packing::pack_dictionary`.
pub fn meulhaton_pack_dictionary(count: usize, out: &mut [u8], at: usize) -> Output
    ensures answer { result ≡ output_of (telling at (fitted out.old at (dictionary_form count))) }
    ensures filled { out.new ≡ left (leaves at) (fitted out.old at (dictionary_form count)) out.old }
{
    Output::from(packing::pack_dictionary(count, out, at))
}

// The header of a Structure: `packing::pack_structure`.
pub fn meulhaton_pack_structure(tag: u8, count: usize, out: &mut [u8], at: usize) -> Output
    ensures answer { result ≡ output_of (telling at (fitted out.old at (structure_form tag count))) }
    ensures filled { out.new ≡ left (leaves at) (fitted out.old at (structure_form tag count)) out.old }
{
    Output::from(packing::pack_structure(tag, count, out, at))
}
