// Packing values, each in its shortest form. A packer writes from an offset of a lent buffer on, so that pieces are packed one behind
// the other: the headers of Structures and Dictionaries, then what these hold. A refused packer has written nothing.
// A buffer and an offset, and no writer that holds both: C passes them so, and no packer writes twice.
#![tactic(auto)]

ghost use Rattle.std.specs.Prelude.{◌≡◌, ◌+◌, ◌≤◌, ◌<◌, cond, length, Ok, Err};
ghost use Rattle.std.proofs.lemmas.List.Edits.{sets};
ghost use Rattle.refusal.specs.Answer.{returned, left, told};
ghost use Rattle.slices.specs.Parts.{reaches};
ghost use Rattle.refusal.specs.declared.Refusal.TheVariants.{NoRoom};
ghost use Rattle.packing.specs.Packing.{doublings, is_tiny, integer_width, pack_integer, size_width, size_header, header_length, pack_boolean, string_form, dictionary_form, structure_form, fitted, leaves, telling};

use bolt::MOST_BYTES;
use refusal::Refusal;

// How often 1 is doubled to give a width: so far from the first of its kind is the marker of that width.
#[tactic(auto, unfolding(crate::specs::Packing::doublings))]
fn doublings(width: usize) -> u8
    ensures { result ≡ doublings width }
{
    match width {
        1 => 0,
        2 => 1,
        4 => 2,
        _ => 3,
    }
}

// Whether the Integer is its own marker: -16 to 127.
fn is_tiny(number: i64) -> bool
    ensures { result ≡ is_tiny number }
{
    (-16..=127).contains(&number)
}

// The narrowest width that holds an Integer.
#[tactic(auto, unfolding(crate::specs::Packing::narrowest))]
fn integer_width(number: i64) -> usize
    ensures { result ≡ integer_width number }
{
    if numbers::fits_signed(number, 1) {
        1
    } else if numbers::fits_signed(number, 2) {
        2
    } else if numbers::fits_signed(number, 4) {
        4
    } else {
        8
    }
}

// The narrowest width that holds a size. Not one function with the one above: a test that is passed in would need clauses of its own, which
// are longer than these lines.
#[tactic(auto, unfolding(crate::specs::Packing::narrowest))]
fn size_width(size: usize) -> usize
    ensures { result ≡ size_width size }
{
    if size <= 0xFF {
        1
    } else if size <= 0xFFFF {
        2
    } else if size <= 0xFFFF_FFFF {
        4
    } else {
        8
    }
}

// How many bytes an Integer takes.
pub fn integer_length(number: i64) -> usize
    ensures { result ≡ length (pack_integer number) }
{
    if is_tiny(number) {
        1
    } else {
        1 + integer_width(number)
    }
}

// How many bytes the header of a String or a Dictionary takes.
fn header_length(size: usize) -> usize
    ensures { result ≡ header_length size }
{
    if size < 16 { 1 } else { 1 + size_width(size) }
}

// The offset past `size` bytes from `at` on. Refuses with 21 where they do not fit.
fn room(out: &[u8], at: usize, size: usize) -> Result<usize, Refusal>
    ensures { result ≡ cond (reaches out.now at size) (Ok (at + size)) (Err NoRoom) }
{
    if numbers::in_bounds(out.len(), at, size) {
        Ok(at + size)
    } else {
        Err(Refusal::NoRoom)
    }
}

// Packs False or True.
pub fn pack_boolean(value: bool, out: &mut [u8], at: usize) -> Result<usize, Refusal>
    ensures answer { told result ≡ telling at (fitted out.old at (returned (pack_boolean value))) }
    ensures filled { out.new ≡ left (leaves at) (fitted out.old at (returned (pack_boolean value))) out.old }
{
    let end = room(out, at, 1)?;
    out[at] = if value { 0xC3 } else { 0xC2 };
    Ok(end)
}

// Writes an Integer. There is room, and the width holds it: neither write is refused.
fn put_integer(number: i64, out: &mut [u8], at: usize)
    requires { at + length (pack_integer number) ≤ length out.old }
    ensures { out.new ≡ sets out.old at (pack_integer number) }
{
    if is_tiny(number) {
        let _ = numbers::write_signed(out, at, 1, number);
        return;
    }
    let width = integer_width(number);
    out[at] = 0xC8 + doublings(width);
    let _ = numbers::write_signed(out, at + 1, width, number);
}

// Packs an Integer.
pub fn pack_integer(number: i64, out: &mut [u8], at: usize) -> Result<usize, Refusal>
    ensures answer { told result ≡ telling at (fitted out.old at (returned (pack_integer number))) }
    ensures filled { out.new ≡ left (leaves at) (fitted out.old at (returned (pack_integer number))) out.old }
{
    let end = room(out, at, integer_length(number))?;
    put_integer(number, out, at);
    Ok(end)
}

// Writes the header of a size: in the low four bits of the marker `small`, or behind a marker of the row from `row` on.
// There is room, and the width holds the size: the write is not refused.
fn put_header(small: u8, row: u8, size: usize, out: &mut [u8], at: usize)
    requires { (small ≤ 0xF0) × (row ≤ 0xFC) × (at + length (size_header small row size) ≤ length out.old) }
    ensures { out.new ≡ sets out.old at (size_header small row size) }
{
    if size < 16 {
        out[at] = small + (size as u8);
        return;
    }
    let width = size_width(size);
    out[at] = row + doublings(width);
    let _ = numbers::write_unsigned(out, at + 1, width, size as u64);
}

// Packs a String, given its bytes. Refuses with 6 where it has over 16,384, with 10 where they are not UTF-8, and with 21 where the
// whole output does not fit.
#[tactic(auto, using(crate::proofs::Packing::length_header))]
pub fn pack_string(text: &[u8], out: &mut [u8], at: usize) -> Result<usize, Refusal>
    ensures answer { told result ≡ telling at (fitted out.old at (string_form text.now)) }
    ensures filled { out.new ≡ left (leaves at) (fitted out.old at (string_form text.now)) out.old }
{
    let size = text.len();
    if MOST_BYTES < size {
        return Err(Refusal::TooLong);
    }
    if !utf8::is_utf8(text) {
        return Err(Refusal::InvalidUtf8);
    }
    let header = header_length(size);
    let total = header + size;
    let end = room(out, at, total)?;
    put_header(0x80, 0xD0, size, out, at);
    slices::copy(text, 0, size, out, at + header);
    Ok(end)
}

// Packs the header of a Dictionary of `count` entries. Refuses with 6 where a message has no room for as many.
#[tactic(auto, using(crate::proofs::Packing::length_header))]
pub fn pack_dictionary(count: usize, out: &mut [u8], at: usize) -> Result<usize, Refusal>
    ensures answer { told result ≡ telling at (fitted out.old at (dictionary_form count)) }
    ensures filled { out.new ≡ left (leaves at) (fitted out.old at (dictionary_form count)) out.old }
{
    if MOST_BYTES < count {
        return Err(Refusal::TooLong);
    }
    let end = room(out, at, header_length(count))?;
    put_header(0xA0, 0xD8, count, out, at);
    Ok(end)
}

// Packs the header of a Structure: its tag, and how many fields it has. Refuses with 6 where they are over 15.
pub fn pack_structure(tag: u8, count: usize, out: &mut [u8], at: usize) -> Result<usize, Refusal>
    ensures answer { told result ≡ telling at (fitted out.old at (structure_form tag count)) }
    ensures filled { out.new ≡ left (leaves at) (fitted out.old at (structure_form tag count)) out.old }
{
    if 15 < count {
        return Err(Refusal::TooLong);
    }
    let end = room(out, at, 2)?;
    out[at] = 0xB0 + (count as u8);
    out[at + 1] = tag;
    Ok(end)
}
