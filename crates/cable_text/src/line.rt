//! Lines written field by field, in columns where the fields ask for places.

ghost use Rattle.std.specs.Prelude.{◌≡◌, ◌∷◌, length, map, replicate};
ghost use Rattle.std.specs.List.{concat};
ghost use Rattle.std.specs.Fmt.{decimal};
ghost use Rattle.cable_definitions.specs.Text.{line};
ghost use Rattle.cable_definitions.specs.Report.{left_in, right_in};
ghost use Rattle.cable_definitions.specs.Stream.{Writes};
ghost use Rattle.cable_text.specs.Fields.{field_text, spaced};

use crate::line_buffer::LineBuffer;
use crate::number::push_number;
use crate::stream::{Failed, Sink};

/// A word of a line, a number in its one spelling, a text left in so many places, or a number right in
/// so many places.
#[derive(Clone, Copy)]
pub enum Field<'a> {
    Word(&'a [u8]),
    Number(i128),
    Left(usize, &'a [u8]),
    Right(usize, u64),
}

/// A number that isn't negative, as a field of a line.
pub fn count_of(value: u64) -> Field<'static>
    ensures { field_text result ≡ decimal value }
{
    Field::Number(i128::from(value))
}

/// Appends a line: the first word, the fields with a space before each, and the newline. A line of at
/// most 4,096 bytes is pushed as one piece.
///
/// # Errors
///
/// `Failed` only where the count of `out` rose or stands at its last value. Some first part of the
/// line was appended then.
pub fn push_line<O: Sink>(word: &[u8], fields: &[Field], out: &mut O) -> Result<(), Failed>
    ensures { Writes result (O.state out.old) (O.state out.new) (line (word.now ∷ map field_text fields.now)) }
{
    let mut buffer = LineBuffer::new();
    match push_pieces(word, fields, &mut buffer) {
        Ok(()) => out.push(buffer.as_slice()),
        // A line that doesn't fit is written piece by piece.
        Err(Failed) => push_pieces(word, fields, out),
    }
}

/// Appends the first word, the fields with a space before each, and the newline.
fn push_pieces<O: Sink>(word: &[u8], fields: &[Field], out: &mut O) -> Result<(), Failed>
    ensures { Writes result (O.state out.old) (O.state out.new) (line (word.now ∷ map field_text fields.now)) }
{
    out.push(word)?;
    push_fields(fields, out)?;
    out.push(b"\n")
}

/// Appends the fields with a space before each.
fn push_fields<O: Sink>(fields: &[Field], out: &mut O) -> Result<(), Failed>
    ensures { Writes result (O.state out.old) (O.state out.new) (concat (map spaced fields.now)) }
{
    for field in fields {
        push_spaced(field, out)?;
    }
    Ok(())
}

/// Appends a space and the field.
fn push_spaced<O: Sink>(field: &Field, out: &mut O) -> Result<(), Failed>
    ensures { Writes result (O.state out.old) (O.state out.new) (spaced field.now) }
{
    out.push(b" ")?;
    push_field(field, out)
}

/// Appends the field.
fn push_field<O: Sink>(field: &Field, out: &mut O) -> Result<(), Failed>
    ensures { Writes result (O.state out.old) (O.state out.new) (field_text field.now) }
{
    match field {
        Field::Word(word) => out.push(word),
        Field::Number(number) => push_number(*number, out),
        Field::Left(places, text) => push_left(*places, text, out),
        Field::Right(places, value) => push_right(*places, *value, out),
    }
}

/// Appends a text and spaces behind it up to so many places.
fn push_left<O: Sink>(places: usize, text: &[u8], out: &mut O) -> Result<(), Failed>
    ensures { Writes result (O.state out.old) (O.state out.new) (left_in places text.now) }
{
    out.push(text)?;
    push_spaces(places.saturating_sub(text.len()), out)
}

/// Appends a number and spaces before it up to so many places.
fn push_right<O: Sink>(places: usize, value: u64, out: &mut O) -> Result<(), Failed>
    ensures { Writes result (O.state out.old) (O.state out.new) (right_in places (decimal value)) }
{
    push_spaces(places.saturating_sub(digit_count(value)), out)?;
    push_number(i128::from(value), out)
}

/// Appends so many spaces.
fn push_spaces<O: Sink>(count: usize, out: &mut O) -> Result<(), Failed>
    ensures { Writes result (O.state out.old) (O.state out.new) (replicate count 32) }
{
    for place in 0..count {
        out.push(b" ")?;
    }
    Ok(())
}

/// How many digits a number is written with.
fn digit_count(value: u64) -> usize
    ensures { result ≡ length (decimal value) }
{
    let mut left = value;
    let mut count = 1;
    while left >= 10 {
        left /= 10;
        count += 1;
    }
    count
}
