// A row that is written, and the fields of its line.
ghost use Rattle.std.specs.Prelude.{◌≡◌, ◌∷◌, [], ◌++◌, ◌≤◌, ℕ, List, OnOk, length, string_bytes};
ghost use Rattle.std.specs.Fmt.{decimal};
ghost use Rattle.jobs_csv.specs.Inner.Output.{IsEnded, fields_in};
ghost use Rattle.jobs_csv.specs.Text.{IsPlainField, line_of, number_text};

use itoa::{Integer, write_digits};
use std::alloc::{AllocError, Global};
use std::marker::Model;
use std::mem::replace;

/// A row that is written: its columns and its fields.
pub trait Row {
    // The texts of the header.
    ghost columns: { List (List ℕ) };

    // The texts of a row.
    ghost fields: { Self → List (List ℕ) };

    /// Pushes the texts of the header.
    fn push_columns(line: &mut RowFields) -> Result<(), AllocError>
        requires empty { line.old ≡ [] }
        ensures texts { OnOk result (line.new ≡ columns) }
        ensures some { 2 ≤ length columns };

    /// Pushes the texts of a row, one for each column.
    fn push_fields(&self, alloc: Global, line: &mut RowFields) -> Result<(), AllocError>
        requires empty { line.old ≡ [] }
        ensures texts { OnOk result (line.new ≡ fields self.now) }
        ensures each { length (fields self.now) ≡ length columns }
        ensures some { 2 ≤ length (fields self.now) };
}

// The most digits of a number.
const MAX_DIGITS: usize = u64::MAX_STR_LEN;

/// The fields of a line, none of which needs quotes.
///
/// Contracts see the list of their texts.
#[derive(Drop)]
pub struct RowFields {
    // The bytes of the fields, with a comma after each.
    line: Vec<u8>,
    // The room of the texts that rows make, so that not each of them reserves memory.
    room: String,
}

impl Model for RowFields {
    ghost use Rattle.std.specs.Prelude.{List, ℕ};
    ghost use Rattle.jobs_csv.specs.Inner.Output.{IsEnded, fields_in};

    ghost Value = { List (List ℕ) };

    ghost view = { λ r. fields_in r.line.items };

    ghost invariant = { λ r. IsEnded r.line.items };
}

// Appends a field and a comma. If there is no memory for the comma, no field is left.
fn push_plain(line: &mut Vec<u8>, field: &[u8]) -> Result<(), AllocError>
    requires plain { IsPlainField field.now }
    requires had { IsEnded line.old.items }
    ensures has { IsEnded line.new.items }
    ensures pushed { OnOk result
        (fields_in line.new.items ≡ fields_in line.old.items ++ field.now ∷ []) }
{
    line.extend_from_slice(field)?;
    let Ok(()) = line.push(b',') else {
        line.clear();
        return Err(AllocError);
    };
    Ok(())
}

// Appends a number in decimal digits and a comma. If there is no memory, the line stays.
fn push_digits(line: &mut Vec<u8>, number: u64) -> Result<(), AllocError>
    requires had { IsEnded line.old.items }
    ensures has { IsEnded line.new.items }
    ensures pushed { OnOk result
        (fields_in line.new.items ≡ fields_in line.old.items ++ decimal number ∷ []) }
{
    let mut digits = [b','; MAX_DIGITS + 1];
    let start = write_digits(number, &mut digits, MAX_DIGITS);
    line.extend_from_slice(&digits[start..])?;
    Ok(())
}

impl RowFields {
    /// Creates a line with no fields.
    pub(crate) fn new(alloc: Global) -> Self
        ensures { result ≡ [] }
    {
        RowFields {
            line: Vec::new(alloc),
            room: String::new(alloc),
        }
    }

    /// Takes an empty text out, with the room of the text that was put back last.
    pub fn take_room(&mut self, alloc: Global) -> String
        ensures text { string_bytes result ≡ [] }
        ensures fields { self.new ≡ self.old }
    {
        let mut text = replace(&mut self.room, String::new(alloc));
        text.clear();
        text
    }

    /// Puts a text back, so that the next one can use its room.
    pub fn put_room(&mut self, text: String)
        ensures { self.new ≡ self.old }
    {
        self.room = text;
    }

    /// Removes all fields.
    pub(crate) fn clear(&mut self)
        ensures { self.new ≡ [] }
    {
        self.line.clear();
    }

    /// Pushes a text that needs no quotes.
    pub fn push_text(&mut self, text: &[u8]) -> Result<(), AllocError>
        requires { IsPlainField text.now }
        ensures { OnOk result (self.new ≡ self.old ++ text.now ∷ []) }
    {
        push_plain(&mut self.line, text)
    }

    /// Pushes a number in decimal digits.
    pub fn push_number(&mut self, number: u64) -> Result<(), AllocError>
        ensures { OnOk result (self.new ≡ self.old ++ decimal number ∷ []) }
    {
        push_digits(&mut self.line, number)
    }

    /// Pushes a number, or a dash for nothing.
    pub fn push_number_or_dash(&mut self, number: Option<u64>) -> Result<(), AllocError>
        ensures { OnOk result (self.new ≡ self.old ++ number_text number ∷ []) }
    {
        match number {
            Some(number) => return self.push_number(number),
            None => return self.push_text(b"-".as_slice()),
        }
    }

    /// Appends the line of the fields to a text.
    pub(crate) fn append_to(&self, text: &mut Vec<u8>) -> Result<(), AllocError>
        requires { 1 ≤ length self.now }
        ensures { OnOk result (text.new.items ≡ text.old.items ++ line_of self.now) }
    {
        let last_comma = self.line.len() - 1;
        text.extend_from_slice(&self.line[..last_comma])?;
        text.push(b'\n')?;
        Ok(())
    }
}
