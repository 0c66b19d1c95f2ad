// The lines of a file, buffered on their way to a borrowed writer.
ghost use Rattle.std.specs.Prelude.{◌≡◌, [], ◌++◌, ℕ, List, IfOk, OnOk};
ghost use Rattle.std.specs.Io.KnownBytes.{Appends, Keeps};
ghost use Rattle.csv.specs.Records.{fields_of};
ghost use Rattle.csv.specs.Writing.{default_writer, row_text};
ghost use Rattle.jobs_csv.specs.Text.{line_of};

use crate::fault::WriteError;
use crate::row::{Row, RowFields};
use csv::{ByteRecord, Writer};
use std::alloc::{AllocError, Global};
use std::io::Write;
use std::marker::Model;
use std::mem::replace;

// The buffer is full if it has this many bytes.
const FULL: usize = 65_536;

/// The lines of one file on their way to a writer.
///
/// Contracts see the text that is buffered. A call that fails drops the buffer.
#[derive(Drop)]
pub struct LineBuffer {
    text: Vec<u8>,
    // In a box, since a buffer is passed by value.
    fields: Box<RowFields>,
    alloc: Global,
}

impl Model for LineBuffer {
    ghost use Rattle.std.specs.Prelude.{List, ℕ};

    ghost Value = { List ℕ };

    ghost view = { λ l. l.text.items };
}

// Writes all of a text.
fn write_out<W: Write>(text: &[u8], writer: &mut W) -> Result<(), WriteError>
    ensures { OnOk result (Appends (W.contents writer.old) (W.contents writer.new) text.now) }
{
    if writer.write_all(text).is_err() {
        return Err(WriteError);
    }
    Ok(())
}

fn flush_writer<W: Write>(writer: &mut W) -> Result<(), WriteError>
    ensures { OnOk result (Keeps (W.contents writer.old) (W.contents writer.new)) }
{
    if writer.flush().is_err() {
        return Err(WriteError);
    }
    Ok(())
}

impl LineBuffer {
    /// Creates an empty buffer.
    pub fn new(alloc: Global) -> Result<Self, AllocError>
        ensures { IfOk result (λ lines. lines ≡ []) }
    {
        Ok(LineBuffer {
            text: Vec::new(alloc),
            fields: Box::new(alloc, RowFields::new(alloc))?,
            alloc,
        })
    }

    /// Buffers the header of a type of rows.
    pub fn push_header<T: Row>(mut self) -> Result<Self, AllocError>
        ensures { IfOk result (λ lines. lines ≡ self ++ line_of T.columns) }
    {
        self.fields.clear();
        T::push_columns(&mut self.fields)?;
        self.fields.append_to(&mut self.text)?;
        Ok(self)
    }

    /// Buffers the line of a row.
    pub fn push<T: Row>(mut self, row: &T) -> Result<Self, AllocError>
        ensures { IfOk result (λ lines. lines ≡ self ++ line_of (T.fields row.now)) }
    {
        self.fields.clear();
        row.push_fields(self.alloc, &mut self.fields)?;
        self.fields.append_to(&mut self.text)?;
        Ok(self)
    }

    /// Buffers a record. A field that needs quotes gets them.
    pub(crate) fn push_record(mut self, fields: &ByteRecord) -> Result<Self, AllocError>
        ensures { IfOk result (λ lines.
            lines ≡ self ++ row_text default_writer (fields_of fields.now)) }
    {
        let mut writer = Writer::from_writer(replace(&mut self.text, Vec::new(self.alloc)));
        let Ok(()) = writer.write_byte_record(fields) else {
            return Err(AllocError);
        };
        let Ok(text) = writer.into_inner() else {
            return Err(AllocError);
        };
        self.text = text;
        Ok(self)
    }

    /// Buffers the line of a row. Writes the buffer out if it is full.
    pub fn write_row<T: Row, W: Write>(self, row: &T, writer: &mut W) -> Result<Self, WriteError>
        ensures { IfOk result (λ lines. (out : List ℕ)
            × Appends (W.contents writer.old) (W.contents writer.new) out
            × (out ++ lines ≡ self ++ line_of (T.fields row.now))) }
    {
        let lines = self.push(row)?;
        let lines = lines.flush_if_full(writer)?;
        Ok(lines)
    }

    /// Writes out the buffered lines and empties the buffer.
    pub fn flush<W: Write>(mut self, writer: &mut W) -> Result<Self, WriteError>
        ensures written { OnOk result
            (Appends (W.contents writer.old) (W.contents writer.new) self) }
        ensures empty { IfOk result (λ lines. lines ≡ []) }
    {
        write_out(&self.text, writer)?;
        self.text.clear();
        Ok(self)
    }

    /// Writes out the buffered lines, as `flush` does, if the buffer is full.
    pub fn flush_if_full<W: Write>(self, writer: &mut W) -> Result<Self, WriteError>
        ensures { IfOk result (λ lines. (out : List ℕ)
            × Appends (W.contents writer.old) (W.contents writer.new) out
            × (out ++ lines ≡ self)) }
    {
        if self.text.len() >= FULL {
            self.flush(writer)
        } else {
            Ok(self)
        }
    }

    /// Writes out the last lines and flushes the writer.
    pub fn finish<W: Write>(self, writer: &mut W) -> Result<(), WriteError>
        ensures { OnOk result (Appends (W.contents writer.old) (W.contents writer.new) self) }
    {
        let _empty = self.flush(writer)?;
        flush_writer(writer)
    }
}
