// The line of a file on which a record begins, by the reader's count of line feeds.
use csv::ByteRecord;

// Returns how many line feeds a field has.
fn feeds_in(field: &[u8]) -> u64 {
    let mut feeds: u64 = 0;
    for byte in field {
        if *byte == b'\n' {
            feeds = feeds.saturating_add(1);
        }
    }
    feeds
}

// Returns the line on which a record begins if its line end is not yet read. The line is `end` once
// the record is read, and each line feed in its fields is one line.
fn unended(record: &ByteRecord, end: u64) -> u64 {
    let mut line = end;
    for index in 0..record.len() {
        if let Some(field) = record.get(index) {
            line = line.saturating_sub(feeds_in(field));
        }
    }
    line
}

// Returns the line at which the read of a record began. Blank lines may be between it and the
// record.
fn start_of(record: &ByteRecord) -> u64 {
    match record.position() {
        Some(position) => position.line(),
        None => 1,
    }
}

/// Returns whether the read of this record, the first of a file, went on to a line feed. Otherwise
/// lines end with a carriage return first, which ends the record.
pub(crate) fn ends_with_feed(record: &ByteRecord, end: u64) -> bool {
    unended(record, end) > start_of(record)
}

/// The end of a record that was read.
#[derive(Clone, Copy)]
pub(crate) struct RecordEnd {
    /// The line that the reader is on once the record is read.
    pub line: u64,
    /// Whether a line feed ended the record.
    pub is_feed: bool,
}

/// Returns the line on which a record begins that has this end.
pub(crate) fn begins_on(record: &ByteRecord, end: RecordEnd) -> u64 {
    let line = unended(record, end.line);
    if end.is_feed {
        line.saturating_sub(1)
    } else {
        line
    }
}
