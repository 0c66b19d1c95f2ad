//! Readers and writers that fail at one call, and lists and texts that are made.

use std::fmt::Display;
use std::io;
use std::io::{Read, Write};
use std::process::Abort;

// A device that moves at most seven bytes a call, and fails at one call. There it gives an error,
// or takes nothing if it gives zero.
#[derive(Drop)]
pub(crate) struct FailsAt<D> {
    pub device: D,
    pub calls: u64,
    pub gives_zero: bool,
}

impl<D> FailsAt<D> {
    // Makes a device that fails at this call, and gives an error there.
    pub fn new(device: D, calls: u64) -> Self {
        FailsAt {
            device,
            calls,
            gives_zero: false,
        }
    }

    // Returns whether this call is the one that fails.
    fn fails(&mut self) -> bool {
        let fails = self.calls == 0;
        self.calls = self.calls.wrapping_sub(1);
        fails
    }
}

impl<D: Read> Read for FailsAt<D> {
    fn read(&mut self, buf: &mut [u8]) -> io::Result<usize> {
        if self.fails() {
            return Err(io::Error::from(io::ErrorKind::Other));
        }
        let len = buf.len().min(7);
        self.device.read(&mut buf[..len])
    }
}

impl<D: Write> Write for FailsAt<D> {
    fn write(&mut self, buf: &[u8]) -> io::Result<usize> {
        if self.fails() {
            if self.gives_zero {
                return Ok(0);
            }
            return Err(io::Error::from(io::ErrorKind::Other));
        }
        let len = buf.len().min(7);
        self.device.write(&buf[..len])
    }

    fn flush(&mut self) -> io::Result<()> {
        if self.fails() && !self.gives_zero {
            return Err(io::Error::from(io::ErrorKind::Other));
        }
        self.device.flush()
    }
}

// Adds an item at the end of a list.
pub(crate) fn push<T>(rt: &impl Abort, list: &mut Vec<T>, item: T) {
    list.push(item).expect(rt, "no memory");
}

// Adds these bytes at the end of a text.
pub(crate) fn add(rt: &impl Abort, text: &mut Vec<u8>, more: &[u8]) {
    text.extend_from_slice(more).expect(rt, "no memory");
}

// Returns two texts joined.
pub(crate) fn joined(rt: &(impl AllocGlobal + Abort), a: &[u8], b: &[u8]) -> Vec<u8> {
    let mut text = Vec::new(rt.alloc());
    add(rt, &mut text, a);
    add(rt, &mut text, b);
    text
}

// Returns whether the value is displayed in these words.
pub(crate) fn says<T: Display>(rt: &(impl AllocGlobal + Abort), what: &T, wanted: &str) -> bool {
    let told = what.to_string(rt.alloc()).expect(rt, "no memory");
    told.as_str() == wanted
}

// Adds these characters at the end of a text.
fn add_str(rt: &impl Abort, text: &mut String, more: &str) {
    text.push_str(more).expect(rt, "no memory");
}

// Returns the file of this number of replies of a lane. Each is to a job of this kind on one item,
// which is its own number or 1.
pub(crate) fn replies_text(
    rt: &(impl AllocGlobal + Abort),
    lane: &str,
    kind: &str,
    is_own: bool,
    count: u64,
) -> String {
    let alloc = rt.alloc();
    let mut text = String::new(alloc);
    add_str(rt, &mut text, "lane,seq,kind,dim,result,rounds,messages\n");
    for seq in 0..count {
        let item = if is_own { seq } else { 1 };
        let line = format!(in alloc; "{lane},{seq},{kind},0,{item},0,0\n");
        add_str(rt, &mut text, line.expect(rt, "no memory").as_str());
    }
    text
}
