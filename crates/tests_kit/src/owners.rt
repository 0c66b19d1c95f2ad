//! Which processors are in use at one moment.
use cube_shape::Region;
use std::alloc::{AllocError, Global};
use std::sync::atomic::AtomicU64;
use std::sync::atomic::Ordering::SeqCst;

/// A bit for each processor of a machine, which is set while a thread uses a block with it.
#[derive(Drop)]
pub struct Owners {
    words: Vec<AtomicU64>,
}

// The bits of a block in each word that has one of its processors.
fn bits_of(block: Region) -> u64 {
    let first = match block.dim {
        0 => 1u64,
        1 => 0x3,
        2 => 0xF,
        3 => 0xFF,
        4 => 0xFFFF,
        5 => 0xFFFF_FFFF,
        _ => u64::MAX,
    };
    first << (block.base % 64) as u32
}

// The number of words that have processors of a block.
fn words_of(block: Region) -> u64 {
    1u64 << block.dim.saturating_sub(6).min(32)
}

impl Owners {
    /// Creates a table in which no processor is in use, for this number of words of 64 processors.
    pub fn new(alloc: Global, words: usize) -> Result<Owners, AllocError> {
        let mut all = Vec::new(alloc);
        for _ in 0..words {
            all.push(AtomicU64::new(0))?;
        }
        Ok(Owners { words: all })
    }

    /// Sets the bits of a block. Returns how many of its words had one of them set, or are not
    /// there.
    pub fn enter(&self, block: Region) -> u64 {
        let bits = bits_of(block);
        let mut faults = 0u64;
        for i in 0..words_of(block) {
            let found = match self.words.get((block.base / 64).wrapping_add(i) as usize) {
                Some(word) => word.fetch_or(bits, SeqCst),
                None => bits,
            };
            faults = faults.wrapping_add(u64::from(found & bits != 0));
        }
        faults
    }

    /// Clears the bits of a block. Returns how many of its words had one of them clear, or are not
    /// there.
    pub fn leave(&self, block: Region) -> u64 {
        let bits = bits_of(block);
        let mut faults = 0u64;
        for i in 0..words_of(block) {
            let found = match self.words.get((block.base / 64).wrapping_add(i) as usize) {
                Some(word) => word.fetch_and(!bits, SeqCst),
                None => 0,
            };
            faults = faults.wrapping_add(u64::from(found & bits != bits));
        }
        faults
    }

    /// Returns how many processors are in use.
    pub fn count(&self) -> u64 {
        let mut count = 0u64;
        for word in self.words.iter() {
            count = count.wrapping_add(u64::from(word.load(SeqCst).count_ones()));
        }
        count
    }
}
