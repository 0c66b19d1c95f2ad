//! What the workers took, compared with what was submitted.
use lanes::LaneJob;
use std::alloc::{AllocError, Global};

/// Returns the payload of the job of this lane and this number.
pub(crate) fn payload_of(lane: u32, seq: u64) -> u64 {
    ((lane as u64) << 32) | (seq & 0xFFFF_FFFF)
}

/// Returns the dimension of the job with this number.
pub(crate) fn dim_of(seq: u64) -> u32 {
    (seq % 8) as u32
}

/// For each job of each lane, whether it came out.
#[derive(Drop)]
pub(crate) struct Seen {
    marks: Vec<bool>,
    jobs: u64,
}

impl Seen {
    /// Makes the marks for this number of lanes, with this number of jobs each.
    pub fn new(alloc: Global, lanes: u32, jobs: u64) -> Result<Seen, AllocError> {
        let all = (lanes as usize).saturating_mul(jobs as usize);
        let mut marks = Vec::with_capacity(alloc, all)?;
        for _ in 0..all {
            marks.push(false)?;
        }
        Ok(Seen { marks, jobs })
    }

    // Marks a job. Returns whether it is the first time.
    fn mark(&mut self, lane: u32, seq: u64) -> bool {
        let at = (lane as u64).wrapping_mul(self.jobs).wrapping_add(seq) as usize;
        match self.marks.get_mut(at) {
            Some(mark) if seq < self.jobs => !std::mem::replace(mark, true),
            _ => false,
        }
    }

    /// Returns how many of the jobs that one worker took are right. These were submitted so, come
    /// out for the first time, and after all jobs of their lane that the worker took before.
    pub fn count_right(&mut self, taken: &[(u32, LaneJob)], nexts: &mut [u64]) -> u64 {
        let mut right = 0u64;
        for it in taken {
            let (lane, job) = *it;
            let is_same = job.payload == payload_of(lane, job.seq) && job.dim == dim_of(job.seq);
            let is_later = follows(nexts, lane, job.seq);
            let is_first = self.mark(lane, job.seq);
            right = right.wrapping_add(u64::from(is_same && is_later && is_first));
        }
        right
    }
}

// Returns whether the number is at least the next one of the lane, and makes its successor that.
fn follows(nexts: &mut [u64], lane: u32, seq: u64) -> bool {
    match nexts.get_mut(lane as usize) {
        Some(next) => {
            let is_later = seq >= *next;
            *next = seq.wrapping_add(1);
            is_later
        }
        None => false,
    }
}
