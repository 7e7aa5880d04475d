//! Jobs in one word, if their numbers are small enough.
ghost use Rattle.std.specs.Prelude.{◌≡◌, ◌<◌, ◌^◌, IfSome, IfNone};
ghost use Rattle.sim_base.specs.declared.message.Job.{Job as JobOf};
ghost use Rattle.msg_heap.specs.Jobs.{FitsJob, IsJob, job_at, job_word};

use crate::packed::{FIRSTS, SECONDS, THIRDS};
use sim_base::Job;
use std::marker::Model;

/// A job in 8 bytes: its source, from 0, in 6 bits, its count in 26, and its time of birth in 30.
#[derive(Clone, Copy)]
pub struct PackedJob {
    word: u64,
}

impl Model for PackedJob {
    ghost use Rattle.sim_base.specs.declared.message.Job.{Job};
    ghost use Rattle.msg_heap.specs.Jobs.{IsJob, job_at, job_word};

    ghost Value = { Job };

    ghost view = { λ p. job_at p.word };

    ghost invariant = { λ p. IsJob p.word };

    ghost inverse = { λ j. record { word = job_word j } };

    ghost inverse_ok = { λ p h i. record { word = h.back i } };
}

impl PackedJob {
    /// The job, packed.
    #[inline(always)]
    pub fn new(job: Job) -> PackedJob
        requires fits { FitsJob job }
        ensures value { result ≡ job }
    {
        PackedJob {
            word: ((u64::from(job.source) - 1) * SECONDS + job.count) * THIRDS + job.born,
        }
    }

    /// The job, packed, or None if one of its numbers is too large, or its source is 0.
    pub fn of(job: &Job) -> Option<PackedJob>
        ensures value { IfSome result (λ p. p ≡ job.now) }
        ensures none { IfNone result (¬ FitsJob job.now) }
    {
        if job.source == 0
            || u64::from(job.source) > FIRSTS
            || job.count >= SECONDS
            || job.born >= THIRDS
        {
            return None;
        }
        Some(PackedJob::new(*job))
    }

    /// The job.
    #[inline(always)]
    pub fn job(self) -> Job
        ensures value { result ≡ self }
        ensures fits { FitsJob self }
    {
        Job {
            source: (self.word >> 56) as u32 + 1,
            count: (self.word >> 30) % (1 << 26),
            born: self.word % (1 << 30),
        }
    }

    /// The time of birth.
    #[inline(always)]
    pub fn born(self) -> u64
        ensures value { result ≡ self.born }
    {
        self.word % (1 << 30)
    }

    /// Its word.
    #[inline(always)]
    pub(crate) fn word(self) -> u64
        ensures value { result ≡ job_word self }
        ensures fits { FitsJob self }
        ensures at_most { result < 2 ^ 62 }
    {
        self.word
    }

    /// The job of a word of 62 bits.
    #[inline(always)]
    pub(crate) fn of_word(word: u64) -> PackedJob
        requires fits { word < 2 ^ 62 }
        ensures value { result ≡ job_at word }
    {
        PackedJob { word }
    }
}
