// One set, by value.
ghost use Rattle.std.specs.Prelude.{◌≡◌, ◌<◌};
ghost use Rattle.model.specs.Limits.{max_jobs};
ghost use Rattle.job_sets.specs.JobSets.{is_member, member_count, members_below, least_member, is_empty, no_jobs, all_jobs, with_job, without_job, in_both, in_either, in_first_only};

use crate::JobSet;

impl JobSet {
    // No job.
    pub fn none() -> Self
        ensures { result ≡ no_jobs }
    {
        JobSet { word: 0 }
    }

    // Every job number below MAX_JOBS.
    pub fn all() -> Self
        ensures { result ≡ all_jobs }
    {
        JobSet { word: u64::MAX }
    }

    // Whether a job is a member.
    pub fn has(self, job: usize) -> bool
        requires { job < max_jobs }
        ensures { result ≡ is_member self job }
    {
        (self.word >> job) % 2 == 1
    }

    // The set with a job, which may be a member already.
    pub fn with(self, job: usize) -> Self
        requires { job < max_jobs }
        ensures { result ≡ with_job self job }
    {
        JobSet {
            word: self.word | (1u64 << job),
        }
    }

    // The set without a job, which need not be a member.
    pub fn without(self, job: usize) -> Self
        requires { job < max_jobs }
        ensures { result ≡ without_job self job }
    {
        JobSet {
            word: self.word & !(1u64 << job),
        }
    }

    // The members of both sets.
    pub fn both(self, other: JobSet) -> Self
        ensures { result ≡ in_both self other }
    {
        JobSet {
            word: self.word & other.word,
        }
    }

    // The members of this set or the other.
    pub fn either(self, other: JobSet) -> Self
        ensures { result ≡ in_either self other }
    {
        JobSet {
            word: self.word | other.word,
        }
    }

    // The members that are not in the other set.
    pub fn less(self, other: JobSet) -> Self
        ensures { result ≡ in_first_only self other }
    {
        JobSet {
            word: self.word & !other.word,
        }
    }

    // How many members there are.
    pub fn count(self) -> usize
        ensures { result ≡ member_count self }
    {
        self.word.count_ones() as usize
    }

    // How many members are below a job number.
    pub fn count_below(self, job: usize) -> usize
        requires { job < max_jobs }
        ensures { result ≡ members_below self job }
    {
        (self.word & ((1u64 << job) - 1)).count_ones() as usize
    }

    // The least member, MAX_JOBS where there is none.
    pub fn least(self) -> usize
        ensures { result ≡ least_member self }
    {
        self.word.trailing_zeros() as usize
    }

    // Whether there is no member.
    pub fn is_empty(self) -> bool
        ensures { result ≡ is_empty self }
    {
        self.word == 0
    }
}
