//! The number of workers of a crew: 1 to [`MAX_WORKERS`], including the caller's thread.
ghost use Rattle.std.specs.Prelude.{◌≡◌, ◌≤◌, MatchOption};
ghost use Rattle.crew_pool.specs.declared.workers.TheConstants.{MAX_WORKERS};

/// The greatest number of workers of a crew.
pub const MAX_WORKERS: u32 = sim_base::limits::MAX_WORKERS;

/// The number of workers of a crew: 1 to `MAX_WORKERS`.
#[derive(Clone, Copy, Debug, PartialEq, Eq)]
pub struct Workers {
    /// The number.
    pub count: u32,
    ghost some: { 1 ≤ count },
    ghost at_most: { count ≤ MAX_WORKERS },
}

impl Workers {
    /// This number of workers, if a crew may have that many.
    pub fn new(count: u32) -> Option<Workers>
        ensures value { MatchOption result (¬ ((1 ≤ count) × (count ≤ MAX_WORKERS))) (λ w. w.count ≡ count) }
    {
        if count >= 1 && count <= MAX_WORKERS {
            Some(Workers { count })
        } else {
            None
        }
    }
}
