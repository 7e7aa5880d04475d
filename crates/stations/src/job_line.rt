//! The jobs of a saved waiting line, in order.
ghost use Rattle.std.specs.Prelude.{◌≡◌, ◌<◌, length, slice_get, Some};
ghost use Rattle.std.specs.List.{list_all};
ghost use Rattle.stations.specs.Fitting.{is_job_of};

use crate::restoring::is_job;
use net_model::Model;
use sim_base::Job;

/// The jobs of a waiting line in the order of arrival, as plain data.
#[derive(Drop)]
pub struct JobLine {
    jobs: Vec<Job>,
}

impl std::marker::Model for JobLine {
    ghost use Rattle.std.specs.Prelude.{List};
    ghost use Rattle.sim_base.specs.declared.message.Job.{Job};

    ghost Value = { List Job };

    ghost view = { λ q. q.jobs.items };
}

impl JobLine {
    /// The line with the jobs of a vector. Allocates nothing.
    pub fn of(jobs: Vec<Job>) -> JobLine
        ensures { result ≡ jobs.items }
    {
        JobLine { jobs }
    }

    /// The vector of the jobs. Allocates nothing.
    pub fn into_vec(self) -> Vec<Job>
        ensures { result.items ≡ self }
    {
        self.jobs
    }

    /// The number of jobs in the line.
    pub fn len(&self) -> usize
        ensures { result ≡ length self.now }
    {
        self.jobs.len()
    }

    /// The job at a place of the line, from 0.
    pub fn get(&self, place: usize) -> Job
        requires { place < length self.now }
        ensures { slice_get self.now place ≡ Some result }
    {
        self.jobs[place]
    }

    // Whether sources of the model may have made all of the jobs before the horizon.
    pub(crate) fn are_jobs(&self, model: &Model) -> bool
        ensures { result ≡ list_all (is_job_of model.now) self.now }
    {
        self.jobs.iter().all(|job| is_job(model, job))
    }
}
