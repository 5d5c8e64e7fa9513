//! The jobs of a manifest, each of a name of its own.

ghost use Rattle.std.specs.Prelude.{◌≡◌, ◌++◌, [], ◌∷◌, IfOk};
ghost use Rattle.cli_suites.specs.Manifest.{has_name};

use crate::job::Job;
use std::alloc::{AllocError, Global};
use std::collections::BTreeSet;
use std::marker::Model;

/// Jobs in their order, with a set of their names.
#[derive(Drop)]
pub(crate) struct NamedJobs {
    jobs: Vec<Job>,
    names: BTreeSet<String>,
}

impl Model for NamedJobs {
    ghost use Rattle.std.specs.Prelude.{List};
    ghost use Rattle.cli_suites.specs.Job.{Asked};
    ghost use Rattle.cli_suites.specs.Manifest.{AreNames};

    ghost Value = { List Asked };

    ghost view = { λ n. n.jobs.items };

    ghost invariant = { λ n. AreNames n.jobs.items n.names };
}

impl NamedJobs {
    /// No job yet.
    pub(crate) fn new(alloc: Global) -> NamedJobs
        ensures { result ≡ [] }
    {
        NamedJobs {
            jobs: Vec::new(alloc),
            names: BTreeSet::new(alloc),
        }
    }

    /// Whether one has this name.
    pub(crate) fn has(&self, name: &str) -> bool
        ensures { result ≡ has_name name.now self.now }
    {
        self.names.contains(name)
    }

    /// The same jobs, and behind them one more.
    pub(crate) fn and(self, alloc: Global, job: Job) -> Result<NamedJobs, AllocError>
        ensures { IfOk result (λ all. all ≡ self ++ job ∷ []) }
    {
        let NamedJobs { jobs, names } = self;
        let (mut jobs, mut names) = (jobs, names);
        names.insert(String::from_str(alloc, job.name.as_str())?)?;
        jobs.push(job)?;
        Ok(NamedJobs { jobs, names })
    }

    /// The jobs.
    pub(crate) fn into_jobs(self) -> Vec<Job>
        ensures { result.items ≡ self }
    {
        let NamedJobs { jobs, .. } = self;
        jobs
    }
}
