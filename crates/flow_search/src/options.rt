//! The options of a run.

ghost use Rattle.std.specs.Prelude.{◌≡◌};
ghost use Rattle.flow_search.specs.Choices.{AreWithinLimits, options_or_fault, version_or_fault, versioned_or_fault};

use flow_limits::{MAX_BUDGET, MAX_DEPTH, MAX_VERSION, MAX_WORKERS, MIN_VERSION};
use std::marker::Model;
use thiserror::Error;

/// Why numbers are no options, in the order of the tests.
#[derive(Clone, Copy, Debug, PartialEq, Eq, Error)]
pub enum OptionFault {
    /// The number of workers is not in `1..=MAX_WORKERS`.
    #[error("Workers")]
    Workers,
    /// The depth is above `MAX_DEPTH`.
    #[error("Depth")]
    Depth,
    /// The budget is not in `1..=MAX_BUDGET`.
    #[error("Budget")]
    Budget,
    /// The version is not in `MIN_VERSION..=MAX_VERSION`.
    #[error("Version")]
    Version,
}

/// How many workers a run has, the depth of its cut, how many bytes a tree may have, and the version of the
/// certificate.
#[derive(Clone, Copy, Debug, PartialEq, Eq)]
pub struct Options {
    workers: u32,
    depth: u32,
    budget: u32,
    version: u32,
}

impl Model for Options {
    ghost use Rattle.flow_search.specs.Choices.{Choices, AreWithinLimits};

    ghost Value = { Choices };

    ghost view = { λ o. record {
      workers = o.workers;
      depth = o.depth;
      budget = o.budget;
      version = o.version;
    } };

    ghost invariant = { λ o. AreWithinLimits (record {
      workers = o.workers;
      depth = o.depth;
      budget = o.budget;
      version = o.version;
    }) };

    ghost inverse = { λ c. record {
      workers = c.workers;
      depth = c.depth;
      budget = c.budget;
      version = c.version;
    } };
}

impl Options {
    /// The options of three numbers, in version 1; or the first fault.
    pub fn new(workers: u32, depth: u32, budget: u32) -> Result<Options, OptionFault>
        ensures { result ≡ options_or_fault workers depth budget }
    {
        if workers < 1 || workers > MAX_WORKERS {
            return Err(OptionFault::Workers);
        }
        if depth > MAX_DEPTH {
            return Err(OptionFault::Depth);
        }
        if budget < 1 || budget > MAX_BUDGET {
            return Err(OptionFault::Budget);
        }
        Ok(Options {
            workers,
            depth,
            budget,
            version: MIN_VERSION,
        })
    }

    /// The same options with a version; or the fault that there is no such version.
    pub fn with_version(self, version: u32) -> Result<Options, OptionFault>
        ensures { result ≡ version_or_fault self version }
    {
        if version < MIN_VERSION || version > MAX_VERSION {
            return Err(OptionFault::Version);
        }
        Ok(Options { version, ..self })
    }

    /// The options of four numbers; or the first fault, that of the version last.
    pub fn versioned(
        workers: u32,
        depth: u32,
        budget: u32,
        version: u32,
    ) -> Result<Options, OptionFault>
        ensures { result ≡ versioned_or_fault workers depth budget version }
    {
        Options::new(workers, depth, budget)?.with_version(version)
    }

    /// How many workers there are.
    pub fn workers(&self) -> u32
        ensures value { result ≡ self.now.workers }
        ensures limits { AreWithinLimits self.now }
    {
        self.workers
    }

    /// The depth of the cut.
    pub fn depth(&self) -> u32
        ensures value { result ≡ self.now.depth }
        ensures limits { AreWithinLimits self.now }
    {
        self.depth
    }

    /// How many bytes a tree may have.
    pub fn budget(&self) -> u32
        ensures value { result ≡ self.now.budget }
        ensures limits { AreWithinLimits self.now }
    {
        self.budget
    }

    /// The version of the certificate.
    pub fn version(&self) -> u32
        ensures value { result ≡ self.now.version }
        ensures limits { AreWithinLimits self.now }
    {
        self.version
    }
}
