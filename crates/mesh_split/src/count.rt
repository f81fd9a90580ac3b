//! How many splits a call makes, and how many it may make.

ghost use Rattle.std.specs.Prelude.{◌≡◌, true, false, List, length, IfErr, OnErr, OnOk};
ghost use Rattle.mesh_plane.specs.Plane.{Edge};
ghost use Rattle.mesh_lattice.specs.Split.{IsLegal};
ghost use Rattle.mesh_split.specs.Counting.{CountsAmong, CountsAtMost, IsPastLimit, IsReason, IsWithinLimit, counted};

use crate::split_log::SplitLog;
use std::alloc::AllocError;

/// Why a splitting is refused.
#[derive(Clone, Copy, Debug, PartialEq, Eq)]
pub enum SplitError {
    /// A growth of memory was refused. Of the splits that were made, those of attempts that were given up are counted.
    OutOfMemory,
    /// The splits that were made pass the limit. All of them are counted.
    TooManySplits,
}

impl From<AllocError> for SplitError {
    ghost use Rattle.std.specs.Prelude.{◌≡◌};
    ghost use Rattle.mesh_split.specs.declared.count.SplitError.TheVariants.{OutOfMemory};

    ghost from_gives = { λ _ error. error ≡ OutOfMemory };

    fn from(_error: AllocError) -> Self {
        SplitError::OutOfMemory
    }
}

/// How many splits were made, and how many may be. Each segment that is split counts 1, in attempts that were given up
/// too. A call that splits several lists of edges counts the splits of all of them on.
#[derive(Clone, Copy, Debug)]
pub struct SplitCount {
    /// How many were made; 2^64 - 1 stands for more of them too.
    pub made: u64,
    /// How many may be made; 0 stands for any number.
    pub most: u64,
}

impl SplitCount {
    /// No split.
    pub fn new(most: u64) -> Self
        ensures { result ≡ record { made = 0; most = most } }
    {
        SplitCount { made: 0, most }
    }

    /// The count with the splits of a log.
    fn with(self, log: &SplitLog) -> Self
        ensures { result ≡ counted self (length log.now) }
    {
        SplitCount {
            made: self.made.saturating_add(log.len() as u64),
            most: self.most,
        }
    }

    fn is_past_limit(self) -> bool
        ensures past { result ≡ true → IsPastLimit self }
        ensures within { result ≡ false → IsWithinLimit self }
    {
        0 < self.most && self.most < self.made
    }

    /// Counts the splits of an attempt on. They may pass the limit.
    pub fn add(&mut self, log: &SplitLog) -> Result<(), SplitError>
        ensures counted { (given : List Edge) → IsLegal given log.now → CountsAmong 1 given self.old self.new log.now }
        ensures within { OnOk result (IsWithinLimit self.new) }
        ensures refused { IfErr result (λ e. IsReason e self.new) }
    {
        *self = self.with(log);
        if self.is_past_limit() {
            return Err(SplitError::TooManySplits);
        }
        Ok(())
    }

    /// Counts the splits of an attempt on where they pass the limit, and only there.
    pub fn check(&mut self, log: &SplitLog) -> Result<(), SplitError>
        ensures same { OnOk result (self.new ≡ self.old) }
        ensures counted { OnErr result
            ((given : List Edge) → IsLegal given log.now → CountsAtMost 1 given self.old self.new) }
        ensures refused { IfErr result (λ e. IsReason e self.new) }
    {
        let sum = self.with(log);
        if sum.is_past_limit() {
            *self = sum;
            return Err(SplitError::TooManySplits);
        }
        Ok(())
    }
}
