//! A keeper in memory whose device fails.

ghost use Rattle.std.specs.Prelude.{◌≡◌};

use lrs_desk::{Change, CommitFault, Holder, Image, Keeper, LoadFault, Plain};
use std::alloc::{AllocError, Global};
use std::marker::Model;

/// How a commit fails.
#[derive(Clone, Copy)]
pub enum Failure {
    /// The device fails, and nothing that was staged is kept.
    Old,
    /// The device fails, and all that was staged is kept.
    New,
    /// Memory runs out, and nothing that was staged is kept.
    Memory,
}

/// Keeps an image in memory. Its device does a number of loads and of commits; each one after them fails.
pub struct Failing {
    plain: Plain,
    loads: u64,
    commits: u64,
    failure: Failure,
    failures: u64,
}

impl Model for Failing {
    ghost use Rattle.lrs_promises_tests.specs.FailingKeepers.{FailingView};

    ghost Value = { FailingView };

    ghost view = { λ f. record { plain = f.plain; loads = f.loads; commits = f.commits; failure = f.failure; failures = f.failures } };
}

impl Failing {
    /// Keeps what this keeper has, for this many loads and commits.
    pub fn over(plain: Plain, loads: u64, commits: u64, failure: Failure) -> Failing
        ensures { result ≡ record
            { plain = plain; loads = loads; commits = commits; failure = failure; failures = 0 } }
    {
        Failing {
            plain,
            loads,
            commits,
            failure,
            failures: 0,
        }
    }

    /// Drops it.
    pub fn discard(self) {
        let Failing {
            plain,
            loads: _,
            commits: _,
            failure: _,
            failures: _,
        } = self;
        plain.discard();
    }
}

impl Holder for Failing {
    ghost use Rattle.std.specs.Prelude.{◌≡◌, ⊤};
    ghost use Rattle.lrs_image.specs.KeeperCalls.{is_image};

    ghost may_hold = { λ f c. c ≡ f.plain.content };

    ghost is_clean = { λ f. ⊤ };

    ghost is_open = { λ f. ⊤ };

    ghost is_loaded = { λ f. is_image f.plain.content };

    ghost failures = { λ f. f.failures };
}

impl Keeper for Failing {
    ghost use Rattle.lrs_desk.specs.PlainKeeper.{finds_kept};

    ghost staged = { λ f. f.plain.staged };

    fn load(&mut self, alloc: Global) -> Result<Image, LoadFault> {
        if self.loads > 0 {
            self.loads -= 1;
            return self.plain.load(alloc);
        }
        self.failures = self.failures.saturating_add(1);
        self.plain.drop_staged();
        Err(LoadFault::Store)
    }

    fn stage(&mut self, change: Change) -> Result<(), AllocError> {
        self.plain.stage(change)
    }

    fn commit(&mut self) -> Result<(), CommitFault> {
        if self.commits > 0 {
            self.commits -= 1;
            return self.plain.commit();
        }
        self.failures = self.failures.saturating_add(1);
        match self.failure {
            Failure::Old => {
                self.plain.drop_staged();
                Err(CommitFault::Store)
            }
            Failure::New => {
                self.plain.commit()?;
                Err(CommitFault::Store)
            }
            Failure::Memory => {
                self.plain.drop_staged();
                Err(CommitFault::Memory)
            }
        }
    }

    ghost finds = { λ f clean opened. finds_kept f.plain };
}
