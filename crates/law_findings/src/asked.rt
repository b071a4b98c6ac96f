//! Which laws a record is held to.

ghost use Rattle.std.specs.Prelude.{◌≡◌};
ghost use Rattle.law_findings.specs.Asked.{all_asked, asked_with, is_asked, none_asked};

use crate::words::Law;

/// Which laws are asked.
#[derive(Clone, Copy)]
pub struct AskedLaws {
    pub progress: bool,
    pub expiry: bool,
    pub firing: bool,
    pub zero_lag: bool,
    pub budget: bool,
    pub total: bool,
    pub pick: bool,
    pub run: bool,
    pub server: bool,
}

impl AskedLaws {
    pub fn all() -> AskedLaws
        ensures { result ≡ all_asked }
    {
        AskedLaws {
            progress: true,
            expiry: true,
            firing: true,
            zero_lag: true,
            budget: true,
            total: true,
            pick: true,
            run: true,
            server: true,
        }
    }

    pub fn none() -> AskedLaws
        ensures { result ≡ none_asked }
    {
        AskedLaws {
            progress: false,
            expiry: false,
            firing: false,
            zero_lag: false,
            budget: false,
            total: false,
            pick: false,
            run: false,
            server: false,
        }
    }

    /// Whether this law is asked.
    pub fn asks(self, law: Law) -> bool
        ensures { result ≡ is_asked self law }
    {
        match law {
            Law::Progress => self.progress,
            Law::Expiry => self.expiry,
            Law::Firing => self.firing,
            Law::ZeroLag => self.zero_lag,
            Law::Budget => self.budget,
            Law::Total => self.total,
            Law::Pick => self.pick,
            Law::Run => self.run,
            Law::Server => self.server,
        }
    }

    /// These, and this law.
    pub fn with(mut self, law: Law) -> AskedLaws
        ensures { result ≡ asked_with self law }
    {
        match law {
            Law::Progress => self.progress = true,
            Law::Expiry => self.expiry = true,
            Law::Firing => self.firing = true,
            Law::ZeroLag => self.zero_lag = true,
            Law::Budget => self.budget = true,
            Law::Total => self.total = true,
            Law::Pick => self.pick = true,
            Law::Run => self.run = true,
            Law::Server => self.server = true,
        }
        self
    }
}
