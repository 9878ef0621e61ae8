//! Two systems that lie in words, and the likeness of their readings.
ghost use Rattle.std.specs.Prelude.{◌≡◌, length, None, IfOk, OnOk};
ghost use Rattle.systems.specs.Refused.{unless};
ghost use Rattle.arena.specs.Table.{Shows};
ghost use Rattle.docket.specs.Certificate.{certificate_says};
ghost use Rattle.docket.specs.Judge.{Judges, judge_does, judge_says};
ghost use Rattle.docket.specs.Position.{closed, position};
ghost use Rattle.docket.specs.Refusals.{opening_refusal};
ghost use Rattle.ranking.specs.Rank.{RanksRight, rank_does, rank_says};
ghost use Rattle.hosting.specs.Stored.{held_exchange};

use arena::Exchange;
use docket::{
    Certificate, CertificateFault, Docket, Outcome, Refusal, check_certificate, check_opening,
};
use likeness::Within;
use ranking::rank;
use systems::Stored;

/// Two stored systems, and the likeness that the tolerances make.
#[derive(Clone, Copy)]
pub(crate) struct Held<'a> {
    pub(crate) old: Stored<'a>,
    pub(crate) new: Stored<'a>,
    pub(crate) likeness: Within,
}

impl<'a> Held<'a> {
    /// Their exchange.
    fn exchange(&self) -> Exchange<'_, Stored<'a>, Stored<'a>, Within>
        ensures old { result.old.now ≡ self.now.old }
        ensures new { result.new.now ≡ self.now.new }
        ensures likeness { result.likeness.now ≡ self.now.likeness }
    {
        Exchange {
            old: &self.old,
            new: &self.new,
            likeness: &self.likeness,
        }
    }

    /// Checks that a docket can be opened for them, with a table of so many entries.
    pub(crate) fn check_opening(&self, entries: usize) -> Result<(), Refusal>
        ensures { result ≡ unless (opening_refusal (held_exchange self.now) entries) tt }
    {
        check_opening(&self.exchange(), entries)
    }

    /// Judges their exchange, by a new docket.
    pub(crate) fn judge(&self, table: &mut [u32]) -> Result<Outcome, Refusal>
        ensures answer { result ≡ judge_says (held_exchange self.now) (position closed table.old) }
        ensures after { table.new
            ≡ (judge_does (held_exchange self.now) (position closed table.old)).table }
        ensures law { Judges (held_exchange self.now) table.new result }
    {
        Docket::new().judge(&self.exchange(), table)
    }

    /// Checks the table as a certificate of their exchange.
    pub(crate) fn check(&self, table: &[u32]) -> Result<Certificate, CertificateFault>
        ensures answer { result ≡ certificate_says (held_exchange self.now) table.now }
        ensures law { IfOk result (λ certificate.
            Shows (held_exchange self.now) table.now certificate.replaces) }
    {
        check_certificate(&self.exchange(), table)
    }

    /// Ranks the pairs of their exchange.
    pub(crate) fn rank(&self, table: &mut [u32]) -> Result<u32, Refusal>
        ensures answer { result ≡ rank_says (held_exchange self.now) table.old }
        ensures after { table.new ≡ rank_does (held_exchange self.now) table.old }
        ensures law { opening_refusal (held_exchange self.now) (length table.old) ≡ None
            → RanksRight (held_exchange self.now) table.old table.new }
    {
        rank(&self.exchange(), table)
    }
}
