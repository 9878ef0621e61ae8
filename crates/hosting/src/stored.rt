//! Two systems in words that are lent for an exchange.
ghost use Rattle.std.specs.Prelude.{◌≡◌, length, Some, None, IfOk, MatchResult, OnOk, option_map};
ghost use Rattle.arena.specs.Table.{Shows};
ghost use Rattle.docket.specs.Judge.{Judged};
ghost use Rattle.docket.specs.Refusals.{opening_refusal};
ghost use Rattle.likeness.specs.Within.{first_too_wide};
ghost use Rattle.ranking.specs.Rank.{RanksRight};
ghost use Rattle.hosting.specs.declared.fault.WordsFault.TheVariants.{Tolerance};
ghost use Rattle.hosting.specs.Calls.{check_says, decide_does, decide_says, rank_does, rank_says};
ghost use Rattle.hosting.specs.Stored.{exchange_by, fault_by, held_exchange};

use crate::fault::{CheckFault, WordsFault};
use crate::held::Held;
use docket::{Certificate, Outcome};
use likeness::{TOLERANCE_CHANNELS, Within};
use systems::Stored;

/// What is asked about: an old system and a new one, each at the front of the words that hold it, and how far readings may differ on each channel.
///
/// The words are only read, so that a call that is refused has written nothing.
#[derive(Clone, Copy)]
pub struct StoredExchange<'a> {
    pub old_words: &'a [u16],
    pub new_words: &'a [u16],
    pub tolerances: [u16; TOLERANCE_CHANNELS],
}

impl<'a> StoredExchange<'a> {
    /// The likeness that the tolerances make.
    fn likeness(&self) -> Result<Within, WordsFault>
        ensures answer { MatchResult result
            (λ _. first_too_wide self.now.tolerances ≡ None)
            (λ fault. option_map (λ channel. Tolerance channel) (first_too_wide self.now.tolerances)
            ≡ Some fault) }
        ensures likeness { IfOk result (λ within. within.tolerances ≡ self.now.tolerances) }
    {
        Within::per_channel(self.tolerances).map_err(|fault| WordsFault::Tolerance(fault.channel))
    }

    /// Tests the tolerances, the words, and whether the systems serve together with a table of so many entries.
    fn test(&self, entries: usize) -> Result<Held<'a>, WordsFault>
        ensures answer { MatchResult result
            (λ _. fault_by self.now entries ≡ None)
            (λ fault. fault_by self.now entries ≡ Some fault) }
        ensures held { IfOk result (λ held. held_exchange held ≡ exchange_by self.now) }
        ensures opens { OnOk result (opening_refusal (exchange_by self.now) entries ≡ None) }
    {
        let likeness = self.likeness()?;
        let old = Stored::test(self.old_words).map_err(WordsFault::OldWords)?;
        let new = Stored::test(self.new_words).map_err(WordsFault::NewWords)?;
        let held = Held { old, new, likeness };
        // each call tests this again: what is held says nothing of the table
        held.check_opening(entries)?;
        Ok(held)
    }

    /// Decides whether the new system replaces the old: opens a docket on the table, sweeps until a sweep makes no strike, and settles.
    ///
    /// A refused call changes nothing. A granted one leaves entries behind those of the pairs as they were.
    pub fn decide(&self, table: &mut [u32]) -> Result<Outcome, WordsFault>
        ensures answer { result ≡ decide_says
            (fault_by self.now (length table.old)) (exchange_by self.now) table.old }
        ensures table { table.new ≡ decide_does
            (fault_by self.now (length table.old)) (exchange_by self.now) table.old }
        ensures law { IfOk result (λ outcome.
            Judged (exchange_by self.now) table.new outcome.replaces) }
    {
        let held = self.test(table.len())?;
        Ok(held.judge(table)?)
    }

    /// Checks a table, whoever wrote it, and accepts it only if its standing pairs are the largest simulation.
    pub fn check(&self, table: &[u32]) -> Result<Certificate, CheckFault>
        ensures answer { result ≡ check_says
            (fault_by self.now (length table.now)) (exchange_by self.now) table.now }
        ensures law { IfOk result (λ certificate.
            Shows (exchange_by self.now) table.now certificate.replaces) }
    {
        let held = self.test(table.len())?;
        Ok(held.check(table)?)
    }

    /// Writes every pair's rank into the table, and answers the highest.
    ///
    /// A refused call changes nothing. A granted one leaves entries behind those of the pairs as they were.
    pub fn rank(&self, table: &mut [u32]) -> Result<u32, WordsFault>
        ensures answer { result ≡ rank_says
            (fault_by self.now (length table.old)) (exchange_by self.now) table.old }
        ensures table { table.new ≡ rank_does
            (fault_by self.now (length table.old)) (exchange_by self.now) table.old }
        ensures law { IfOk result (λ _. RanksRight (exchange_by self.now) table.old table.new) }
    {
        let held = self.test(table.len())?;
        held.rank(table).map_err(WordsFault::Exchange)
    }
}
