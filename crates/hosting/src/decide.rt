//! Deciding the exchange of two files.
ghost use Rattle.std.specs.Prelude.{◌≡◌, length, IfOk};
ghost use Rattle.systems.specs.Refused.{if_granted};
ghost use Rattle.docket.specs.Judge.{Judged};
ghost use Rattle.hosting.specs.Calls.{decide_does, decide_says};
ghost use Rattle.hosting.specs.Files.{filed, files_fault, laid_out, lent_by, room};

use crate::fault::FilesFault;
use crate::filed::FiledExchange;
use docket::Outcome;

impl FiledExchange<'_> {
    /// Decides whether the new system replaces the old: lays both out in the words that are lent for them, opens a docket on the table, sweeps until a sweep makes no strike, and settles.
    ///
    /// A refused call changes nothing. A granted one leaves words behind the systems, and entries behind those of the pairs, as they were.
    pub fn decide(
        &self,
        old_words: &mut [u16],
        new_words: &mut [u16],
        table: &mut [u32],
    ) -> Result<Outcome, FilesFault>
        ensures answer { result ≡ decide_says
            (files_fault (lent_by self.now)
            (room (length old_words.old) (length new_words.old) (length table.old)))
            (filed (lent_by self.now)) table.old }
        ensures table { table.new ≡ decide_does
            (files_fault (lent_by self.now)
            (room (length old_words.old) (length new_words.old) (length table.old)))
            (filed (lent_by self.now)) table.old }
        ensures old { old_words.new ≡ if_granted (files_fault (lent_by self.now) (room (length old_words.old) (length new_words.old) (length table.old))) (laid_out self.now.old_file.now old_words.old) old_words.old }
        ensures new { new_words.new ≡ if_granted (files_fault (lent_by self.now) (room (length old_words.old) (length new_words.old) (length table.old))) (laid_out self.now.new_file.now new_words.old) new_words.old }
        ensures law { IfOk result (λ outcome. Judged (filed (lent_by self.now)) table.new outcome.replaces) }
    {
        let likeness = self.take_in(old_words, new_words, table.len())?;
        let held = self.hold(likeness, old_words, new_words);
        held.judge(table).map_err(FilesFault::Exchange)
    }
}
