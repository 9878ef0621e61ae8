//! Ranking the pairs of the exchange of two files.
ghost use Rattle.std.specs.Prelude.{◌≡◌, length, IfOk};
ghost use Rattle.systems.specs.Refused.{if_granted};
ghost use Rattle.ranking.specs.Rank.{RanksRight};
ghost use Rattle.hosting.specs.Calls.{rank_does, rank_says};
ghost use Rattle.hosting.specs.Files.{filed, files_fault, laid_out, lent_by, room};

use crate::fault::FilesFault;
use crate::filed::FiledExchange;

impl FiledExchange<'_> {
    /// Writes every pair's rank into the table, and answers the highest: lays both systems out in the words that are lent for them first.
    ///
    /// A refused call changes nothing. A granted one leaves words behind the systems, and entries behind those of the pairs, as they were.
    pub fn rank(
        &self,
        old_words: &mut [u16],
        new_words: &mut [u16],
        table: &mut [u32],
    ) -> Result<u32, FilesFault>
        ensures answer { result ≡ rank_says
            (files_fault (lent_by self.now)
            (room (length old_words.old) (length new_words.old) (length table.old)))
            (filed (lent_by self.now)) table.old }
        ensures table { table.new ≡ rank_does
            (files_fault (lent_by self.now)
            (room (length old_words.old) (length new_words.old) (length table.old)))
            (filed (lent_by self.now)) table.old }
        ensures old { old_words.new ≡ if_granted (files_fault (lent_by self.now) (room (length old_words.old) (length new_words.old) (length table.old))) (laid_out self.now.old_file.now old_words.old) old_words.old }
        ensures new { new_words.new ≡ if_granted (files_fault (lent_by self.now) (room (length old_words.old) (length new_words.old) (length table.old))) (laid_out self.now.new_file.now new_words.old) new_words.old }
        ensures law { IfOk result (λ _. RanksRight (filed (lent_by self.now)) table.old table.new) }
    {
        let likeness = self.take_in(old_words, new_words, table.len())?;
        let held = self.hold(likeness, old_words, new_words);
        held.rank(table).map_err(FilesFault::Exchange)
    }
}
