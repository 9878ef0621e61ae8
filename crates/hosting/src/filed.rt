//! Two system files that are lent for an exchange.
ghost use Rattle.std.specs.Prelude.{◌≡◌, ℕ, ◌*◌, ◌≤◌, Bool, length, Some, None, OnOk, IfOk, MatchResult, option_map};
ghost use Rattle.systems.specs.Meaning.{Reading};
ghost use Rattle.systems.specs.Refused.{if_granted, unless};
ghost use Rattle.arena.specs.Exchange.{exchange};
ghost use Rattle.docket.specs.Refusals.{opening_refusal};
ghost use Rattle.files.specs.Few.{Few};
ghost use Rattle.files.specs.SystemFile.{described, file_words};
ghost use Rattle.systems.specs.Layout.{Holds};
ghost use Rattle.likeness.specs.Within.{first_too_wide};
ghost use Rattle.hosting.specs.declared.fault.FilesFault.TheVariants.{Tolerance};
ghost use Rattle.hosting.specs.Tested.{IsTested};
ghost use Rattle.hosting.specs.Files.{filed, files_fault, laid_out, lent_by, room};
ghost use Rattle.hosting.specs.Stored.{held_exchange};

use crate::fault::FilesFault;
use crate::held::Held;
use docket::Refusal;
use files::SystemFile;
use likeness::{TOLERANCE_CHANNELS, Within};
use systems::Stored;

/// What is asked about: the files of an old system and a new one, each at the front of its bytes, and how far readings may differ on each channel.
#[derive(Clone, Copy)]
pub struct FiledExchange<'a> {
    pub old_file: &'a [u8],
    pub new_file: &'a [u8],
    pub tolerances: [u16; TOLERANCE_CHANNELS],
}

/// How many pairs the states of the two systems make.
fn number_of_pairs(old: &SystemFile<'_>, new: &SystemFile<'_>) -> usize
    ensures { result ≡ (described old.now.bytes.now old.now.place).states * (described new.now.bytes.now new.now.place).states }
{
    usize::from(old.states()) * usize::from(new.states())
}

/// Checks that a docket can be opened for the systems of two files, with a table of so many entries.
#[tactic(auto, using(crate::proofs::Taken::opening_refused_for_channels, crate::proofs::Taken::opening_refused_for_table, crate::proofs::Taken::opening_granted))]
fn check_together(old: &SystemFile<'_>, new: &SystemFile<'_>, entries: usize) -> Result<(), Refusal>
    requires old { Few (described old.now.bytes.now old.now.place) }
    requires new { Few (described new.now.bytes.now new.now.place) }
    ensures { (relation : ℕ → Reading → Reading → Bool) → result ≡ unless (opening_refusal (exchange (described old.now.bytes.now old.now.place) (described new.now.bytes.now new.now.place) relation) entries) tt }
{
    // files hold at most 256 states, and at most 16 moves of a side
    if old.channels() != new.channels() {
        return Err(Refusal::NotComparable);
    }
    if entries < number_of_pairs(old, new) {
        return Err(Refusal::TableTooShort);
    }
    Ok(())
}

/// Lays out the system of a file in front of words that suffice.
fn lay_out(file: &SystemFile<'_>, words: &mut [u16])
    requires place { file.now.place ≡ 0 }
    requires room { file_words file.now.bytes.now 0 ≤ length words.old }
    ensures words { words.new ≡ laid_out file.now.bytes.now words.old }
    ensures holds { Holds (described file.now.bytes.now 0) words.new }
{
    let Ok(_) = file.lay_out(words, 0) else {
        unreachable()
    };
}

/// Both files, tested, and the likeness.
#[derive(Clone, Copy)]
struct Tested<'a> {
    old: SystemFile<'a>,
    new: SystemFile<'a>,
    likeness: Within,
}

impl<'a> FiledExchange<'a> {
    /// The likeness that the tolerances make.
    fn likeness(&self) -> Result<Within, FilesFault>
        ensures answer { MatchResult result (λ _. first_too_wide self.now.tolerances ≡ None) (λ fault. option_map (λ channel. Tolerance channel) (first_too_wide self.now.tolerances) ≡ Some fault) }
        ensures likeness { IfOk result (λ within. within.tolerances ≡ self.now.tolerances) }
    {
        Within::per_channel(self.tolerances).map_err(|fault| FilesFault::Tolerance(fault.channel))
    }

    /// Tests the tolerances, the files, and whether they serve together.
    fn test(
        &self,
        old_words: usize,
        new_words: usize,
        entries: usize,
    ) -> Result<Tested<'a>, FilesFault>
        ensures answer { MatchResult result (λ _. files_fault (lent_by self.now) (room old_words new_words entries) ≡ None) (λ fault. files_fault (lent_by self.now) (room old_words new_words entries) ≡ Some fault) }
        ensures tested { IfOk result (λ tested. IsTested self.now old_words new_words tested) }
    {
        let likeness = self.likeness()?;
        let old = SystemFile::test(self.old_file, 0, old_words).map_err(FilesFault::OldFile)?;
        let new = SystemFile::test(self.new_file, 0, new_words).map_err(FilesFault::NewFile)?;
        check_together(&old, &new, entries)?;
        Ok(Tested { old, new, likeness })
    }

    /// Tests the tolerances, the files and what is lent with them, then lays out both systems; answers the likeness.
    ///
    /// Where anything is refused, nothing has changed.
    pub(crate) fn take_in(
        &self,
        old_words: &mut [u16],
        new_words: &mut [u16],
        entries: usize,
    ) -> Result<Within, FilesFault>
        ensures answer { MatchResult result (λ _. files_fault (lent_by self.now) (room (length old_words.old) (length new_words.old) entries) ≡ None) (λ fault. files_fault (lent_by self.now) (room (length old_words.old) (length new_words.old) entries) ≡ Some fault) }
        ensures likeness { IfOk result (λ within. within.tolerances ≡ self.now.tolerances) }
        ensures old { old_words.new ≡ if_granted (files_fault (lent_by self.now) (room (length old_words.old) (length new_words.old) entries)) (laid_out self.now.old_file.now old_words.old) old_words.old }
        ensures new { new_words.new ≡ if_granted (files_fault (lent_by self.now) (room (length old_words.old) (length new_words.old) entries)) (laid_out self.now.new_file.now new_words.old) new_words.old }
        ensures opens { OnOk result (opening_refusal (filed (lent_by self.now)) entries ≡ None) }
        ensures old_held { OnOk result (Holds (described self.now.old_file.now 0) old_words.new) }
        ensures new_held { OnOk result (Holds (described self.now.new_file.now 0) new_words.new) }
    {
        let tested = self.test(old_words.len(), new_words.len(), entries)?;
        lay_out(&tested.old, old_words);
        lay_out(&tested.new, new_words);
        Ok(tested.likeness)
    }

    /// The systems of both files, which are laid out in the words, with the likeness.
    pub(crate) fn hold<'w>(
        &self,
        likeness: Within,
        old_words: &'w [u16],
        new_words: &'w [u16],
    ) -> Held<'w>
        requires likeness { likeness.tolerances ≡ self.now.tolerances }
        requires old { Holds (described self.now.old_file.now 0) old_words.now }
        requires new { Holds (described self.now.new_file.now 0) new_words.now }
        ensures { held_exchange result ≡ filed (lent_by self.now) }
    {
        Held {
            old: Stored { words: old_words },
            new: Stored { words: new_words },
            likeness,
        }
    }
}
