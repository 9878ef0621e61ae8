//! A list of codes over a system: what a channel shows in place of some readings.
ghost use Rattle.std.specs.Prelude.{◌≡◌, [], find, option_copied};
ghost use Rattle.systems.specs.CodeList.{add_answer, added, code_list, code_refusal, listed, shown, translated};
ghost use Rattle.systems.specs.Meaning.{same_reading};
ghost use Rattle.systems.specs.CodeListLaws.{code_list_lawful};

use crate::codes::{CodeEntry, Codes};
use crate::system::System;

/// The most entries that a list of codes has.
pub const MOST_CODES: usize = 8;

/// What is wrong with an entry, and the number of that refusal.
#[derive(Clone, Copy, Debug, PartialEq, Eq)]
pub enum CodeFault {
    /// The list has as many entries as it can have.
    Full = 26,
}

impl CodeFault {
    /// The number of the refusal.
    pub fn number(self) -> u8
        ensures { result ≡ code_refusal self }
    {
        // a cast, which gives the number above
        self as u8
    }
}

impl CodeEntry {
    /// Whether the entry is for the reading.
    fn is_for(&self, reading: i16) -> bool
        ensures { result ≡ same_reading self.now.from reading }
    {
        self.from == reading
    }
}

/// The first entry for the reading, if there is one.
fn first_for(entries: &[CodeEntry], reading: i16) -> Option<&CodeEntry>
    ensures { option_copied result ≡ find (λ code. same_reading code.from reading) entries.now }
{
    entries.iter().find(|code| code.is_for(reading))
}

/// What the first entry for the reading gives, or the reading where there is none.
fn translated(entries: &[CodeEntry], reading: i16) -> i16
    ensures { result ≡ translated entries.now reading }
{
    first_for(entries, reading).map_or(reading, |code| code.to)
}

impl Codes {
    /// No entries, and the cut.
    fn new(cut: i16) -> Codes
        ensures entries { listed result ≡ [] }
        ensures cut { result.cut ≡ cut }
    {
        Codes {
            entries: [CodeEntry { from: 0, to: 0 }; MOST_CODES],
            count: 0,
            cut,
        }
    }

    /// Adds an entry behind the others.
    #[tactic(auto, using(std::proofs::lemmas::List::take_more_set))]
    fn add(&mut self, entry: CodeEntry) -> Result<(), CodeFault>
        ensures answer { result ≡ add_answer (listed self.old) }
        ensures entries { listed self.new ≡ added (listed self.old) entry }
        ensures cut { self.new.cut ≡ self.old.cut }
    {
        if self.count >= MOST_CODES {
            return Err(CodeFault::Full);
        }
        self.entries[self.count] = entry;
        self.count += 1;
        Ok(())
    }

    /// What is shown for the reading: what the entries make of it, unless that reaches the cut.
    fn shown(&self, reading: i16) -> i16
        ensures { result ≡ shown (listed self.now) self.now.cut reading }
    {
        let code = translated(&self.entries[..self.count], reading);
        if code >= self.cut { 0 } else { code }
    }
}

/// A system one of whose channels shows codes in place of some readings.
///
/// The first entry for a reading gives what is shown, and what then is at or above the cut shows 0.
#[derive(Clone, Copy)]
pub struct CodeList<S> {
    system: S,
    channel: u8,
    codes: Codes,
}

impl<S> CodeList<S> {
    /// The system with no entries yet, and a cut on the channel.
    pub fn new(system: S, channel: u8, cut: i16) -> CodeList<S>
        ensures system { result.system ≡ system }
        ensures channel { result.channel ≡ channel }
        ensures entries { listed result.codes ≡ [] }
        ensures cut { result.codes.cut ≡ cut }
    {
        CodeList {
            system,
            channel,
            codes: Codes::new(cut),
        }
    }

    /// Adds an entry behind the others, or refuses it where there are 8 and changes nothing.
    pub fn add(&mut self, from: i16, to: i16) -> Result<(), CodeFault>
        ensures answer { result ≡ add_answer (listed self.old.codes) }
        ensures entries { listed self.new.codes ≡ added (listed self.old.codes) record { from = from; to = to } }
        ensures cut { self.new.codes.cut ≡ self.old.codes.cut }
        ensures channel { self.new.channel ≡ self.old.channel }
        ensures system { self.new.system ≡ self.old.system }
    {
        self.codes.add(CodeEntry { from, to })
    }
}

impl<S: System> System for CodeList<S> {
    ghost meaning = { λ s. code_list (S.System.meaning s.system) s.channel (listed s.codes) s.codes.cut };

    ghost lawful = { λ s. code_list_lawful (S.System.meaning s.system) s.channel (listed s.codes) s.codes.cut (S.System.lawful s.system) };

    fn states(&self) -> u16 {
        self.system.states()
    }

    fn channels(&self) -> u8 {
        self.system.channels()
    }

    fn reading(&self, state: u16, channel: u8) -> i16 {
        let reading = self.system.reading(state, channel);
        if state >= self.states() || channel >= self.channels() || channel != self.channel {
            return reading;
        }
        self.codes.shown(reading)
    }

    fn controller_moves(&self, state: u16) -> u16 {
        self.system.controller_moves(state)
    }

    fn environment_moves(&self, state: u16) -> u16 {
        self.system.environment_moves(state)
    }

    fn next(&self, state: u16, controller: u16, environment: u16) -> u16 {
        self.system.next(state, controller, environment)
    }
}
