//! The entry of a pair in a table: whether the pair stands, or as which number it was struck.
ghost use Rattle.std.specs.Prelude.{◌≡◌};
ghost use Rattle.arena.specs.Entry.{counts, number_in, says_standing, struck_entry};

// Entries are numbers, since the tables that callers lend hold numbers. Only this file makes one or takes one apart.

/// The entry of a pair that stands.
pub(crate) const STANDING: u32 = 0;

/// The entry of a pair that is struck as the number.
#[inline(always)]
pub(crate) fn struck_entry(number: u32) -> u32
    ensures { result ≡ struck_entry number }
{
    number
}

/// The number in the entry, 0 in that of a pair that stands.
#[inline(always)]
pub(crate) fn number_in(entry: u32) -> u32
    ensures { result ≡ number_in entry }
{
    entry
}

/// Whether the entry says that its pair stands.
#[inline(always)]
pub(crate) fn says_standing(entry: u32) -> bool
    ensures { result ≡ says_standing entry }
{
    entry == STANDING
}

/// Whether the entry counts as struck: any that does not stand, or only one with a smaller number than is told.
// It is told a number and no closure that decides: contracts of four functions name the pairs that count by that number.
#[inline(always)]
pub(crate) fn counts(before: Option<u32>, entry: u32) -> bool
    ensures { result ≡ counts before entry }
{
    !says_standing(entry) && before.is_none_or(|number| number_in(entry) < number)
}
