//! The calls on any two systems, with the tolerance of each channel.
ghost use Rattle.std.specs.Prelude.{◌≡◌, Some, None, IfOk, MatchResult, option_map};
ghost use Rattle.likeness.specs.Within.{first_too_wide};
ghost use Rattle.hosting.specs.declared.fault.WordsFault.TheVariants.{Tolerance};
ghost use Rattle.layered.specs.Layers.{check_says, decide_does, decide_says, rank_does, rank_says};

use arena::Exchange;
use docket::{Certificate, Docket, Outcome, check_certificate};
use hosting::{CheckFault, Tolerances, WordsFault};
use likeness::Within;
use ranking::rank as write_ranks;
use systems::System;

/// The likeness that the tolerances make.
fn likeness(tolerances: &Tolerances) -> Result<Within, WordsFault>
    ensures fault { MatchResult result (λ _. first_too_wide tolerances.now.channels ≡ None) (λ fault. option_map (λ channel. Tolerance channel) (first_too_wide tolerances.now.channels) ≡ Some fault) }
    ensures likeness { IfOk result (λ within. within.tolerances ≡ tolerances.now.channels) }
{
    Within::per_channel(tolerances.channels).map_err(|fault| WordsFault::Tolerance(fault.channel))
}

/// Decides whether the new system replaces the old.
pub(crate) fn decide<S: System, T: System>(
    tolerances: &Tolerances,
    old: &S,
    new: &T,
    table: &mut [u32],
) -> Result<Outcome, WordsFault>
    ensures answer { result ≡ decide_says tolerances.now.channels (S.System.meaning old.now) (T.System.meaning new.now) table.old }
    ensures table { table.new ≡ decide_does tolerances.now.channels (S.System.meaning old.now) (T.System.meaning new.now) table.old }
{
    let likeness = &likeness(tolerances)?;
    let exchange = Exchange { old, new, likeness };
    Docket::new()
        .judge(&exchange, table)
        .map_err(WordsFault::Exchange)
}

/// Checks a table as a certificate.
pub(crate) fn check<S: System, T: System>(
    tolerances: &Tolerances,
    old: &S,
    new: &T,
    table: &[u32],
) -> Result<Certificate, CheckFault>
    ensures { result ≡ check_says tolerances.now.channels (S.System.meaning old.now) (T.System.meaning new.now) table.now }
{
    let likeness = &likeness(tolerances)?;
    let exchange = Exchange { old, new, likeness };
    check_certificate(&exchange, table).map_err(CheckFault::Table)
}

/// Writes every pair's rank, and answers the highest.
pub(crate) fn rank<S: System, T: System>(
    tolerances: &Tolerances,
    old: &S,
    new: &T,
    table: &mut [u32],
) -> Result<u32, WordsFault>
    ensures answer { result ≡ rank_says tolerances.now.channels (S.System.meaning old.now) (T.System.meaning new.now) table.old }
    ensures table { table.new ≡ rank_does tolerances.now.channels (S.System.meaning old.now) (T.System.meaning new.now) table.old }
{
    let likeness = &likeness(tolerances)?;
    let exchange = Exchange { old, new, likeness };
    write_ranks(&exchange, table).map_err(WordsFault::Exchange)
}
