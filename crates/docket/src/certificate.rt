//! The certificate check: whether a table, whoever wrote it, shows the largest simulation.
ghost use Rattle.std.specs.Prelude.{◌≡◌};
ghost use Rattle.systems.specs.Refused.{unless};
ghost use Rattle.docket.specs.Certificate.{Certifies, certificate, certificate_says, fault_number, first_fault, pair_fault};
ghost use Rattle.docket.specs.declared.certificate.CertificateFault.TheVariants.{Refused};

use crate::fit::check_opening;
use crate::refusal::Refusal;
use arena::{Arena, Board, Gathered, pays_to_gather};

/// What a table that is accepted shows.
#[derive(Clone, Copy, Debug, PartialEq, Eq)]
pub struct Certificate {
    /// How many pairs stand.
    pub standing: u32,
    /// Whether the pair of start states stands: the new system then replaces the old.
    pub replaces: bool,
}

// Constants, since an enum whose cases carry values gives no numbers to them.

/// The number of a struck pair out of order.
const UNFOUNDED: u8 = 13;

/// The number of a standing pair out of order.
const LOOSE: u8 = 14;

/// Why a table is not accepted.
#[derive(Clone, Copy, Debug, PartialEq, Eq)]
pub enum CertificateFault {
    /// The systems or the table do not serve.
    Refused(Refusal),
    /// This struck pair, the first pair out of order, is not unlike, and no move refutes it by pairs with smaller numbers.
    Unfounded((u16, u16)),
    /// This standing pair, the first pair out of order, is loose.
    Loose((u16, u16)),
}

impl CertificateFault {
    /// The number of the fault.
    pub fn number(self) -> u8
        ensures { result ≡ fault_number self }
    {
        match self {
            CertificateFault::Refused(refusal) => refusal.number(),
            CertificateFault::Unfounded(_) => UNFOUNDED,
            CertificateFault::Loose(_) => LOOSE,
        }
    }
}

impl From<Refusal> for CertificateFault {
    ghost from_gives = { λ refusal r. r ≡ Refused refusal };

    fn from(refusal: Refusal) -> CertificateFault {
        CertificateFault::Refused(refusal)
    }
}

/// Checks that the pair is in order.
fn check_pair<A: Arena>(board: &Board<'_, A>, pair: (u16, u16)) -> Result<(), CertificateFault>
    ensures { result ≡ unless (pair_fault (A.Arena.view board.now.arena.now) board.now.table.now pair.0 pair.1) tt }
{
    if board.is_in_order(pair) {
        return Ok(());
    }
    if board.stands(pair) {
        Err(CertificateFault::Loose(pair))
    } else {
        Err(CertificateFault::Unfounded(pair))
    }
}

/// Checks that every pair is in order, in the order of their places.
#[tactic(auto, using(crate::proofs::Refused::fault_at))]
fn check_pairs<A: Arena>(board: &Board<'_, A>) -> Result<(), CertificateFault>
    ensures { result ≡ unless (first_fault (A.Arena.view board.now.arena.now) board.now.table.now) tt }
{
    for row in 0..board.arena.old_states() {
        for column in 0..board.arena.new_states() {
            check_pair(board, (row, column))?;
        }
    }
    Ok(())
}

/// Tests the pairs in turn.
fn examine_pairs<A: Arena>(board: &Board<'_, A>) -> Result<Certificate, CertificateFault>
    ensures { result ≡ unless (first_fault (A.Arena.view board.now.arena.now) board.now.table.now) (certificate (A.Arena.view board.now.arena.now) board.now.table.now) }
{
    check_pairs(board)?;
    Ok(Certificate {
        standing: board.number_standing(),
        replaces: board.start_stands(),
    })
}

/// Tests the pairs in turn, over the gathered arena.
// By itself, since only a call that gathers needs the stack for it.
#[inline(never)]
fn examine_gathered<A: Arena>(board: &Board<'_, A>) -> Result<Certificate, CertificateFault>
    ensures { result ≡ unless (first_fault (A.Arena.view board.now.arena.now) board.now.table.now) (certificate (A.Arena.view board.now.arena.now) board.now.table.now) }
{
    examine_pairs(&Board {
        arena: &Gathered::new(board.arena),
        table: board.table,
    })
}

/// Tests the systems and the table, then the pairs in turn.
fn examine<A: Arena>(board: &Board<'_, A>) -> Result<Certificate, CertificateFault>
    ensures { result ≡ certificate_says (A.Arena.view board.now.arena.now) board.now.table.now }
{
    check_opening(board.arena, board.table.len())?;
    if pays_to_gather(board.arena) {
        examine_gathered(board)
    } else {
        examine_pairs(board)
    }
}

/// Checks a table, whoever wrote it: every struck pair must be unlike or refuted by pairs with smaller numbers, and no standing pair loose.
///
/// Accepts, or names the first pair out of order. The standing pairs of an accepted table are the largest simulation, so that it tells whether the new system replaces the old.
pub fn check_certificate<A: Arena>(
    arena: &A,
    table: &[u32],
) -> Result<Certificate, CertificateFault>
    ensures answer { result ≡ certificate_says (A.Arena.view arena.now) table.now }
    ensures law { Certifies (A.Arena.view arena.now) table.now result }
{
    examine(&Board { arena, table })
}
