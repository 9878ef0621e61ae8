//! Ranking the pairs: how soon each is refuted.
ghost use Rattle.std.specs.Prelude.{◌≡◌, ◌&&◌, length, Some, None};
ghost use Rattle.arena.specs.Held.{holding};
ghost use Rattle.arena.specs.Pairs.{refuted};
ghost use Rattle.arena.specs.Table.{highest, pairs, stands, struck};
ghost use Rattle.docket.specs.Refusals.{opening_refusal};
ghost use Rattle.ranking.specs.Rank.{RanksRight, first_round, rank_does, rank_round, rank_rounds, rank_says, ranked, sight_pair, sighted};

use arena::{Arena, Board, BoardMut, Gathered};
use docket::{Refusal, check_opening};

/// The rank of an unlike pair.
const SIGHT_RANK: u32 = 1;

/// The least rank of any other pair, and so the first round.
const FIRST_ROUND: u32 = 2;

/// Ranks the pair by sight: an unlike one is refuted at once, and any other stands.
fn sight_pair<A: Arena>(board: &mut BoardMut<'_, A>, pair: (u16, u16))
    ensures arena { board.new.arena ≡ board.old.arena }
    ensures table { board.new.table
        ≡ holding board.old.table
        (sight_pair (A.Arena.view board.old.arena.now) pair.0 pair.1 board.old.table.now) }
{
    if board.arena.alike(pair) {
        board.stand(pair);
    } else {
        board.strike(pair, SIGHT_RANK);
    }
}

/// Ranks every pair by sight.
fn sight_round<A: Arena>(board: &mut BoardMut<'_, A>)
    ensures arena { board.new.arena ≡ board.old.arena }
    ensures table { board.new.table
        ≡ holding board.old.table (sighted (A.Arena.view board.old.arena.now) board.old.table.now) }
{
    for row in 0..board.arena.old_states() {
        for column in 0..board.arena.new_states() {
            sight_pair(board, (row, column));
        }
    }
}

/// Whether the round ranks the pair: it has no rank, and some move refutes it when only the pairs with smaller ranks count as struck.
fn is_due<A: Arena>(board: &Board<'_, A>, round: u32, pair: (u16, u16)) -> bool
    ensures { result
        ≡ (stands (A.Arena.view board.now.arena.now) board.now.table.now pair.0 pair.1
        && refuted (A.Arena.view board.now.arena.now)
        (struck (A.Arena.view board.now.arena.now) board.now.table.now (Some round))
        pair.0 pair.1) }
{
    board.stands(pair) && board.is_refuted(Some(round), pair)
}

/// Gives all pairs that have no rank and are refuted now the round as their rank; tells how many those are.
///
/// Ranks that the round itself has written do not count in it, so that the order of the pairs does not matter.
fn rank_round<A: Arena>(board: &mut BoardMut<'_, A>, round: u32) -> u32
    ensures arena { board.new.arena ≡ board.old.arena }
    ensures table { board.new.table
        ≡ holding board.old.table
        (rank_round (A.Arena.view board.old.arena.now) round board.old.table.now).table }
    ensures added { result
        ≡ (rank_round (A.Arena.view board.old.arena.now) round board.old.table.now).added }
{
    let mut added = 0;
    for row in 0..board.arena.old_states() {
        for column in 0..board.arena.new_states() {
            if is_due(&board.board(), round, (row, column)) {
                board.strike((row, column), round);
                added += 1;
            }
        }
    }
    added
}

/// Ranks the pairs that sight left standing, in rounds until one adds no rank: none would come after it.
#[tactic(auto, using(crate::proofs::RankSteps::rounds_end, crate::proofs::RankSteps::rounds_go_on))]
fn rank_rounds<A: Arena>(board: &mut BoardMut<'_, A>)
    ensures arena { board.new.arena ≡ board.old.arena }
    ensures table { board.new.table
        ≡ holding board.old.table
        (rank_rounds (A.Arena.view board.old.arena.now)
        (pairs (A.Arena.view board.old.arena.now)) first_round board.old.table.now) }
{
    // each round but the last ranks a pair, so that there are no more of them than pairs
    let most = u32::from(board.arena.old_states()) * u32::from(board.arena.new_states());
    for round in FIRST_ROUND..FIRST_ROUND + most {
        if rank_round(board, round) == 0 {
            return;
        }
    }
}

/// Ranks the pairs that sight left standing, over the gathered arena.
// By itself, since only a call that gathers needs the stack for it.
#[inline(never)]
fn rank_rounds_gathered<A: Arena>(arena: &A, table: &mut [u32])
    ensures { table.new
        ≡ rank_rounds (A.Arena.view arena.now)
        (pairs (A.Arena.view arena.now)) first_round table.old }
{
    rank_rounds(&mut BoardMut {
        arena: &Gathered::new(arena),
        table,
    });
}

/// Writes every pair's rank, and answers the highest.
// Sight asks for readings alone, which are not gathered, and may leave few pairs to visit.
fn write_in_rounds<A: Arena>(arena: &A, table: &mut [u32]) -> u32
    ensures highest { result ≡ highest (A.Arena.view arena.now) (ranked (A.Arena.view arena.now) table.old) }
    ensures after { table.new ≡ ranked (A.Arena.view arena.now) table.old }
{
    let mut board = BoardMut { arena, table };
    sight_round(&mut board);
    if board.board().pays_to_gather_for_standing() {
        rank_rounds_gathered(arena, board.table);
    } else {
        rank_rounds(&mut board);
    }
    board.board().highest()
}

/// Writes every pair's rank and answers the highest, unless the systems or the table do not serve.
fn write_ranks<A: Arena>(arena: &A, table: &mut [u32]) -> Result<u32, Refusal>
    ensures answer { result ≡ rank_says (A.Arena.view arena.now) table.old }
    ensures after { table.new ≡ rank_does (A.Arena.view arena.now) table.old }
{
    check_opening(arena, table.len())?;
    Ok(write_in_rounds(arena, table))
}

/// Writes every pair's rank: how soon it is refuted, where only pairs of smaller ranks count as struck. Answers the highest rank.
///
/// An unlike pair has rank 1. Any other has the least rank from 2 on such that some move refutes it when only the pairs with smaller ranks count as struck; where there is none, it stands. The ranks are determined by the systems alone, whatever the table was before; the standing pairs are the largest simulation, and the certificate check accepts the table.
///
/// Refuses as an opening does. A refused call changes nothing, and entries behind those of the pairs are never touched.
pub fn rank<A: Arena>(arena: &A, table: &mut [u32]) -> Result<u32, Refusal>
    ensures answer { result ≡ rank_says (A.Arena.view arena.now) table.old }
    ensures after { table.new ≡ rank_does (A.Arena.view arena.now) table.old }
    ensures law { opening_refusal (A.Arena.view arena.now) (length table.old) ≡ None → RanksRight (A.Arena.view arena.now) table.old table.new }
{
    write_ranks(arena, table)
}
