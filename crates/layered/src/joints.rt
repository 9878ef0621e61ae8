//! The calls on joints of two stored systems each.
ghost use Rattle.std.specs.Prelude.{◌≡◌};
ghost use Rattle.systems.specs.Joint.{joint};
ghost use Rattle.systems.specs.Layout.{stored_words};
ghost use Rattle.hosting.specs.Answers.{certificate_of, decision_of, ranks_of, words_refusal};
ghost use Rattle.hosting.specs.Held.{held};
ghost use Rattle.layered.specs.Layers.{check_says, decide_does, decide_says, rank_does, rank_says};

use crate::layers::{check, decide, rank};
use hosting::{Certificate, Decision, Ranks, Tolerances};
use systems::{Joint, Stored};

/// The joint of the systems that the words hold.
fn joint<'a>(first: &'a [u16], second: &'a [u16]) -> Joint<Stored<'a>, Stored<'a>>
    ensures first { result.first.words.now ≡ stored_words first.now }
    ensures second { result.second.words.now ≡ stored_words second.now }
{
    Joint::new(Stored::new(first), Stored::new(second))
}

/// Decides the exchange of two joints.
#[unsafe(no_mangle)]
pub extern "C" fn layered_decide_joints(
    tolerances: &Tolerances,
    first_old: &[u16],
    second_old: &[u16],
    first_new: &[u16],
    second_new: &[u16],
    table: &mut [u32],
) -> Decision
    ensures answer { result
        ≡ decision_of words_refusal
        (decide_says tolerances.now.channels (joint (held first_old.now) (held second_old.now))
        (joint (held first_new.now) (held second_new.now)) table.old) }
    ensures table { table.new ≡ decide_does tolerances.now.channels (joint (held first_old.now) (held second_old.now)) (joint (held first_new.now) (held second_new.now)) table.old }
{
    let old = joint(first_old, second_old);
    let new = joint(first_new, second_new);
    Decision::of_words(decide(tolerances, &old, &new, table))
}

/// Checks a table as a certificate of the exchange of two joints.
#[unsafe(no_mangle)]
pub extern "C" fn layered_check_joints(
    tolerances: &Tolerances,
    first_old: &[u16],
    second_old: &[u16],
    first_new: &[u16],
    second_new: &[u16],
    table: &[u32],
) -> Certificate
    ensures { result ≡ certificate_of (check_says tolerances.now.channels (joint (held first_old.now) (held second_old.now)) (joint (held first_new.now) (held second_new.now)) table.now) }
{
    let old = joint(first_old, second_old);
    let new = joint(first_new, second_new);
    Certificate::of(check(tolerances, &old, &new, table))
}

/// Ranks the pairs of the exchange of two joints.
#[unsafe(no_mangle)]
pub extern "C" fn layered_rank_joints(
    tolerances: &Tolerances,
    first_old: &[u16],
    second_old: &[u16],
    first_new: &[u16],
    second_new: &[u16],
    table: &mut [u32],
) -> Ranks
    ensures answer { result
        ≡ ranks_of words_refusal
        (rank_says tolerances.now.channels (joint (held first_old.now) (held second_old.now))
        (joint (held first_new.now) (held second_new.now)) table.old) }
    ensures table { table.new ≡ rank_does tolerances.now.channels (joint (held first_old.now) (held second_old.now)) (joint (held first_new.now) (held second_new.now)) table.old }
{
    let old = joint(first_old, second_old);
    let new = joint(first_new, second_new);
    Ranks::of_words(rank(tolerances, &old, &new, table))
}
