//! The exported calls, each a call of a library with its answer as C takes it.
ghost use Rattle.std.specs.Prelude.{◌≡◌, ◌-◌, ◌++◌, length, drop, is_none, IfOk, if◌then◌else◌};
ghost use Rattle.systems.specs.Refused.{if_granted, unless};
ghost use Rattle.arena.specs.Table.{Shows};
ghost use Rattle.docket.specs.Judge.{Judged};
ghost use Rattle.files.specs.SystemFile.{described, file_fault, file_read};
ghost use Rattle.files.specs.SystemWrite.{system_bytes, write_fault};
ghost use Rattle.codec.specs.Put.{put_at};
ghost use Rattle.systems.specs.Words.{system_words};
ghost use Rattle.ranking.specs.Rank.{RanksRight};
ghost use Rattle.hosting.specs.Calls.{check_says, decide_does, decide_says, rank_does, rank_says};
ghost use Rattle.hosting.specs.Files.{filed, files_fault, laid_out, lent, room};
ghost use Rattle.hosting.specs.Answers.{certificate_of, decision_of, files_refusal, ranks_of, read_of, words_refusal, written_of};
ghost use Rattle.hosting.specs.Held.{held};
ghost use Rattle.hosting.specs.Stored.{stored_exchange, words_fault};

use files::{read_system, write_system};
use hosting::{
    Certificate, Decision, FiledExchange, Ranks, Read, StoredExchange, Tolerances, Written,
};
use systems::Stored;

/// Reads a system file.
#[unsafe(no_mangle)]
pub extern "C" fn cunaweho_read_system(
    bytes: &[u8],
    place: usize,
    words: &mut [u16],
    at: usize,
) -> Read
    ensures answer { result ≡ read_of (unless (file_fault bytes.now place (length words.old - at)) (file_read bytes.now place)) }
    ensures words { words.new ≡ (if is_none (file_fault bytes.now place (length words.old - at)) then put_at words.old at (system_words (described bytes.now place)) else words.old) }
{
    Read::of(read_system(bytes, place, words, at))
}

/// Writes the file of a stored system.
#[unsafe(no_mangle)]
pub extern "C" fn cunaweho_write_system(words: &[u16], bytes: &mut [u8]) -> Written
    ensures answer { result ≡ written_of (unless (write_fault (held words.now) (length bytes.old)) (length (system_bytes (held words.now)))) }
    ensures bytes { bytes.new ≡ (if is_none (write_fault (held words.now) (length bytes.old)) then system_bytes (held words.now) ++ drop (length (system_bytes (held words.now))) bytes.old else bytes.old) }
{
    Written::of(write_system(&Stored::new(words), bytes))
}

/// Decides the exchange of two files.
#[unsafe(no_mangle)]
pub extern "C" fn cunaweho_decide(
    old_file: &[u8],
    new_file: &[u8],
    tolerances: &Tolerances,
    old_words: &mut [u16],
    new_words: &mut [u16],
    table: &mut [u32],
) -> Decision
    ensures answer { result ≡ decision_of files_refusal (decide_says
        (files_fault (lent old_file.now new_file.now tolerances.now.channels)
        (room (length old_words.old) (length new_words.old) (length table.old)))
        (filed (lent old_file.now new_file.now tolerances.now.channels)) table.old) }
    ensures table { table.new ≡ decide_does
        (files_fault (lent old_file.now new_file.now tolerances.now.channels)
        (room (length old_words.old) (length new_words.old) (length table.old)))
        (filed (lent old_file.now new_file.now tolerances.now.channels)) table.old }
    ensures old { old_words.new ≡ if_granted (files_fault (lent old_file.now new_file.now tolerances.now.channels) (room (length old_words.old) (length new_words.old) (length table.old))) (laid_out old_file.now old_words.old) old_words.old }
    ensures new { new_words.new ≡ if_granted (files_fault (lent old_file.now new_file.now tolerances.now.channels) (room (length old_words.old) (length new_words.old) (length table.old))) (laid_out new_file.now new_words.old) new_words.old }
    ensures law { IfOk (decide_says
        (files_fault (lent old_file.now new_file.now tolerances.now.channels)
        (room (length old_words.old) (length new_words.old) (length table.old)))
        (filed (lent old_file.now new_file.now tolerances.now.channels)) table.old)
        (λ outcome. Judged (filed (lent old_file.now new_file.now tolerances.now.channels))
        table.new outcome.replaces) }
{
    let lent = FiledExchange {
        old_file,
        new_file,
        tolerances: tolerances.channels,
    };
    Decision::of(lent.decide(old_words, new_words, table))
}

/// Ranks the pairs of the exchange of two files.
#[unsafe(no_mangle)]
pub extern "C" fn cunaweho_rank(
    old_file: &[u8],
    new_file: &[u8],
    tolerances: &Tolerances,
    old_words: &mut [u16],
    new_words: &mut [u16],
    table: &mut [u32],
) -> Ranks
    ensures answer { result ≡ ranks_of files_refusal (rank_says
        (files_fault (lent old_file.now new_file.now tolerances.now.channels)
        (room (length old_words.old) (length new_words.old) (length table.old)))
        (filed (lent old_file.now new_file.now tolerances.now.channels)) table.old) }
    ensures table { table.new ≡ rank_does
        (files_fault (lent old_file.now new_file.now tolerances.now.channels)
        (room (length old_words.old) (length new_words.old) (length table.old)))
        (filed (lent old_file.now new_file.now tolerances.now.channels)) table.old }
    ensures old { old_words.new
        ≡ if_granted
        (files_fault (lent old_file.now new_file.now tolerances.now.channels)
        (room (length old_words.old) (length new_words.old) (length table.old)))
        (laid_out old_file.now old_words.old) old_words.old }
    ensures new { new_words.new
        ≡ if_granted
        (files_fault (lent old_file.now new_file.now tolerances.now.channels)
        (room (length old_words.old) (length new_words.old) (length table.old)))
        (laid_out new_file.now new_words.old) new_words.old }
    ensures law { IfOk (rank_says
        (files_fault (lent old_file.now new_file.now tolerances.now.channels)
        (room (length old_words.old) (length new_words.old) (length table.old)))
        (filed (lent old_file.now new_file.now tolerances.now.channels)) table.old)
        (λ _. RanksRight (filed (lent old_file.now new_file.now tolerances.now.channels))
        table.old table.new) }
{
    let lent = FiledExchange {
        old_file,
        new_file,
        tolerances: tolerances.channels,
    };
    Ranks::of(lent.rank(old_words, new_words, table))
}

/// Decides the exchange of two systems that lie in words.
#[unsafe(no_mangle)]
pub extern "C" fn cunaweho_decide_words(
    old_words: &[u16],
    new_words: &[u16],
    tolerances: &Tolerances,
    table: &mut [u32],
) -> Decision
    ensures answer { result ≡ decision_of words_refusal (decide_says
        (words_fault old_words.now new_words.now tolerances.now.channels (length table.old))
        (stored_exchange old_words.now new_words.now tolerances.now.channels) table.old) }
    ensures table { table.new ≡ decide_does
        (words_fault old_words.now new_words.now tolerances.now.channels (length table.old))
        (stored_exchange old_words.now new_words.now tolerances.now.channels) table.old }
    ensures law { IfOk (decide_says
        (words_fault old_words.now new_words.now tolerances.now.channels (length table.old))
        (stored_exchange old_words.now new_words.now tolerances.now.channels) table.old)
        (λ outcome. Judged (stored_exchange old_words.now new_words.now tolerances.now.channels)
        table.new outcome.replaces) }
{
    let lent = StoredExchange {
        old_words,
        new_words,
        tolerances: tolerances.channels,
    };
    Decision::of_words(lent.decide(table))
}

/// Checks a table as a certificate of the exchange of two systems that lie in words.
#[unsafe(no_mangle)]
pub extern "C" fn cunaweho_check(
    old_words: &[u16],
    new_words: &[u16],
    tolerances: &Tolerances,
    table: &[u32],
) -> Certificate
    ensures answer { result ≡ certificate_of (check_says
        (words_fault old_words.now new_words.now tolerances.now.channels (length table.now))
        (stored_exchange old_words.now new_words.now tolerances.now.channels) table.now) }
    ensures law { IfOk (check_says
        (words_fault old_words.now new_words.now tolerances.now.channels (length table.now))
        (stored_exchange old_words.now new_words.now tolerances.now.channels) table.now)
        (λ certificate. Shows (stored_exchange old_words.now new_words.now tolerances.now.channels)
        table.now certificate.replaces) }
{
    let lent = StoredExchange {
        old_words,
        new_words,
        tolerances: tolerances.channels,
    };
    Certificate::of(lent.check(table))
}

/// Ranks the pairs of the exchange of two systems that lie in words.
#[unsafe(no_mangle)]
pub extern "C" fn cunaweho_rank_words(
    old_words: &[u16],
    new_words: &[u16],
    tolerances: &Tolerances,
    table: &mut [u32],
) -> Ranks
    ensures answer { result ≡ ranks_of words_refusal (rank_says
        (words_fault old_words.now new_words.now tolerances.now.channels (length table.old))
        (stored_exchange old_words.now new_words.now tolerances.now.channels) table.old) }
    ensures table { table.new ≡ rank_does
        (words_fault old_words.now new_words.now tolerances.now.channels (length table.old))
        (stored_exchange old_words.now new_words.now tolerances.now.channels) table.old }
    ensures law { IfOk (rank_says
        (words_fault old_words.now new_words.now tolerances.now.channels (length table.old))
        (stored_exchange old_words.now new_words.now tolerances.now.channels) table.old)
        (λ _. RanksRight (stored_exchange old_words.now new_words.now tolerances.now.channels)
        table.old table.new) }
{
    let lent = StoredExchange {
        old_words,
        new_words,
        tolerances: tolerances.channels,
    };
    Ranks::of_words(lent.rank(table))
}
