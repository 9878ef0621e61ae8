//! The calls on stored systems under a code list, the same on both sides.
ghost use Rattle.std.specs.Prelude.{◌≡◌, Some, None, IfOk, MatchResult};
ghost use Rattle.systems.specs.CodeList.{add_answer, added, listed};
ghost use Rattle.systems.specs.Refused.{if_granted};
ghost use Rattle.layered.specs.Codes.{coded, coded_certificate, coded_decision, coded_ranks, codes_fault, codes_refusal, entry, meant};
ghost use Rattle.layered.specs.Layers.{check_says, decide_does, decide_says, rank_does, rank_says};

use crate::layers::{check, decide, rank};
use hosting::{Certificate, Decision, Ranks, Refusal, Tolerances};
use systems::{CodeFault, CodeList, Stored};

/// An entry of a code list.
#[repr(C)]
#[derive(Clone, Copy)]
pub struct Code {
    pub from: i16,
    pub to: i16,
}

/// What a refusal of the codes is about, as a number: the one behind those that `hosting` gives.
const CODES_ITEM: u8 = 10;

/// The refusal of the codes.
fn codes_refusal(fault: CodeFault) -> Refusal
    ensures { result ≡ codes_refusal fault }
{
    Refusal {
        number: fault.number(),
        item: CODES_ITEM,
        state: 0,
        new_state: 0,
        place: 0,
    }
}

/// Adds a code behind the others, or refuses it where there is no room for it.
fn add_code(list: &mut CodeList<Stored<'_>>, code: Code) -> Result<(), CodeFault>
    ensures answer { result ≡ add_answer (listed list.old.codes) }
    ensures entries { listed list.new.codes ≡ added (listed list.old.codes) (entry code) }
    ensures system { list.new.system ≡ list.old.system }
    ensures channel { list.new.channel ≡ list.old.channel }
    ensures cut { list.new.codes.cut ≡ list.old.codes.cut }
{
    list.add(code.from, code.to)
}

/// The system that the words hold, with the codes on a channel; refused where a code list has no room for them.
fn coded<'a>(
    words: &'a [u16],
    codes: &[Code],
    channel: u8,
    cut: i16,
) -> Result<CodeList<Stored<'a>>, CodeFault>
    ensures fault { MatchResult result (λ _. codes_fault codes.now ≡ None) (λ fault. codes_fault codes.now ≡ Some fault) }
    ensures meaning { IfOk result (λ list. meant list ≡ coded words.now codes.now channel cut) }
{
    let mut list = CodeList::new(Stored::new(words), channel, cut);
    for code in codes {
        add_code(&mut list, *code)?;
    }
    Ok(list)
}

/// Both systems of an exchange, with the codes on a channel.
#[derive(Clone, Copy)]
struct Sides<'a> {
    old: CodeList<Stored<'a>>,
    new: CodeList<Stored<'a>>,
}

impl<'a> Sides<'a> {
    /// Those that the words hold.
    fn new(
        old_words: &'a [u16],
        new_words: &'a [u16],
        codes: &[Code],
        channel: u8,
        cut: i16,
    ) -> Result<Sides<'a>, CodeFault>
        ensures fault { MatchResult result (λ _. codes_fault codes.now ≡ None) (λ fault. codes_fault codes.now ≡ Some fault) }
        ensures old { IfOk result (λ sides. meant sides.old ≡ coded old_words.now codes.now channel cut) }
        ensures new { IfOk result (λ sides. meant sides.new ≡ coded new_words.now codes.now channel cut) }
    {
        let old = coded(old_words, codes, channel, cut)?;
        let new = coded(new_words, codes, channel, cut)?;
        Ok(Sides { old, new })
    }
}

/// Decides the exchange of two coded systems.
#[unsafe(no_mangle)]
pub extern "C" fn layered_decide_coded(
    tolerances: &Tolerances,
    old_words: &[u16],
    new_words: &[u16],
    codes: &[Code],
    channel: u8,
    cut: i16,
    table: &mut [u32],
) -> Decision
    ensures answer { result ≡ coded_decision (codes_fault codes.now) (decide_says tolerances.now.channels (coded old_words.now codes.now channel cut) (coded new_words.now codes.now channel cut) table.old) }
    ensures table { table.new ≡ if_granted (codes_fault codes.now) (decide_does tolerances.now.channels (coded old_words.now codes.now channel cut) (coded new_words.now codes.now channel cut) table.old) table.old }
{
    match Sides::new(old_words, new_words, codes, channel, cut) {
        Ok(sides) => Decision::of_words(decide(tolerances, &sides.old, &sides.new, table)),
        Err(fault) => Decision {
            refusal: codes_refusal(fault),
            swept: 0,
            standing: 0,
            replaces: false,
        },
    }
}

/// Checks a table as a certificate of the exchange of two coded systems.
#[unsafe(no_mangle)]
pub extern "C" fn layered_check_coded(
    tolerances: &Tolerances,
    old_words: &[u16],
    new_words: &[u16],
    codes: &[Code],
    channel: u8,
    cut: i16,
    table: &[u32],
) -> Certificate
    ensures { result ≡ coded_certificate (codes_fault codes.now) (check_says tolerances.now.channels (coded old_words.now codes.now channel cut) (coded new_words.now codes.now channel cut) table.now) }
{
    match Sides::new(old_words, new_words, codes, channel, cut) {
        Ok(sides) => Certificate::of(check(tolerances, &sides.old, &sides.new, table)),
        Err(fault) => Certificate {
            refusal: codes_refusal(fault),
            standing: 0,
            replaces: false,
        },
    }
}

/// Ranks the pairs of the exchange of two coded systems.
#[unsafe(no_mangle)]
pub extern "C" fn layered_rank_coded(
    tolerances: &Tolerances,
    old_words: &[u16],
    new_words: &[u16],
    codes: &[Code],
    channel: u8,
    cut: i16,
    table: &mut [u32],
) -> Ranks
    ensures answer { result ≡ coded_ranks (codes_fault codes.now) (rank_says tolerances.now.channels (coded old_words.now codes.now channel cut) (coded new_words.now codes.now channel cut) table.old) }
    ensures table { table.new ≡ if_granted (codes_fault codes.now) (rank_does tolerances.now.channels (coded old_words.now codes.now channel cut) (coded new_words.now codes.now channel cut) table.old) table.old }
{
    match Sides::new(old_words, new_words, codes, channel, cut) {
        Ok(sides) => Ranks::of_words(rank(tolerances, &sides.old, &sides.new, table)),
        Err(fault) => Ranks {
            refusal: codes_refusal(fault),
            highest: 0,
        },
    }
}
