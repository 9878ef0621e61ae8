//! The words of a system file that has been tested, row by row.
ghost use Rattle.std.specs.Prelude.{◌≡◌, ℕ, ◌+◌, ◌*◌, ◌<◌, ◌≤◌, length};
ghost use Rattle.codec.specs.Filing.{unfiled};
ghost use Rattle.codec.specs.Sequence.{skip, nth};
ghost use Rattle.files.specs.SystemFile.{FewMoves, file_row, file_rows, row_end, row_start};
ghost use Rattle.systems.specs.Layout.{row_words, words_taken};
ghost use Rattle.systems.specs.Rows.{of_rows};
ghost use Rattle.systems.specs.Words.{rewritten, row_cells, system_words, with_next_states, with_readings};

use crate::check::Sizes;
use codec::{Reader, unfile_reading};
use systems::{RowMut, row_range, write_header};

/// Writes the readings of a row.
fn write_readings(row: &mut RowMut, reader: &mut Reader, channels: u16)
    ensures row { row.new ≡ rewritten row.old
        (with_readings row.old.channels row.old.words.now channels
        (λ k. unfiled (nth reader.old.bytes k reader.old.place))) }
    ensures place { reader.new ≡
        record reader.old { place = skip reader.old.bytes channels reader.old.place } }
{
    for channel in 0..channels {
        row.set_reading(channel, unfile_reading(reader.number_or_zero()));
    }
}

/// Writes the next states of a row, where the controller and the environment have so many moves.
fn write_next_states(row: &mut RowMut, reader: &mut Reader, controller: u16, environment: u16)
    ensures row { row.new ≡ rewritten row.old
        (with_next_states row.old.channels row.old.words.now controller environment
        (λ a b. nth reader.old.bytes (a * environment + b) reader.old.place)) }
    ensures place { reader.new ≡
        record reader.old {
          place = skip reader.old.bytes (controller * environment) reader.old.place;
        } }
{
    for controller_move in 0..controller {
        for environment_move in 0..environment {
            row.set_next(controller_move, environment_move, reader.number_or_zero());
        }
    }
}

/// Writes the row of a state.
fn write_row(words: &mut [u16], reader: &mut Reader, channels: u16)
    requires long { length words.old ≡ row_words channels }
    requires few_moves { FewMoves reader.old.bytes channels reader.old.place }
    ensures words { words.new ≡
        row_cells channels (file_row reader.old.bytes channels reader.old.place) }
    ensures place { reader.new ≡
        record reader.old { place = row_end reader.old.bytes channels reader.old.place } }
{
    let mut row = RowMut::new(words, channels);
    write_readings(&mut row, reader, channels);
    let controller = reader.number_or_zero();
    let environment = reader.number_or_zero();
    row.set_moves(controller, environment);
    write_next_states(&mut row, reader, controller, environment);
}

/// Writes the system whose rows begin at the reader's place.
pub(crate) fn write_words(words: &mut [u16], reader: &mut Reader, sizes: Sizes)
    requires long { length words.old ≡ words_taken sizes.states sizes.channels }
    requires few_moves { (w : ℕ) → w < sizes.states →
        FewMoves reader.old.bytes sizes.channels
        (row_start reader.old.bytes sizes.channels reader.old.place w) }
    ensures { words.new ≡ system_words (of_rows sizes.states sizes.channels
        (file_rows reader.old.bytes sizes.channels reader.old.place)) }
{
    write_header(words, sizes.states, sizes.channels);
    // cut by place: after a loop over `chunks_exact_mut` a proof does not know what the words hold
    for state in 0..sizes.states {
        let row = &mut words[row_range(sizes.channels, state)];
        write_row(row, reader, sizes.channels);
    }
}
