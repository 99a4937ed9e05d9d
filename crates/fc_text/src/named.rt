//! The moves that words name.
ghost use Rattle.std.specs.Char.{to_ascii_lowercase};
ghost use Rattle.std.specs.Prelude.{◌<◌, ◌==◌, ◌≡◌, length, None, position, take};
ghost use Rattle.fc_text.specs.Notation.{cell_letters, column_digits, count_letter};
ghost use Rattle.fc_text.specs.reader.{as_run, count_named, index_among, move_named, run_named};
ghost use Rattle.fc_text.specs.reader.{source_named, target_named, with_count};

use fc_board::{Move, Place, Rule, RunMove, Source};

/// The move of `R` that a word names: its source and its target, with letters in either case.
pub fn move_named<R: Rule>(word: &[u8]) -> Option<Move>
    ensures { result ≡ move_named R.game word.now }
{
    if word.len() != 2 {
        return None;
    }
    let from = source_of::<R>(word[0])?;
    let to = target_of::<R>(word[1])?;
    Some(Move { from, to })
}

/// The move of several cards of `R` that a word names: that of one card, as a run where it is from
/// column to column, and then with its number of cards where `v` and a digit follow.
pub fn run_named<R: Rule>(word: &[u8]) -> Option<RunMove>
    ensures { result ≡ run_named R.game word.now }
{
    if word.len() == 4 && is_count_letter(word[2]) {
        let mv = move_named::<R>(&word[..2])?;
        let count = count_named(word[3].to_ascii_lowercase())?;
        return with_count(as_run(mv), count);
    }
    let mv = move_named::<R>(word)?;
    Some(as_run(mv))
}

fn as_run(mv: Move) -> RunMove
    ensures { result ≡ as_run mv }
{
    match (mv.from, mv.to) {
        (Source::Column(from), Place::Column(to)) => RunMove::Run {
            from,
            to,
            count: None,
        },
        _ => RunMove::One(mv),
    }
}

fn with_count(mv: RunMove, count: u8) -> Option<RunMove>
    ensures { result ≡ with_count mv count }
{
    match mv {
        RunMove::One(_) => None,
        RunMove::Run { from, to, .. } => Some(RunMove::Run {
            from,
            to,
            count: Some(count),
        }),
    }
}

/// Whether the letter is `v`, in either case.
fn is_count_letter(letter: u8) -> bool
    ensures { result ≡ (to_ascii_lowercase letter == count_letter) }
{
    letter.to_ascii_lowercase() == b'v'
}

/// The number of cards that a hexadecimal digit in lower case names, 1 to 13.
fn count_named(digit: u8) -> Option<u8>
    ensures { result ≡ count_named digit }
{
    let count = small_index_of(digit, b"0123456789abcdef".as_slice())?;
    if 1 <= count && count <= 13 {
        Some(count)
    } else {
        None
    }
}

/// What a card of `R` is taken from, by its character in either case. Most are digits, which have
/// none.
fn source_of<R: Rule>(letter: u8) -> Option<Source>
    ensures { result ≡ source_named R.game (to_ascii_lowercase letter) }
{
    if let Some(column) = column_named(letter) {
        return Some(Source::Column(column));
    }
    source_named::<R>(letter.to_ascii_lowercase())
}

/// What a card of `R` is put on, by its character in either case.
fn target_of<R: Rule>(letter: u8) -> Option<Place>
    ensures { result ≡ target_named R.game (to_ascii_lowercase letter) }
{
    if let Some(column) = column_named(letter) {
        return Some(Place::Column(column));
    }
    if letter == b'h' {
        return Some(Place::Home);
    }
    target_named::<R>(letter.to_ascii_lowercase())
}

/// What a card of `R` is taken from, by its character in lower case.
pub fn source_named<R: Rule>(letter: u8) -> Option<Source>
    ensures { result ≡ source_named R.game letter }
{
    if let Some(column) = column_named(letter) {
        return Some(Source::Column(column));
    }
    match cell_named::<R>(letter) {
        Some(cell) => Some(Source::Cell(cell)),
        None => None,
    }
}

/// What a card of `R` is put on, by its character in lower case.
pub fn target_named<R: Rule>(letter: u8) -> Option<Place>
    ensures { result ≡ target_named R.game letter }
{
    if let Some(column) = column_named(letter) {
        return Some(Place::Column(column));
    }
    match cell_named::<R>(letter) {
        Some(cell) => Some(Place::Cell(cell)),
        None if letter == b'h' => Some(Place::Home),
        None => None,
    }
}

/// The column of this digit, from 0.
pub fn column_named(letter: u8) -> Option<u8>
    ensures { result ≡ index_among column_digits letter }
{
    match letter {
        b'1'..=b'8' => Some(letter - b'1'),
        _ => None,
    }
}

fn cell_named<R: Rule>(letter: u8) -> Option<u8>
    ensures { result ≡ index_among (take R.game.cells cell_letters) letter }
{
    match cell_of_letter(letter) {
        Some(cell) if usize::from(cell) < R::CELLS => Some(cell),
        _ => None,
    }
}

/// The cell of this letter in a game with eight.
fn cell_of_letter(letter: u8) -> Option<u8>
    ensures { result ≡ index_among cell_letters letter }
{
    match letter {
        b'a'..=b'g' => Some(letter - b'a'),
        b'k' => Some(7),
        _ => None,
    }
}

/// The index of the letter among fewer than 256 letters.
fn small_index_of(letter: u8, letters: &[u8]) -> Option<u8>
    requires { length letters.now < 256 }
    ensures { result ≡ index_among letters.now letter }
{
    let index = index_of(letter, letters)?;
    u8::try_from(index).ok()
}

/// The index of the letter among the letters.
fn index_of(letter: u8, letters: &[u8]) -> Option<usize>
    ensures { result ≡ position (λ known. known == letter) letters.now }
{
    letters.iter().position(|known| *known == letter)
}
