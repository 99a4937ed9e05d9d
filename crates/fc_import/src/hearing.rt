//! What the words of a line say of moves: the only place where a byte becomes a move.
ghost use Rattle.std.specs.{List.{list_all, list_any}, Option.{is_none, is_some}, Prelude.{◌&&◌}};
ghost use Rattle.std.specs.Prelude.{◌*◌, ◌==◌, ◌||◌, ◌≡◌, ◌≤◌, ◌⊎◌, [], count_by, false, IfOk};
ghost use Rattle.std.specs.Prelude.{if◌then◌else◌, IsTrue, length, None, not, true};
ghost use Rattle.fc_text.specs.{Bytes.{blank, number_sign}, reader.{run_named}};
ghost use Rattle.fc_import.specs.{Names.{is_among}, Scan.{after_word, begins_with_move}};
ghost use Rattle.fc_import.specs.Scan.{has_cut_move, HasFewMoves, is_capital_card, is_drawn};
ghost use Rattle.fc_import.specs.Scan.{is_drawn_word, is_in_words, is_list, is_number};
ghost use Rattle.fc_import.specs.Scan.{is_number_alone, is_plain, is_small_move, is_suit_too};
ghost use Rattle.fc_import.specs.Scan.{is_sure_move, joined, solution_names, word_at, words_of};
ghost use Rattle.fc_import.specs.Seen.{IsHeard, IsSeen, piece_of, said_of};

use crate::moves::{
    Heard, has_small_letters, is_capital_card, is_number, is_solution_name, is_sure,
};
use crate::scan::LineSeen;
use crate::solver::{push_solver_move, word_at};
use crate::words::{Word, Words, uncommented};
use fc_board::Rule;
use fc_text::run_named;
use std::alloc::AllocError;

/// What a line says of moves, beside these.
#[derive(Clone, Copy, Debug)]
pub(crate) struct LineHeard {
    pub(crate) heard: Heard,
    /// Where the first word is that is of no move, of which nothing is promised.
    pub(crate) other: usize,
}

impl LineHeard {
    /// Hears a line: puts the moves that its words name in place of those that are there.
    pub(crate) fn of<R: Rule>(line: &[u8], moves: &mut Vec<u8>) -> Result<LineHeard, AllocError>
        ensures { IfOk result (IsHeard R.game line.now moves.new.items) }
    {
        moves.clear();
        let text = uncommented(line);
        let is_said = push_solver_move::<R>(text, moves)?;
        let mut heard = first_heard(is_said);
        let mut other: usize = 0;
        for word in Words::new(text) {
            other = later_if(heard.all, word.start, other);
            heard = hear::<R>(is_said, heard, text, &word, moves)?;
        }
        Ok(LineHeard { heard, other })
    }

    /// Whether the line is a list, of which these are the moves.
    pub(crate) fn is_list<R: Rule>(&self, line: &[u8], seen: &LineSeen, moves: &[u8]) -> bool
        requires seen { IsSeen line.now seen.now }
        requires heard { IsHeard R.game line.now moves.now self.now }
        ensures { result ≡ is_list R.game line.now }
    {
        if line.first() == Some(&b'>') {
            return true;
        }
        self.heard.all
            && self.heard.from.is_none()
            && !moves.is_empty()
            && !seen.is_number_alone(line)
            && is_plain::<R>(line)
    }

    /// Whether the line names few moves, which are these.
    pub(crate) fn has_few_moves<R: Rule>(&self, line: &[u8], seen: &LineSeen, moves: &[u8]) -> bool
        requires seen { IsSeen line.now seen.now }
        requires heard { IsHeard R.game line.now moves.now self.now }
        ensures { IsTrue result → HasFewMoves R.game line.now }
    {
        let count = moves_in(moves);
        if count >= 4 || !has_half(line, seen, count) {
            return false;
        }
        if self.heard.sure > 1 || self.heard.led {
            return false;
        }
        !begins_with_move::<R>(line) && !has_cut_move::<R>(line)
    }
}

/// Whether the line is a list, of which the moves are put in place of those that are there.
pub(crate) fn is_list<R: Rule>(
    line: &[u8],
    seen: &LineSeen,
    moves: &mut Vec<u8>,
) -> Result<bool, AllocError>
    requires { IsSeen line.now seen.now }
    ensures { IfOk result (λ is. is ≡ is_list R.game line.now) }
{
    let heard = LineHeard::of::<R>(line, moves)?;
    Ok(heard.is_list::<R>(line, seen, moves.as_slice()))
}

// Whether so many moves are at most half of the words, or the line is a number alone.
fn has_half(line: &[u8], seen: &LineSeen, count: usize) -> bool
    requires { IsSeen line.now seen.now }
    ensures { IsTrue result → (2 * count ≤ length (words_of line.now))
        ⊎ (is_number_alone (words_of line.now) ≡ true) }
{
    count <= seen.words / 2 || seen.is_number_alone(line)
}

// Whether the line begins with a move, which may be cut into two signs, or has one after a number or
// a name of a solution.
fn begins_with_move<R: Rule>(line: &[u8]) -> bool
    ensures { result ≡ begins_with_move R.game (words_of line.now) }
{
    let text = uncommented(line);
    let (first, second) = (word_at(text, 0), word_at(text, 1));
    is_move_in::<R>(first, second) || is_lead(first) && is_move_in::<R>(second, word_at(text, 2))
}

// Whether the word is a number or a name of a solution.
fn is_lead(word: &[u8]) -> bool
    ensures { result ≡ (is_number word.now || is_among word.now solution_names) }
{
    is_number(word) || is_solution_name(word)
}

// Whether the first of two words is a move, or both are signs of one.
fn is_move_in<R: Rule>(first: &[u8], second: &[u8]) -> bool
    ensures { result ≡ is_sure_move R.game (joined first.now second.now) }
{
    match (first, second) {
        ([one], [other]) => is_sure_move::<R>(&[*one, *other]),
        _ => is_sure_move::<R>(first),
    }
}

// Whether two signs that come one after the other are a move, and no card.
fn has_cut_move<R: Rule>(line: &[u8]) -> bool
    ensures { result ≡ has_cut_move R.game [] (words_of line.now) }
{
    let mut before = b"".as_slice();
    for word in Words::new(uncommented(line)) {
        if is_cut_move::<R>(before, word.text) {
            return true;
        }
        before = word.text;
    }
    false
}

// Whether both words are signs of a move, which may be no card.
fn is_cut_move<R: Rule>(first: &[u8], second: &[u8]) -> bool
    ensures { result ≡ (length first.now == 1 && is_sure_move R.game (joined first.now second.now)
        && not (is_suit_too first.now || is_suit_too second.now)) }
{
    is_single(first)
        && is_move_in::<R>(first, second)
        && !(is_suit_too(first) || is_suit_too(second))
}

// Whether the word is a letter of piles and of suits.
fn is_suit_too(word: &[u8]) -> bool
    ensures { result ≡ is_suit_too word.now }
{
    word.eq_ignore_ascii_case(b"c")
        || word.eq_ignore_ascii_case(b"d")
        || word.eq_ignore_ascii_case(b"h")
}

// Whether no word is the number after a number sign, and none a card in capitals beside moves with
// small letters.
fn is_plain<R: Rule>(line: &[u8]) -> bool
    ensures { result ≡ is_plain R.game line.now }
{
    has_no_number_sign(uncommented(line)) && !(has_capital_card(line) && has_small_move::<R>(line))
}

fn has_no_number_sign(text: &[u8]) -> bool
    ensures { result ≡ list_all (λ byte. not (byte == number_sign)) text.now }
{
    text.iter().all(|byte| *byte != b'#')
}

fn has_capital_card(line: &[u8]) -> bool
    ensures { result ≡ list_any (λ word. is_capital_card word.0.bytes) (words_of line.now) }
{
    for word in Words::new(uncommented(line)) {
        if is_capital_card(word.text) {
            return true;
        }
    }
    false
}

// Whether a word is a move with a small letter, or a sign of one.
fn has_small_move<R: Rule>(line: &[u8]) -> bool
    ensures { result ≡ list_any (λ word. is_small_move R.game word.0.bytes) (words_of line.now) }
{
    for word in Words::new(uncommented(line)) {
        if is_small_move::<R>(word.text) {
            return true;
        }
    }
    false
}

fn is_small_move<R: Rule>(word: &[u8]) -> bool
    ensures { result ≡ is_small_move R.game word.now }
{
    (word.len() == 1 || run_named::<R>(word).is_some()) && has_small_letters(word)
}

// Whether the word is a move with a digit and a letter.
fn is_sure_move<R: Rule>(word: &[u8]) -> bool
    ensures { result ≡ is_sure_move R.game word.now }
{
    is_sure(word) && run_named::<R>(word).is_some()
}

// Hears the next word, unless the line says a move as Freecell Solver does.
fn hear<R: Rule>(
    is_said: bool,
    heard: Heard,
    text: &[u8],
    word: &Word<'_>,
    moves: &mut Vec<u8>,
) -> Result<Heard, AllocError>
    ensures { IfOk result (λ after. said_of moves.new.items after
        ≡ if is_said then said_of moves.old.items heard
        else after_word R.game text.now (said_of moves.old.items heard) (piece_of word.now)) }
{
    if is_said {
        return Ok(heard);
    }
    heard.take::<R>(text, word, moves)
}

fn later_if(is_later: bool, later: usize, before: usize) -> usize {
    if is_later { later } else { before }
}

/// Whether the text begins with a move in Freecell Solver's words, or before its letters.
pub(crate) fn is_in_words(text: &[u8]) -> bool
    ensures { result ≡ is_in_words text.now }
{
    text.starts_with(b"Move ") || text.starts_with(b"Move:")
}

/// Whether each word of the line may be in a drawing of a board.
pub(crate) fn is_drawn(line: &[u8]) -> bool
    ensures { result ≡ is_drawn line.now }
{
    for word in Words::new(uncommented(line)) {
        if !is_drawn_word(word.text) {
            return false;
        }
    }
    true
}

// Whether the word is one sign, a ten, the name of a line, or a card in capitals.
fn is_drawn_word(word: &[u8]) -> bool
    ensures { result ≡ is_drawn_word word.now }
{
    is_single(word)
        || word == b"10".as_slice()
        || word == b"Foundations".as_slice()
        || word == b"Freecells".as_slice()
        || is_capital_card(word)
}

fn is_single(word: &[u8]) -> bool
    ensures { result ≡ (length word.now == 1) }
{
    word.len() == 1
}

// What is heard before the first word: whether it is of a move that Freecell Solver says.
fn first_heard(is_said: bool) -> Heard
    ensures from { result.from ≡ None }
    ensures arrow { result.arrow ≡ 0 }
    ensures all { result.all ≡ true }
    ensures sure { result.sure ≡ if is_said then 1 else 0 }
    ensures led { result.led ≡ is_said }
{
    Heard {
        from: None,
        arrow: 0,
        all: true,
        sure: u8::from(is_said),
        led: is_said,
    }
}

/// How many moves there are, each after a blank.
pub(crate) fn moves_in(moves: &[u8]) -> usize
    ensures { result ≡ count_by (λ byte. byte == blank) moves.now }
{
    moves.iter().filter(|byte| **byte == b' ').count()
}
