//! The moves that words name, one word after another.
ghost use Rattle.std.specs.Char.{is_ascii_alphabetic, is_ascii_digit, is_ascii_lowercase};
ghost use Rattle.std.specs.{List.{list_all, list_any, prefix_len}, Option.{is_some}};
ghost use Rattle.std.specs.Prelude.{◌&&◌, ◌++◌, ◌+◌, ◌==◌, ◌||◌, ◌≡◌, codes, drop, false, IfOk};
ghost use Rattle.std.specs.Prelude.{if◌then◌else◌, length, min, nat_lt, None, not, OnOk, take};
ghost use Rattle.std.specs.Str.{bytes_eq, str_to_ascii_lowercase};
ghost use Rattle.{fc_card.specs.Types.{Text}, fc_text.specs.{Bytes.{is_gap}, reader.{run_named}}};
ghost use Rattle.fc_import.specs.{Names.{is_among}, Scan.{after_arrow, after_first, after_letters}};
ghost use Rattle.fc_import.specs.Scan.{after_next, after_word, are_cards, are_glued, arrow_of};
ghost use Rattle.fc_import.specs.Scan.{before_dots, is_capital_card, is_card_move, is_glued};
ghost use Rattle.fc_import.specs.Scan.{is_going, is_label, is_number, is_sure, is_target};
ghost use Rattle.fc_import.specs.Scan.{is_unread, solution_names, sureness, with_move};
ghost use Rattle.fc_import.specs.Seen.{piece_of, said_of};

use crate::labels::is_pile_name;
use crate::scan::named_card;
use crate::words::Word;
use fc_board::Rule;
use fc_text::{gap_len, run_named};
use std::alloc::AllocError;

/// What is kept of the words of a line beside its moves.
#[derive(Clone, Copy, Debug)]
pub(crate) struct Heard {
    /// The pile that a move is from whose target comes next, and its arrow: `>` for one with a
    /// point, and else its first byte.
    pub(crate) from: Option<u8>,
    pub(crate) arrow: u8,
    /// Whether each word is of a move.
    pub(crate) all: bool,
    /// How sure it is that a word is a move: not (0), but for a card (1), or so (2); and whether a
    /// sure one came before any other word.
    pub(crate) sure: u8,
    pub(crate) led: bool,
}

impl Heard {
    /// Takes the next word of the text, and puts the move that it ends, if it ends one.
    pub(crate) fn take<R: Rule>(
        self,
        text: &[u8],
        word: &Word<'_>,
        moves: &mut Vec<u8>,
    ) -> Result<Heard, AllocError>
        ensures { IfOk result (λ heard. said_of moves.new.items heard
            ≡ after_word R.game text.now (said_of moves.old.items self) (piece_of word.now)) }
    {
        let after = from(text, word.end);
        if is_label(word.text, after) && self.from.is_none() {
            return Ok(self);
        }
        let next = after_gap(after);
        let heard = self.take_next::<R>(word.text, next, moves)?;
        Ok(heard.before_dots(next))
    }

    fn take_next<R: Rule>(
        self,
        word: &[u8],
        next: &[u8],
        moves: &mut Vec<u8>,
    ) -> Result<Heard, AllocError>
        ensures { IfOk result (λ heard. said_of moves.new.items heard
            ≡ after_next R.game (said_of moves.old.items self) self.from word.now next.now) }
    {
        match self.from {
            None => self.take_first::<R>(word, next, moves),
            Some(from) => self.take_target::<R>(from, word, next, moves),
        }
    }

    // Passes dots, if they come next.
    fn before_dots(self, next: &[u8]) -> Heard
        ensures { (moves : Text)
            → said_of moves result ≡ before_dots (said_of moves self) next.now }
    {
        if has_dots(next) {
            self.with_other(false)
        } else {
            self
        }
    }

    // Passes a word that is of no move, or of one in a form that is not read.
    fn with_other(self, is_unread: bool) -> Heard
        ensures from { result.from ≡ None }
        ensures arrow { result.arrow ≡ 0 }
        ensures all { result.all ≡ false }
        ensures sure { result.sure ≡ self.sure }
        ensures led { result.led ≡ (self.led || is_unread) }
    {
        Heard {
            from: None,
            arrow: 0,
            all: false,
            led: self.led || is_unread,
            ..self
        }
    }

    fn take_first<R: Rule>(
        self,
        word: &[u8],
        next: &[u8],
        moves: &mut Vec<u8>,
    ) -> Result<Heard, AllocError>
        ensures { IfOk result (λ heard. said_of moves.new.items heard
            ≡ after_first R.game (said_of moves.old.items self) word.now next.now) }
    {
        if is_read::<R>(word, next) {
            return self.with_move(word, sureness(word), moves);
        }
        if begins_move(word, next) {
            return Ok(Heard {
                from: Some(word[0]),
                arrow: arrow_of(next),
                ..self
            });
        }
        Ok(self.with_other(is_unread::<R>(word, next)))
    }

    fn take_target<R: Rule>(
        self,
        from: u8,
        word: &[u8],
        next: &[u8],
        moves: &mut Vec<u8>,
    ) -> Result<Heard, AllocError>
        ensures { IfOk result (λ heard. said_of moves.new.items heard
            ≡ after_arrow R.game (said_of moves.old.items self) from word.now next.now) }
    {
        if word == b"to".as_slice() {
            return Ok(self);
        }
        if word.len() == 1 && !is_going(arrow_of(next)) {
            return self.take_letters::<R>(&[from, word[0]], moves);
        }
        Ok(self.with_other(word.len() == 1 || is_target(from, self.arrow, word)))
    }

    // Takes the letters of a pile and of the target after an arrow.
    fn take_letters<R: Rule>(self, letters: &[u8], moves: &mut Vec<u8>) -> Result<Heard, AllocError>
        ensures { IfOk result (λ heard. said_of moves.new.items heard
            ≡ after_letters R.game (said_of moves.old.items self) letters.now) }
    {
        if run_named::<R>(letters).is_some() {
            return self.with_move(letters, sureness_after(self.arrow, letters), moves);
        }
        Ok(self.with_other(false))
    }

    // Puts a move, which is so sure.
    fn with_move(self, word: &[u8], sure: u8, moves: &mut Vec<u8>) -> Result<Heard, AllocError>
        ensures { IfOk result (λ heard. said_of moves.new.items heard
            ≡ with_move (said_of moves.old.items self) word.now sure) }
    {
        moves.push(b' ')?;
        push_lower(moves, word)?;
        Ok(Heard {
            from: None,
            arrow: 0,
            all: self.all,
            sure: more_sure(self.sure, sure),
            led: self.led || is_first(sure, self.all),
        })
    }
}

// Whether the word is a move, and no pile or card with an arrow after it.
fn is_read<R: Rule>(word: &[u8], next: &[u8]) -> bool
    ensures { result ≡ (is_some (run_named R.game word.now) && not (arrow_of next.now == 0x3E)
        && not (is_card_move word.now next.now)) }
{
    run_named::<R>(word).is_some() && arrow_of(next) != b'>' && !is_card_move(word, next)
}

// Whether the word may be a pile with an arrow after it.
fn begins_move(word: &[u8], next: &[u8]) -> bool
    ensures { result ≡ (length word.now == 1 && not (arrow_of next.now == 0)) }
{
    word.len() == 1 && arrow_of(next) != 0
}

// Whether the word begins a target that is not read.
fn is_target(from: u8, arrow: u8, word: &[u8]) -> bool
    ensures { result ≡ is_target from arrow word.now }
{
    is_pile_name(word) || from.is_ascii_digit() && is_going(arrow) && !is_number(word)
}

fn has_dots(next: &[u8]) -> bool
    ensures { result ≡ bytes_eq (take 3 next.now) (codes "...") }
{
    matches!(next, [b'.', b'.', b'.', ..])
}

// Whether the word is of a move in a form that is not read.
fn is_unread<R: Rule>(word: &[u8], next: &[u8]) -> bool
    ensures { result ≡ is_unread R.game word.now next.now }
{
    run_named::<R>(word).is_some()
        || is_glued::<R>(word)
        || is_card_move(word, next)
        || are_glued(word)
}

/// Whether the word is three cards or more that are not parted.
pub(crate) fn are_glued(word: &[u8]) -> bool
    ensures { result ≡ are_glued word.now }
{
    word.len() >= 6 && are_cards(word)
}

// Whether each two letters are a card.
fn are_cards(word: &[u8]) -> bool
    ensures { result ≡ are_cards word.now }
{
    let mut left = word;
    while let [rank, suit, rest @ ..] = left {
        if named_card(&[*rank, *suit]).is_none() {
            return false;
        }
        left = rest;
    }
    left.is_empty()
}

// How sure it is by two words, up to 2.
fn more_sure(before: u8, sure: u8) -> u8
    ensures { result ≡ min 2 (before + sure) }
{
    before.saturating_add(sure).min(2)
}

// Whether a move is sure at all, and all before it were moves.
fn is_first(sure: u8, all: bool) -> bool
    ensures { result ≡ (nat_lt 0 sure && all) }
{
    sure > 0 && all
}

// How sure the letters after this arrow are a move: after a point or `to` they are no card.
fn sureness_after(arrow: u8, letters: &[u8]) -> u8
    ensures { result ≡ if arrow == 0x3E || (arrow == 0x74 && is_sure letters.now) then 2
        else sureness letters.now }
{
    if arrow == b'>' || arrow == b't' && is_sure(letters) {
        2
    } else {
        sureness(letters)
    }
}

// How sure the word is a move: one of a digit and a letter may be a card.
fn sureness(word: &[u8]) -> u8
    ensures { result ≡ sureness word.now }
{
    if !is_sure(word) {
        0
    } else if named_card(word).is_some() {
        1
    } else {
        2
    }
}

// The text from this place on.
fn from(text: &[u8], at: usize) -> &[u8]
    ensures { result.now ≡ drop at text.now }
{
    &text[at.min(text.len())..]
}

// Whether a number or a name of a solution has a colon after it, or a number a dot or a bracket.
fn is_label(word: &[u8], after: &[u8]) -> bool
    ensures { result ≡ is_label word.now after.now }
{
    match after.first() {
        Some(b':') => is_number(word) || is_solution_name(word),
        Some(b'.' | b')') => is_number(word),
        _ => false,
    }
}

pub(crate) fn is_solution_name(word: &[u8]) -> bool
    ensures { result ≡ is_among word.now solution_names }
{
    word.eq_ignore_ascii_case(b"solution")
        || word.eq_ignore_ascii_case(b"moves")
        || word.eq_ignore_ascii_case(b"move")
}

pub(crate) fn is_number(word: &[u8]) -> bool
    ensures { result ≡ is_number word.now }
{
    word.iter().all(|byte| byte.is_ascii_digit())
}

// Whether the word has a digit and a letter.
pub(crate) fn is_sure(word: &[u8]) -> bool
    ensures { result ≡ is_sure word.now }
{
    !is_number(word) && !is_alphabetic(word)
}

fn is_alphabetic(word: &[u8]) -> bool
    ensures { result ≡ list_all is_ascii_alphabetic word.now }
{
    word.iter().all(|byte| byte.is_ascii_alphabetic())
}

// Whether moves that are not parted begin the word.
fn is_glued<R: Rule>(word: &[u8]) -> bool
    ensures { result ≡ is_glued R.game word.now }
{
    if word.len() < 4 {
        return false;
    }
    let (first, rest) = word.split_at(2);
    is_sure(first) && run_named::<R>(first).is_some() && run_named::<R>(&rest[..2]).is_some()
}

// Whether the word is a card in capitals that goes somewhere.
fn is_card_move(word: &[u8], next: &[u8]) -> bool
    ensures { result ≡ is_card_move word.now next.now }
{
    is_capital_card(word) && is_going(arrow_of(next))
}

/// Whether the word is a card in capitals.
pub(crate) fn is_capital_card(word: &[u8]) -> bool
    ensures { result ≡ is_capital_card word.now }
{
    named_card(word).is_some() && !has_small_letters(word)
}

pub(crate) fn has_small_letters(word: &[u8]) -> bool
    ensures { result ≡ list_any is_ascii_lowercase word.now }
{
    word.iter().any(|byte| byte.is_ascii_lowercase())
}

// What comes after blanks and tabs.
fn after_gap(rest: &[u8]) -> &[u8]
    ensures { result.now ≡ drop (prefix_len is_gap rest.now) rest.now }
{
    &rest[gap_len(rest)..]
}

// The arrow that comes next: `>` for one with a point, a dash, `=` or the `t` of `to`, or 0.
fn arrow_of(next: &[u8]) -> u8
    ensures { result ≡ arrow_of next.now }
{
    match next {
        [b'>', ..] | [b'-' | b'=', b'>', ..] => b'>',
        [mark @ (b'-' | b'='), ..] => *mark,
        [b't', b'o', b' ', ..] => b't',
        _ => 0,
    }
}

// Whether the arrow has a point, or is `to`.
fn is_going(arrow: u8) -> bool
    ensures { result ≡ is_going arrow }
{
    arrow == b'>' || arrow == b't'
}

pub(crate) fn push_lower(moves: &mut Vec<u8>, word: &[u8]) -> Result<(), AllocError>
    ensures { OnOk result (moves.new.items
        ≡ moves.old.items ++ str_to_ascii_lowercase word.now) }
{
    for letter in word {
        moves.push(letter.to_ascii_lowercase())?;
    }
    Ok(())
}
