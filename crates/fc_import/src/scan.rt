//! The cards and gaps of a line, seen once: the only place where a byte becomes a card.
ghost use Rattle.std.specs.Option.{option_to_list};
ghost use Rattle.std.specs.Prelude.{◌&&◌, ◌++◌, ◌-◌, ◌≡◌, drop, IfOk, OnOk, take};
ghost use Rattle.fc_text.specs.Spelling.{card_spelled};
ghost use Rattle.fc_import.specs.Scan.{cards_in, is_number, is_number_alone, named_card, words_of};
ghost use Rattle.fc_import.specs.Seen.{cards_of, IsSeen};

use crate::marks::{Front, Shape};
use crate::moves::is_number;
use crate::words::{Word, Words, uncommented};
use fc_card::Card;
use fc_text::card_spelled;
use std::alloc::AllocError;

/// A card or a gap of a line, and in which group it is.
#[derive(Clone, Copy, Debug)]
pub(crate) struct Placed {
    pub(crate) card: Option<Card>,
    pub(crate) group: u16,
}

/// What a line holds, beside its cards.
#[derive(Clone, Copy, Debug)]
pub(crate) struct LineSeen {
    pub(crate) words: usize,
    /// Whether each word is a number.
    pub(crate) numbers: bool,
    /// How it looks, of which nothing is promised.
    pub(crate) shape: Shape,
}

impl LineSeen {
    /// Sees a line: puts its cards and gaps.
    pub(crate) fn of(line: &[u8], placed: &mut Vec<Placed>) -> Result<LineSeen, AllocError>
        ensures cards { OnOk result
            (cards_of placed.new.items ≡ cards_of placed.old.items ++ cards_in line.now) }
        ensures seen { IfOk result (IsSeen line.now) }
    {
        let text = uncommented(line);
        let mut words: usize = 0;
        let mut numbers = true;
        let mut front = Front::new(text);
        for word in Words::new(text) {
            push_word(placed, &mut front, text, &word)?;
            words = words.saturating_add(1);
            numbers = is_number_too(numbers, word.text);
        }
        front.pass(text, text.len());
        push_gaps(placed, &front)?;
        Ok(LineSeen {
            words,
            numbers,
            shape: front.shape,
        })
    }

    /// Whether the line is a number alone.
    pub(crate) fn is_number_alone(&self, line: &[u8]) -> bool
        requires { IsSeen line.now self.now }
        ensures { result ≡ is_number_alone (words_of line.now) }
    {
        self.words == 1 && self.numbers
    }
}

// Whether this was so before, and the word is a number.
fn is_number_too(before: bool, word: &[u8]) -> bool
    ensures { result ≡ (before && is_number word.now) }
{
    before && is_number(word)
}

// Passes the next word: puts the gaps before it, and the card that it names, if it names one.
fn push_word(
    placed: &mut Vec<Placed>,
    front: &mut Front,
    text: &[u8],
    word: &Word<'_>,
) -> Result<(), AllocError>
    ensures { OnOk result (cards_of placed.new.items
        ≡ cards_of placed.old.items ++ option_to_list (named_card word.now.text.now)) }
{
    let card = named_card(word.text);
    pass_to(placed, front, text, word, &card)?;
    let place = front.place(card);
    push_card(placed, &place)
}

// Passes the next word, which names this card, and puts the gaps before it.
fn pass_to(
    placed: &mut Vec<Placed>,
    front: &mut Front,
    text: &[u8],
    word: &Word<'_>,
    card: &Option<Card>,
) -> Result<(), AllocError>
    ensures { OnOk result (cards_of placed.new.items ≡ cards_of placed.old.items) }
{
    if let Some(card) = card {
        if front.goes_on(text, word, *card) {
            return Ok(());
        }
    }
    front.pass(text, word.start);
    push_gaps(placed, front)?;
    front.count(word, card);
    Ok(())
}

// Puts the gaps before the next word.
fn push_gaps(placed: &mut Vec<Placed>, front: &Front) -> Result<(), AllocError>
    ensures { OnOk result (cards_of placed.new.items ≡ cards_of placed.old.items) }
{
    for _gap in 0..front.gaps_before {
        placed.push(front.place(None))?;
    }
    Ok(())
}

// Puts a place that has a card, and no other.
fn push_card(placed: &mut Vec<Placed>, place: &Placed) -> Result<(), AllocError>
    ensures { OnOk result
        (cards_of placed.new.items ≡ cards_of placed.old.items ++ option_to_list place.now.card) }
{
    if place.card.is_some() {
        placed.push(*place)?;
    }
    Ok(())
}

/// The card that a word names: as a board's text spells it, or with its suit first.
pub(crate) fn named_card(word: &[u8]) -> Option<Card>
    ensures { result ≡ named_card word.now }
{
    match card_spelled(word) {
        Some(card) => Some(card),
        None => suit_first(word),
    }
}

// The card that a word spells whose suit is its first letter.
fn suit_first(word: &[u8]) -> Option<Card>
    ensures { result ≡ card_spelled (drop 1 word.now ++ take 1 word.now) }
{
    match word {
        [suit, rank] => card_spelled(&[*rank, *suit]),
        [suit, first, second] => card_spelled(&[*first, *second, *suit]),
        _ => None,
    }
}
