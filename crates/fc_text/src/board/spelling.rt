//! The words of cards, cells and heights, in either case.
ghost use Rattle.std.specs.{Option.{option_map}, Prelude.{◌<◌, ◌∷◌, ◌≡◌, ◌≤◌, [], IfSome, Some}};
ghost use Rattle.fc_text.specs.{reader.{clubs_number, suit_code}, Spelling.{card_spelled}};
ghost use Rattle.fc_text.specs.Spelling.{cell_spelled, foundation_spelled, height_spelled};
ghost use Rattle.fc_text.specs.Spelling.{is_empty_mark, rank_spelled, suit_spelled};

use fc_board::Height;
use fc_card::Card;

/// The numbers of the aces, twos and so on of clubs, by the letters of their ranks, where 1 is the
/// ace; 64 for all other bytes.
#[rattlefmt::skip]
static CLUBS: [u8; 256] = [
    64, 64, 64, 64, 64, 64, 64, 64, 64, 64, 64, 64, 64, 64, 64, 64,
    64, 64, 64, 64, 64, 64, 64, 64, 64, 64, 64, 64, 64, 64, 64, 64,
    64, 64, 64, 64, 64, 64, 64, 64, 64, 64, 64, 64, 64, 64, 64, 64,
    64, 0, 4, 8, 12, 16, 20, 24, 28, 32, 64, 64, 64, 64, 64, 64, // 1 to 9
    64, 0, 64, 64, 64, 64, 64, 64, 64, 64, 40, 48, 64, 64, 64, 64, // A J K
    64, 44, 64, 64, 36, 64, 64, 64, 64, 64, 64, 64, 64, 64, 64, 64, // Q T
    64, 0, 64, 64, 64, 64, 64, 64, 64, 64, 40, 48, 64, 64, 64, 64, // a j k
    64, 44, 64, 64, 36, 64, 64, 64, 64, 64, 64, 64, 64, 64, 64, 64, // q t
    64, 64, 64, 64, 64, 64, 64, 64, 64, 64, 64, 64, 64, 64, 64, 64,
    64, 64, 64, 64, 64, 64, 64, 64, 64, 64, 64, 64, 64, 64, 64, 64,
    64, 64, 64, 64, 64, 64, 64, 64, 64, 64, 64, 64, 64, 64, 64, 64,
    64, 64, 64, 64, 64, 64, 64, 64, 64, 64, 64, 64, 64, 64, 64, 64,
    64, 64, 64, 64, 64, 64, 64, 64, 64, 64, 64, 64, 64, 64, 64, 64,
    64, 64, 64, 64, 64, 64, 64, 64, 64, 64, 64, 64, 64, 64, 64, 64,
    64, 64, 64, 64, 64, 64, 64, 64, 64, 64, 64, 64, 64, 64, 64, 64,
    64, 64, 64, 64, 64, 64, 64, 64, 64, 64, 64, 64, 64, 64, 64, 64,
];

/// Numbers of suits by their letters; 64 for all other bytes.
#[rattlefmt::skip]
static SUITS: [u8; 256] = [
    64, 64, 64, 64, 64, 64, 64, 64, 64, 64, 64, 64, 64, 64, 64, 64,
    64, 64, 64, 64, 64, 64, 64, 64, 64, 64, 64, 64, 64, 64, 64, 64,
    64, 64, 64, 64, 64, 64, 64, 64, 64, 64, 64, 64, 64, 64, 64, 64,
    64, 64, 64, 64, 64, 64, 64, 64, 64, 64, 64, 64, 64, 64, 64, 64,
    64, 64, 64, 0, 1, 64, 64, 64, 2, 64, 64, 64, 64, 64, 64, 64, // C D H
    64, 64, 64, 3, 64, 64, 64, 64, 64, 64, 64, 64, 64, 64, 64, 64, // S
    64, 64, 64, 0, 1, 64, 64, 64, 2, 64, 64, 64, 64, 64, 64, 64, // c d h
    64, 64, 64, 3, 64, 64, 64, 64, 64, 64, 64, 64, 64, 64, 64, 64, // s
    64, 64, 64, 64, 64, 64, 64, 64, 64, 64, 64, 64, 64, 64, 64, 64,
    64, 64, 64, 64, 64, 64, 64, 64, 64, 64, 64, 64, 64, 64, 64, 64,
    64, 64, 64, 64, 64, 64, 64, 64, 64, 64, 64, 64, 64, 64, 64, 64,
    64, 64, 64, 64, 64, 64, 64, 64, 64, 64, 64, 64, 64, 64, 64, 64,
    64, 64, 64, 64, 64, 64, 64, 64, 64, 64, 64, 64, 64, 64, 64, 64,
    64, 64, 64, 64, 64, 64, 64, 64, 64, 64, 64, 64, 64, 64, 64, 64,
    64, 64, 64, 64, 64, 64, 64, 64, 64, 64, 64, 64, 64, 64, 64, 64,
    64, 64, 64, 64, 64, 64, 64, 64, 64, 64, 64, 64, 64, 64, 64, 64,
];

/// A foundation that a word names.
#[derive(Clone, Copy)]
pub(crate) struct Foundation {
    /// The number of its suit.
    pub(crate) suit: u8,
    /// How many cards it holds.
    pub(crate) height: Height,
}

/// The card that a rank and a suit of one letter each spell.
pub(crate) fn spelled_card(rank: u8, suit: u8) -> Option<Card>
    ensures { IfSome result (λ card. card_spelled (rank ∷ suit ∷ []) ≡ Some card) }
{
    Card::from_number(clubs_number(rank) + suit_code(suit))
}

/// The number of the card of clubs with the rank that the letter spells; 64 where it spells none.
pub(crate) fn clubs_number(letter: u8) -> u8
    ensures code { result ≡ clubs_number letter }
    ensures within { result ≤ 64 }
{
    CLUBS[usize::from(letter)]
}

fn suit_code(letter: u8) -> u8
    ensures code { result ≡ suit_code letter }
    ensures within { result ≤ 64 }
{
    SUITS[usize::from(letter)]
}

/// The card that a word spells: a rank `A` `2` .. `10` `J` `Q` `K`, where `T` is the ten too and
/// `1` the ace, and then a suit `C` `D` `H` `S`, in either case.
pub fn card_spelled(word: &[u8]) -> Option<Card>
    ensures { result ≡ card_spelled word.now }
{
    if let [rank, suit] = word {
        if let Some(card) = spelled_card(*rank, *suit) {
            return Some(card);
        }
    }
    let (front, back) = word.split_at(word.len().saturating_sub(1));
    let rank = rank_spelled(front)?;
    let suit = suit_spelled(back)?;
    Card::from_number(4 * rank + suit)
}

/// What a word of the cells spells: an empty cell, or a card in one.
pub(crate) fn cell_spelled(word: &[u8]) -> Option<Option<Card>>
    ensures { result ≡ cell_spelled word.now }
{
    if is_empty_mark(word) {
        return Some(None);
    }
    let card = card_spelled(word)?;
    Some(Some(card))
}

/// The foundation that a word spells: a suit of one letter, a dash, and a height.
pub(crate) fn foundation_spelled(word: &[u8]) -> Option<Foundation>
    ensures spelled { result ≡ foundation_spelled word.now }
    ensures of_a_suit { IfSome result (λ foundation. foundation.suit < 4) }
{
    if word.len() < 2 || word[1] != b'-' {
        return None;
    }
    let suit = suit_spelled(&word[..1])?;
    let height = height_spelled(&word[2..])?;
    Some(Foundation { suit, height })
}

/// A height: 0, or the rank that it ends with.
fn height_spelled(word: &[u8]) -> Option<Height>
    ensures { result ≡ height_spelled word.now }
{
    if word == b"0".as_slice() {
        return Height::new(0);
    }
    let rank = rank_spelled(word)?;
    Height::new(rank + 1)
}

/// A rank, counted from 0: its letter, or 10 for the ten and 1 for the ace.
fn rank_spelled(word: &[u8]) -> Option<u8>
    ensures { result ≡ rank_spelled word.now }
{
    match word {
        [letter] => rank_of_letter(*letter),
        [b'1', b'0'] => Some(9),
        _ => None,
    }
}

/// A suit by its number: its letter.
fn suit_spelled(word: &[u8]) -> Option<u8>
    ensures { result ≡ suit_spelled word.now }
{
    match word {
        [letter] => suit_of_letter(*letter),
        _ => None,
    }
}

/// Whether the word is a dash or a star.
fn is_empty_mark(word: &[u8]) -> bool
    ensures { result ≡ is_empty_mark word.now }
{
    word == b"-".as_slice() || word == b"*".as_slice()
}

fn rank_of_letter(letter: u8) -> Option<u8>
    ensures { result ≡ rank_spelled (letter ∷ []) }
{
    let code = clubs_number(letter);
    if code < 52 { Some(code / 4) } else { None }
}

fn suit_of_letter(letter: u8) -> Option<u8>
    ensures { result ≡ suit_spelled (letter ∷ []) }
{
    let suit = suit_code(letter);
    if suit < 4 { Some(suit) } else { None }
}
