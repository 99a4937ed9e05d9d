//! The two letters that a card is printed in, read and written.
ghost use Rattle.std.specs.Prelude.{◌++◌, ◌∷◌, ◌≡◌, ◌≤◌, [], IfSome, IsSome, ℕ};
ghost use Rattle.fc_card.specs.{card_text, IsCard};
ghost use Rattle.fc_text.specs.{Bytes.{blank}, Printed.{card_word}, reader.{rank_part, suit_part}};

use fc_card::Card;

/// By the letters of ranks the numbers of the aces, twos and so on of clubs, then by the letters of
/// suits their numbers; 64 for all other bytes. Both tables are one, so that a loop needs one
/// place.
#[rattlefmt::skip]
static PARTS: [[u8; 256]; 2] = [[
    64, 64, 64, 64, 64, 64, 64, 64, 64, 64, 64, 64, 64, 64, 64, 64,
    64, 64, 64, 64, 64, 64, 64, 64, 64, 64, 64, 64, 64, 64, 64, 64,
    64, 64, 64, 64, 64, 64, 64, 64, 64, 64, 64, 64, 64, 64, 64, 64,
    64, 64, 4, 8, 12, 16, 20, 24, 28, 32, 64, 64, 64, 64, 64, 64, // 2 3 4 5 6 7 8 9
    64, 0, 64, 64, 64, 64, 64, 64, 64, 64, 40, 48, 64, 64, 64, 64, // A J K
    64, 44, 64, 64, 36, 64, 64, 64, 64, 64, 64, 64, 64, 64, 64, 64, // Q T
    64, 64, 64, 64, 64, 64, 64, 64, 64, 64, 64, 64, 64, 64, 64, 64,
    64, 64, 64, 64, 64, 64, 64, 64, 64, 64, 64, 64, 64, 64, 64, 64,
    64, 64, 64, 64, 64, 64, 64, 64, 64, 64, 64, 64, 64, 64, 64, 64,
    64, 64, 64, 64, 64, 64, 64, 64, 64, 64, 64, 64, 64, 64, 64, 64,
    64, 64, 64, 64, 64, 64, 64, 64, 64, 64, 64, 64, 64, 64, 64, 64,
    64, 64, 64, 64, 64, 64, 64, 64, 64, 64, 64, 64, 64, 64, 64, 64,
    64, 64, 64, 64, 64, 64, 64, 64, 64, 64, 64, 64, 64, 64, 64, 64,
    64, 64, 64, 64, 64, 64, 64, 64, 64, 64, 64, 64, 64, 64, 64, 64,
    64, 64, 64, 64, 64, 64, 64, 64, 64, 64, 64, 64, 64, 64, 64, 64,
    64, 64, 64, 64, 64, 64, 64, 64, 64, 64, 64, 64, 64, 64, 64, 64,
], [
    64, 64, 64, 64, 64, 64, 64, 64, 64, 64, 64, 64, 64, 64, 64, 64,
    64, 64, 64, 64, 64, 64, 64, 64, 64, 64, 64, 64, 64, 64, 64, 64,
    64, 64, 64, 64, 64, 64, 64, 64, 64, 64, 64, 64, 64, 64, 64, 64,
    64, 64, 64, 64, 64, 64, 64, 64, 64, 64, 64, 64, 64, 64, 64, 64,
    64, 64, 64, 0, 1, 64, 64, 64, 2, 64, 64, 64, 64, 64, 64, 64, // C D H
    64, 64, 64, 3, 64, 64, 64, 64, 64, 64, 64, 64, 64, 64, 64, 64, // S
    64, 64, 64, 64, 64, 64, 64, 64, 64, 64, 64, 64, 64, 64, 64, 64,
    64, 64, 64, 64, 64, 64, 64, 64, 64, 64, 64, 64, 64, 64, 64, 64,
    64, 64, 64, 64, 64, 64, 64, 64, 64, 64, 64, 64, 64, 64, 64, 64,
    64, 64, 64, 64, 64, 64, 64, 64, 64, 64, 64, 64, 64, 64, 64, 64,
    64, 64, 64, 64, 64, 64, 64, 64, 64, 64, 64, 64, 64, 64, 64, 64,
    64, 64, 64, 64, 64, 64, 64, 64, 64, 64, 64, 64, 64, 64, 64, 64,
    64, 64, 64, 64, 64, 64, 64, 64, 64, 64, 64, 64, 64, 64, 64, 64,
    64, 64, 64, 64, 64, 64, 64, 64, 64, 64, 64, 64, 64, 64, 64, 64,
    64, 64, 64, 64, 64, 64, 64, 64, 64, 64, 64, 64, 64, 64, 64, 64,
    64, 64, 64, 64, 64, 64, 64, 64, 64, 64, 64, 64, 64, 64, 64, 64,
]];

/// The printed words of the cards by number, each with the blank before it and one after it.
#[rattlefmt::skip]
static WORDS: [[u8; 4]; 52] = [
    *b" AC ", *b" AD ", *b" AH ", *b" AS ",
    *b" 2C ", *b" 2D ", *b" 2H ", *b" 2S ",
    *b" 3C ", *b" 3D ", *b" 3H ", *b" 3S ",
    *b" 4C ", *b" 4D ", *b" 4H ", *b" 4S ",
    *b" 5C ", *b" 5D ", *b" 5H ", *b" 5S ",
    *b" 6C ", *b" 6D ", *b" 6H ", *b" 6S ",
    *b" 7C ", *b" 7D ", *b" 7H ", *b" 7S ",
    *b" 8C ", *b" 8D ", *b" 8H ", *b" 8S ",
    *b" 9C ", *b" 9D ", *b" 9H ", *b" 9S ",
    *b" TC ", *b" TD ", *b" TH ", *b" TS ",
    *b" JC ", *b" JD ", *b" JH ", *b" JS ",
    *b" QC ", *b" QD ", *b" QH ", *b" QS ",
    *b" KC ", *b" KD ", *b" KH ", *b" KS ",
];

/// The card that is printed in these letters.
pub(crate) fn printed_card(rank: u8, suit: u8) -> Option<Card>
    ensures letters { IfSome result (λ card. card_text card ≡ rank ∷ suit ∷ []) }
    ensures in_deck { IfSome result IsCard }
    ensures found { (card : ℕ) → IsCard card → card_text card ≡ rank ∷ suit ∷ []
        → IsSome result }
{
    Card::from_number(rank_part(rank) + suit_part(suit))
}

pub(crate) fn rank_part(letter: u8) -> u8
    ensures part { result ≡ rank_part letter }
    ensures within { result ≤ 64 }
{
    PARTS[0][usize::from(letter)]
}

fn suit_part(letter: u8) -> u8
    ensures part { result ≡ suit_part letter }
    ensures within { result ≤ 64 }
{
    PARTS[1][usize::from(letter)]
}

/// The printed word of the card, and a blank.
pub(crate) fn word_and_blank(card: Card) -> [u8; 4]
    ensures { result ≡ card_word card ++ blank ∷ [] }
{
    WORDS[usize::from(card.number())]
}
