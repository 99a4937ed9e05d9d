//! Boards in 72 bytes.
ghost use Rattle.std.specs.{List.{flat_map, sum}, Prelude.{◌%◌, ◌*◌, ◌++◌, ◌+◌, ◌<◌, ◌^◌, ◌↔◌}};
ghost use Rattle.std.specs.Prelude.{◌≡◌, ◌≤◌, All, drop, IfSome, IsNone, IsTrue, length, List, map};
ghost use Rattle.std.specs.Prelude.{SomeIff, take, ℕ};
ghost use Rattle.fc_card.specs.{AreBitsOf, places};
ghost use Rattle.fc_board.specs.Boards.{Board as Layout, IsHeight, IsWellFormed};
ghost use Rattle.fc_board.specs.{inside.{AscendTo}, Steps.{cell_at, column_at, height_of}};
ghost use Rattle.fc_bytes.specs.{cell_byte, HoldsBoard, inside.{AreLaid, card_byte, card_decoded}};
ghost use Rattle.fc_bytes.specs.{inside.{cell_decoded, ends_decoded, IsExact}, padded};

use crate::laid::{bytes_before, bytes_of_laid, lengths_between};
use fc_board::{Board, Height, Rule};
use fc_card::{Card, CardSet, Suit};

/// The places of the cards.
#[rattlefmt::skip]
static PLACES: [u8; 52] = [
    0, 1, 2, 3, 4, 5, 6, 7, 8, 9, 10, 11, 12, 13, 14, 15, 16, 17, 18, 19, 20, 21, 22, 23, 24, 25,
    26, 27, 28, 29, 30, 31, 32, 33, 34, 35, 36, 37, 38, 39, 40, 41, 42, 43, 44, 45, 46, 47, 48, 49,
    50, 51,
];

/// A board in 72 bytes.
///
/// The heights of C, D, H and S, the cards in the cells, how many cards each column has, and the
/// cards of the columns one after another, the last card of a column last. A card is one more than
/// its number, 1 to 52. Cells past the game's, empty cells, and all after the last card are 0.
#[repr(C)]
#[derive(Clone, Copy, PartialEq, Eq)]
pub struct BoardBytes {
    /// How many cards are on the foundations of C, D, H and S.
    pub heights: [u8; 4],
    /// The cards in the cells.
    pub cells: [u8; 8],
    /// How many cards each column has.
    pub lengths: [u8; 8],
    /// The cards of the columns.
    pub cards: [u8; 52],
}

impl BoardBytes {
    /// The bytes of the board.
    pub fn of<R: Rule>(board: &Board<R>) -> BoardBytes
        ensures { HoldsBoard R.game result board.now }
    {
        let (lengths, cards) = column_bytes(board);
        BoardBytes {
            heights: height_bytes(board),
            cells: cell_bytes(board),
            lengths,
            cards,
        }
    }

    /// The board of `R` that the bytes hold, or `None` where they hold none.
    pub fn board<R: Rule>(&self) -> Option<Board<R>>
        ensures board { IfSome result (HoldsBoard R.game self.now) }
        ensures no_board { IsNone result → (board : Layout) → ¬ HoldsBoard R.game self.now board }
    {
        if !is_exact(self) {
            return None;
        }
        if !are_zero(&self.cells, R::CELLS) {
            return None;
        }
        let heights = heights_of(&self.heights)?;
        let cells = cells_of(&self.cells);
        let cards = cards_of(&self.cards);
        let ends = ends_of(&self.lengths);
        let bits = bits_of(&self.cards);
        let in_columns = CardSet::of_bits(&cards[..usize::from(ends[7])], bits);
        let Ok(board) = Board::from_laid(heights, cells, cards, ends, in_columns) else {
            return None;
        };
        Some(board)
    }

    /// The board of `R` that the bytes are known to hold, without a test.
    pub fn known_board<R: Rule>(&self) -> Board<R>
        requires { (board : Layout) × HoldsBoard R.game self.now board }
        ensures { HoldsBoard R.game self.now result }
    {
        let Some(heights) = heights_of(&self.heights) else {
            unreachable!();
        };
        let cells = cells_of(&self.cells);
        let cards = cards_of(&self.cards);
        Board::of_laid(heights, cells, cards, ends_of(&self.lengths))
    }
}

fn height_bytes<R: Rule>(board: &Board<R>) -> [u8; 4]
    ensures bytes { result ≡ map (height_of board.now) (places 4) }
    ensures well_formed { IsWellFormed R.game board.now }
{
    [
        board.foundation(Suit::C).get(),
        board.foundation(Suit::D).get(),
        board.foundation(Suit::H).get(),
        board.foundation(Suit::S).get(),
    ]
}

fn cell_bytes<R: Rule>(board: &Board<R>) -> [u8; 8]
    requires { IsWellFormed R.game board.now }
    ensures { result ≡ map (λ cell. cell_byte (cell_at board.now cell)) (places 8) }
{
    [
        cell_byte(board, 0),
        cell_byte(board, 1),
        cell_byte(board, 2),
        cell_byte(board, 3),
        cell_byte(board, 4),
        cell_byte(board, 5),
        cell_byte(board, 6),
        cell_byte(board, 7),
    ]
}

fn cell_byte<R: Rule>(board: &Board<R>, place: usize) -> u8
    requires { IsWellFormed R.game board.now }
    ensures { result ≡ cell_byte (cell_at board.now place) }
{
    if place >= R::CELLS {
        return 0;
    }
    match board.cell(place) {
        Some(card) => card.number() + 1,
        None => 0,
    }
}

/// How many cards each column has, and the cards.
fn column_bytes<R: Rule>(board: &Board<R>) -> ([u8; 8], [u8; 52])
    ensures lengths { result.0 ≡ map length board.now.columns }
    ensures cards { result.1 ≡ padded 52 (flat_map (map card_byte) board.now.columns) }
{
    let (cards, bounds) = board.laid();
    let bytes = bytes_of_laid(cards);
    (lengths_between(bounds), bytes_before(&bytes, bounds[8]))
}

/// Whether each byte of cells and columns is the code of what is read of it.
fn is_exact(bytes: &BoardBytes) -> bool
    ensures { IsTrue result ↔ IsExact bytes.now }
{
    let total = total_of(&bytes.lengths);
    total <= 52 && are_cells(&bytes.cells) && are_laid(&bytes.cards, total as u8)
}

/// How many cards the columns have.
fn total_of(lengths: &[u8; 8]) -> usize
    ensures { result ≡ sum lengths.now }
{
    let [a, b, c, d, e, f, g, h] = *lengths;
    usize::from(a)
        + (usize::from(b)
            + (usize::from(c)
                + (usize::from(d)
                    + (usize::from(e) + (usize::from(f) + (usize::from(g) + usize::from(h)))))))
}

/// Whether each byte is 0 or that of a card.
fn are_cells(bytes: &[u8; 8]) -> bool
    ensures { IsTrue result ↔ All (λ byte. byte ≤ 52) bytes.now }
{
    let mut good = true;
    for place in 0..8 {
        good &= bytes[place] <= 52;
    }
    good
}

/// Whether so many bytes are those of cards, and 0 comes after them. All are looked at, so that
/// many are compared at once.
fn are_laid(bytes: &[u8; 52], total: u8) -> bool
    ensures { IsTrue result ↔ AreLaid total bytes.now }
{
    let mut laid = true;
    for place in 0..52 {
        laid &= is_laid(bytes[place], place_as_byte(place) < total);
    }
    laid
}

/// The place as a byte, from a table. The compiler compares a place that is counted as a wide
/// number, and so fewer places at once.
pub(crate) fn place_as_byte(place: usize) -> u8
    requires { place < 52 }
    ensures { result ≡ place }
{
    PLACES[place]
}

fn is_laid(byte: u8, is_card: bool) -> bool
    ensures { IsTrue result ↔ (byte ≤ 52) × (IsTrue is_card ↔ 0 < byte) }
{
    (byte <= 52) & ((byte != 0) == is_card)
}

fn cells_of(bytes: &[u8; 8]) -> [Option<Card>; 8]
    requires { All (λ byte. byte ≤ 52) bytes.now }
    ensures cells { result ≡ map cell_decoded bytes.now }
    ensures size { length result ≡ 8 }
{
    let [a, b, c, d, e, f, g, h] = *bytes;
    [
        cell_of(a),
        cell_of(b),
        cell_of(c),
        cell_of(d),
        cell_of(e),
        cell_of(f),
        cell_of(g),
        cell_of(h),
    ]
}

/// Whether the bytes from this place on are 0.
pub(crate) fn are_zero(bytes: &[u8], first: usize) -> bool
    requires { first ≤ length bytes.now }
    ensures { IsTrue result ↔ All (λ byte. byte ≡ 0) (drop first bytes.now) }
{
    bytes[first..].iter().all(|byte| *byte == 0)
}

fn heights_of(bytes: &[u8; 4]) -> Option<[Height; 4]>
    ensures { SomeIff result (All IsHeight bytes.now) bytes.now }
{
    let [clubs, diamonds, hearts, spades] = *bytes;
    Some([
        Height::new(clubs)?,
        Height::new(diamonds)?,
        Height::new(hearts)?,
        Height::new(spades)?,
    ])
}

/// The card that the byte is, or `None` for 0.
fn cell_of(byte: u8) -> Option<Card>
    requires { byte ≤ 52 }
    ensures { result ≡ cell_decoded byte }
{
    if byte == 0 {
        None
    } else {
        Some(Card::of_number(byte - 1))
    }
}

/// The cards that the bytes are; 0, which is no card, is read as AC.
fn cards_of(bytes: &[u8; 52]) -> [Card; 52]
    requires { All (λ byte. byte ≤ 52) bytes.now }
    ensures cards { result ≡ map card_decoded bytes.now }
    ensures size { length result ≡ 52 }
{
    let mut cards = [Card::default(); 52];
    for at in 0..52 {
        cards[at] = card_of(bytes[at]);
    }
    cards
}

fn card_of(byte: u8) -> Card
    requires { byte ≤ 52 }
    ensures { result ≡ card_decoded byte }
{
    Card::of_number(byte.saturating_sub(1))
}

/// The bits of the cards that the bytes are, of the card of number n bit n. All bytes are looked
/// at, so that no end is.
#[inline(always)]
fn bits_of(bytes: &[u8; 52]) -> u64
    requires { All (λ byte. byte ≤ 52) bytes.now }
    ensures { (total : ℕ) (cards : List ℕ) → AreLaid total bytes.now → total ≤ 52
        → cards ≡ map card_decoded bytes.now → AreBitsOf (take total cards) result }
{
    let mut bits = 0;
    for place in 0..52 {
        bits |= bit_of(bytes[place]);
    }
    bits
}

/// The bit of the card that the byte is, and none for 0.
#[inline(always)]
fn bit_of(byte: u8) -> u64
    requires { byte ≤ 52 }
    ensures card { (card : ℕ) → byte ≡ card + 1 → result ≡ 1 * 2 ^ card % 2 ^ 64 }
    ensures none { byte ≡ 0 → result ≡ 0 }
{
    (1_u64 << byte) >> 1
}

/// Where columns of so many cards each end, one after another. The product makes of each byte the
/// sum of those up to it, and none of these is too much for a byte.
fn ends_of(lengths: &[u8; 8]) -> [u8; 8]
    requires { sum lengths.now ≤ 52 }
    ensures ends { result ≡ ends_decoded 0 lengths.now }
    ensures ascend { AscendTo 0 result 52 }
{
    let all = u64::from_le_bytes(*lengths);
    all.wrapping_mul(0x0101_0101_0101_0101).to_le_bytes()
}
