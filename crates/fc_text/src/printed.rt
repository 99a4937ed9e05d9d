//! Reading of the printed spelling, and of that alone.
//!
//! A text that is read is the printed one, byte by byte: the heights are printed back and compared,
//! and each card is in its two printed letters.
ghost use Rattle.std.specs.{List.{flat_map}, Prelude.{◌*◌, ◌++◌, ◌+◌, ◌≡◌, ◌≤◌, All, drop, IfSome}};
ghost use Rattle.std.specs.Prelude.{IsNone, IsSome, length, List, Option, slice_index, slice_range};
ghost use Rattle.std.specs.Prelude.{Some, take, true, ℕ};
ghost use Rattle.fc_card.specs.{AreBitsOf, IsCard, Types.{Pile, Text}};
ghost use Rattle.fc_board.specs.Boards.{Board as Layout, IsHeight, IsWellFormed};
ghost use Rattle.fc_board.specs.{inside.{AscendTo, columns_from, size_of}, laws.ListWords.{IsCell}};
ghost use Rattle.fc_text.specs.Printed.{cell_word, cells_line, column_line, foundations_line};
ghost use Rattle.fc_text.specs.Printed.{height_letter, text_of};

use crate::letters::{printed_card, rank_part};
use crate::writer::printed_heights;
use fc_board::{Board, Height, Rule};
use fc_card::{Card, CardSet};

/// The heights of the foundations of C D H S, and the cells, of which those past the game's are
/// empty.
#[derive(Drop)]
struct Front {
    heights: [Height; 4],
    cells: [Option<Card>; 8],
}

/// How many cards lie end to end, and their bits: of the card of number n bit n.
#[derive(Clone, Copy)]
struct Laid {
    count: usize,
    bits: u64,
}

/// The board whose printed text this is, exactly if there is one.
pub fn read_printed<R: Rule>(text: &[u8]) -> Option<Board<R>>
    ensures printed { IfSome result (λ board. text.now ≡ text_of board) }
    ensures well_formed { IfSome result (IsWellFormed R.game) }
    ensures found { (board : Layout) → IsWellFormed R.game board → text.now ≡ text_of board
        → result ≡ Some board }
{
    let mut left = text;
    let board = take_printed(&mut left)?;
    if left.is_empty() { Some(board) } else { None }
}

/// Takes the printed text of a board off the front, exactly if the text begins with one, and
/// returns the board; else the text stays as it is.
#[inline(always)]
pub fn take_printed<R: Rule>(text: &mut &[u8]) -> Option<Board<R>>
    ensures printed { IfSome result (λ board. text.old.now ≡ text_of board ++ text.new.now) }
    ensures well_formed { IfSome result (IsWellFormed R.game) }
    ensures found { (board : Layout) (rest : Text) → IsWellFormed R.game board
        → text.old.now ≡ text_of board ++ rest → result ≡ Some board }
    ensures kept { IsNone result → text.new.now ≡ text.old.now }
{
    let mut left = *text;
    let front = take_named_lines::<R>(&mut left)?;
    let mut cards = [Card::default(); 52];
    let mut ends = [0; 8];
    let bits = take_columns(&mut left, &mut cards, &mut ends)?;
    let in_columns = CardSet::of_bits(&cards[..usize::from(ends[7])], bits);
    match Board::from_laid(front.heights, front.cells, cards, ends, in_columns) {
        Ok(board) => {
            *text = left;
            Some(board)
        }
        Err(_) => None,
    }
}

/// Takes the front off, exactly if the text begins with it; else the text stays as it is.
#[inline(always)]
pub fn strip_prefix<const N: usize>(text: &mut &[u8], front: &[u8; N]) -> Option<()>
    ensures taken { IfSome result (λ _. text.old.now ≡ front.now ++ text.new.now) }
    ensures found { (rest : Text) → text.old.now ≡ front.now ++ rest → IsSome result }
    ensures kept { IsNone result → text.new.now ≡ text.old.now }
{
    let head = text.first_chunk::<N>()?;
    if !are_same(head, front) {
        return None;
    }
    *text = &text[N..];
    Some(())
}

/// Whether the bytes are the same. All are compared, also after one that differs, so that many are
/// compared at once.
#[inline(always)]
fn are_same<const N: usize>(these: &[u8; N], those: &[u8; N]) -> bool
    ensures alike { result ≡ true → these.now ≡ those.now }
    ensures found { these.now ≡ those.now → result ≡ true }
{
    let mut same = true;
    for at in 0..N {
        same &= these[at] == those[at];
    }
    same
}

/// Takes the printed lines of the foundations and of the cells off the front.
#[inline(always)]
fn take_named_lines<R: Rule>(text: &mut &[u8]) -> Option<Front>
    ensures lines { IfSome result (λ front. text.old.now ≡ foundations_line front.heights
        ++ cells_line (take R.CELLS front.cells) ++ text.new.now) }
    ensures outside { IfSome result (λ front. All IsNone (drop R.CELLS front.cells)) }
    ensures within { IfSome result (λ front. All IsHeight front.heights) }
    ensures in_deck { IfSome result (λ front. All IsCell (take R.CELLS front.cells)) }
    ensures found { (board : Layout) (rest : Text) → IsWellFormed R.game board
        → text.old.now ≡ text_of board ++ rest → IsSome result }
{
    if R::CELLS == 4 {
        if let Some(front) = strip_fresh_lines(text) {
            return Some(front);
        }
    }
    let heights = take_heights(text)?;
    let cells = take_cells::<R>(text)?;
    Some(Front { heights, cells })
}

/// The same in a game with four cells, where no card was moved yet: these lines are the same on
/// all deals.
#[inline(always)]
fn strip_fresh_lines(text: &mut &[u8]) -> Option<Front>
    ensures lines { IfSome result (λ front. text.old.now ≡ foundations_line front.heights
        ++ cells_line (take 4 front.cells) ++ text.new.now) }
    ensures outside { IfSome result (λ front. All IsNone (drop 4 front.cells)) }
    ensures within { IfSome result (λ front. All IsHeight front.heights) }
    ensures in_deck { IfSome result (λ front. All IsCell (take 4 front.cells)) }
    ensures kept { IsNone result → text.new.now ≡ text.old.now }
{
    let none = Height::new(0)?;
    let mut after = *text;
    strip_prefix(
        &mut after,
        b"Foundations: H-0 C-0 D-0 S-0\nFreecells: - - - -\n",
    )?;
    *text = after;
    Some(Front {
        heights: [none; 4],
        cells: [None; 8],
    })
}

/// Takes the printed line of the foundations off the front.
#[inline]
fn take_heights(text: &mut &[u8]) -> Option<[Height; 4]>
    ensures line { IfSome result
        (λ heights. text.old.now ≡ foundations_line heights ++ text.new.now) }
    ensures within { IfSome result (All IsHeight) }
    ensures found { (heights : List ℕ) (rest : Text) → length heights ≡ 4 → All IsHeight heights
        → text.old.now ≡ foundations_line heights ++ rest → IsSome result }
{
    if text.len() < 29 || text[0] != b'F' {
        return None;
    }
    let heights = [
        height_guessed(text[19])?,
        height_guessed(text[23])?,
        height_guessed(text[15])?,
        height_guessed(text[27])?,
    ];
    strip_prefix(text, &printed_heights(&heights))?;
    Some(heights)
}

/// The height that the letter may name.
fn height_guessed(letter: u8) -> Option<Height>
    ensures guess { (height : ℕ) → IsHeight height → letter ≡ height_letter height
        → result ≡ Some height }
    ensures within { IfSome result IsHeight }
{
    if letter == b'0' {
        return Height::new(0);
    }
    Height::new(rank_part(letter) / 4 + 1)
}

/// Takes the printed line of the cells off the front; those past the game's are empty.
fn take_cells<R: Rule>(text: &mut &[u8]) -> Option<[Option<Card>; 8]>
    ensures line { IfSome result (λ cells. text.old.now
        ≡ cells_line (take R.CELLS cells) ++ text.new.now) }
    ensures outside { IfSome result (λ cells. All IsNone (drop R.CELLS cells)) }
    ensures in_deck { IfSome result (λ cells. All IsCell (take R.CELLS cells)) }
    ensures found { (cells : List (Option ℕ)) (rest : Text) → length cells ≡ R.CELLS
        → All IsCell cells → text.old.now ≡ cells_line cells ++ rest → IsSome result }
{
    strip_prefix(text, b"Freecells:")?;
    let mut cells = [None; 8];
    for at in 0..R::CELLS {
        cells[at] = take_cell(text)?;
    }
    strip_prefix(text, b"\n")?;
    Some(cells)
}

/// Takes the printed word of a cell off the front.
fn take_cell(text: &mut &[u8]) -> Option<Option<Card>>
    ensures word { IfSome result (λ cell. text.old.now ≡ cell_word cell ++ text.new.now) }
    ensures in_deck { IfSome result IsCell }
    ensures found { (cell : Option ℕ) (rest : Text) → IsCell cell
        → text.old.now ≡ cell_word cell ++ rest → IsSome result }
{
    match *text {
        [b' ', b'-', rest @ ..] => {
            *text = rest;
            Some(None)
        }
        [b' ', rank, suit, rest @ ..] => {
            let card = printed_card(*rank, *suit)?;
            *text = rest;
            Some(Some(card))
        }
        _ => None,
    }
}

/// Takes the printed lines of the columns off the front, lays their cards, writes where each column
/// ends, and returns the bits of the cards. It is a function of its own, and writes to what the
/// caller has, so that its loops have all registers.
#[inline(never)]
fn take_columns(text: &mut &[u8], cards: &mut [Card; 52], ends: &mut [u8; 8]) -> Option<u64>
    ensures lines { IfSome result (λ _. text.old.now
        ≡ flat_map column_line (columns_from 0 cards.new ends.new) ++ text.new.now) }
    ensures ends { IfSome result (λ _. AscendTo 0 ends.new 52) }
    ensures bits { IfSome result (AreBitsOf (take (slice_index ends.new 7) cards.new)) }
    ensures deck { length cards.new ≡ 52 }
    ensures found { (columns : List Pile) (rest : Text) → length columns ≡ 8
        → All (All IsCard) columns → size_of columns ≤ 52
        → text.old.now ≡ flat_map column_line columns ++ rest → IsSome result }
{
    let lines = *text;
    // A line has two bytes, and three for each card.
    let most = (lines.len().checked_sub(16)? / 3).min(52);
    let mut laid = Laid { count: 0, bits: 0 };
    for at in 0..8 {
        laid = read_column(&lines[2 * at..], cards, laid, most)?;
        ends[at] = laid.count as u8;
    }
    *text = &lines[3 * laid.count + 16..];
    Some(laid.bits)
}

/// Reads the printed line of a column after what lies before, lays its cards after these, and
/// returns what lies there then. The text is the one of all columns, without the two bytes of each
/// line before.
fn read_column(text: &[u8], cards: &mut [Card; 52], before: Laid, most: usize) -> Option<Laid>
    requires few { (before.count ≤ most) × (most ≤ 52) }
    requires room { 3 * most + 2 ≤ length text.now }
    ensures end { IfSome result (λ laid. (before.count ≤ laid.count) × (laid.count ≤ most)) }
    ensures deck { length cards.new ≡ 52 }
    ensures before { IfSome result
        (λ laid. take before.count cards.new ≡ take before.count cards.old) }
    ensures line { IfSome result (λ laid. drop (3 * before.count) text.now
        ≡ column_line (slice_range cards.new before.count laid.count)
        ++ drop (3 * laid.count + 2) text.now) }
    ensures bits { IfSome result (λ laid. AreBitsOf (take before.count cards.old) before.bits
        → AreBitsOf (take laid.count cards.new) laid.bits) }
    ensures found { (column : Pile) (rest : Text) → All IsCard column
        → before.count + length column ≤ most
        → drop (3 * before.count) text.now ≡ column_line column ++ rest → IsSome result }
{
    if text[3 * before.count] != b':' {
        return None;
    }
    let Laid {
        mut count,
        mut bits,
    } = before;
    while count < most {
        let [b' ', rank, suit] = &text[3 * count + 1..3 * count + 4] else {
            break;
        };
        let card = printed_card(*rank, *suit)?;
        cards[count] = card;
        bits |= 1 << card.number();
        count += 1;
    }
    if text[3 * count + 1] != b'\n' {
        return None;
    }
    Some(Laid { count, bits })
}
