//! The cards and the moves that words name, and those of a board in the orders in which lines name
//! them.
ghost use Rattle.std.specs.{List.{flat_map}, Option.{option_to_list}, Prelude.{◌++◌, ◌↔◌, ◌≡◌}};
ghost use Rattle.std.specs.Prelude.{◌≢◌, ◌≤◌, ◌⊎◌, [], All, IfOk, IfSome, IsSome, IsTrue, length};
ghost use Rattle.std.specs.Prelude.{List, OnOk, slice_get, true, ℕ};
ghost use Rattle.{fc_board.specs.Boards.{IsWellFormed}, fc_card.specs.{places}};
ghost use Rattle.fc_import.specs.Import.{AreIn, ArePacked, in_cells, in_row, lines_in, lines_of};
ghost use Rattle.fc_import.specs.{inside.{part}, Scan.{named_cards}};
ghost use Rattle.fc_import.specs.{Strips.{are_below, tells_columns}, Words.{ended, named_lines}};
ghost use Rattle.fc_import.specs.declared.layout.Layout.TheVariants.{Columns, ColumnsInLine, Rows};

use crate::layout::Layout;
use crate::marks::ends_column;
use crate::scan::named_card;
use crate::strips::{Strips, has_strips, is_told, strip_if};
use crate::words::{Words, uncommented};
use fc_board::{Board, Rule};
use fc_card::Card;
use fc_text::Lines;
use std::alloc::{AllocError, Global};

/// The end of the cards of a line or a column, which is no card.
const END: u8 = 52;

/// The most cards of a board and ends of its columns and cells. A text may name more.
const MOST: usize = 61;

/// The cards that the lines of a text name, in their order, with an end after those of each line.
pub(crate) fn named_lines(alloc: Global, text: &[u8]) -> Result<Vec<u8>, AllocError>
    ensures { IfOk result (λ cards. cards.items ≡ named_lines text.now) }
{
    let mut cards = Vec::with_capacity(alloc, MOST)?;
    for line in Lines::new(text) {
        let start = cards.len();
        push_named(&mut cards, line.text)?;
        push_end(&mut cards, start, true)?;
    }
    Ok(cards)
}

// Appends the cards that the words of a line name before a comment, in their order.
fn push_named(cards: &mut Vec<u8>, line: &[u8]) -> Result<(), AllocError>
    ensures { OnOk result (cards.new.items ≡ cards.old.items ++ named_cards line.now) }
{
    if line.first() == Some(&b'@') {
        return Ok(());
    }
    for word in Words::new(uncommented(line)) {
        push_some(cards, named_card(word.text))?;
    }
    Ok(())
}

/// The first card that the words of a line name before a comment.
pub(crate) fn first_card(line: &[u8]) -> Option<Card>
    ensures { result ≡ slice_get (named_cards line.now) 0 }
{
    if line.first() == Some(&b'@') {
        return None;
    }
    let text = uncommented(line);
    for word in Words::new(text) {
        if let Some(card) = named_card(word.text) {
            return Some(card);
        }
    }
    None
}

/// The cards that the lines of rows name, in their order, with an end after those of each line, if
/// each that is in no cell stands in the strip of its column.
pub(crate) fn told_lines<R: Rule>(
    alloc: Global,
    strips: Strips,
    lines: &[u8],
    board: &Board<R>,
) -> Result<Option<Vec<u8>>, AllocError>
    ensures named { IfOk result (λ told. IfSome told (λ cards.
        cards.items ≡ named_lines lines.now)) }
    ensures told { IfOk result (λ told. IsSome told
        → tells_columns (Rows strips) lines.now board.now ≡ true) }
{
    let mut cards = Vec::with_capacity(alloc, MOST)?;
    for line in Lines::new(lines) {
        let start = cards.len();
        if !push_told(&mut cards, strips, line.text, board)? {
            return Ok(None);
        }
        push_end(&mut cards, start, true)?;
    }
    Ok(Some(cards))
}

// Appends the cards that the words of a line name, if each that is in no cell stands in the strip
// of its column. Returns whether they do; a header has no strips.
fn push_told<R: Rule>(
    cards: &mut Vec<u8>,
    strips: Strips,
    line: &[u8],
    board: &Board<R>,
) -> Result<bool, AllocError>
    ensures named { IfOk result (λ told. IsTrue told
        → cards.new.items ≡ cards.old.items ++ named_cards line.now) }
    ensures told { IfOk result (λ told. IsTrue told
        → are_below strips board.now line.now ≡ true) }
{
    if line.first() == Some(&b'@') {
        return Ok(false);
    }
    let line = uncommented(line);
    let has_strips = has_strips(strips, line, board);
    for word in Words::new(line) {
        let card = named_card(word.text);
        let strip = strip_if(has_strips, strips, line, &word);
        if !is_told(&card, board, strip) {
            return Ok(false);
        }
        push_some(cards, card)?;
    }
    Ok(true)
}

/// Whether the lines, which name these cards, name those of the board in this layout, and those of
/// the cells in a line before or after them.
pub(crate) fn are_in<R: Rule>(
    alloc: Global,
    layout: Layout,
    piece: &[u8],
    named: &[u8],
    board: &Board<R>,
) -> Result<bool, AllocError>
    requires { named.now ≡ named_lines piece.now }
    ensures { IfOk result (λ are. IsTrue are → AreIn layout piece.now board.now) }
{
    if layout != Layout::ColumnsInLine {
        return have_cards(alloc, layout, named, board);
    }
    let columns = columns_of_line(alloc, piece)?;
    let named = named_lines(alloc, columns.as_slice())?;
    have_cards(alloc, layout, named.as_slice(), board)
}

// Whether these are the cards of the columns as lines name them in this layout, before or after
// those of the cells.
fn have_cards<R: Rule>(
    alloc: Global,
    layout: Layout,
    named: &[u8],
    board: &Board<R>,
) -> Result<bool, AllocError>
    ensures { IfOk result (λ have. IsTrue have
        → (named.now ≡ ended (in_cells board.now) ++ lines_in layout board.now)
        ⊎ (named.now ≡ lines_in layout board.now ++ ended (in_cells board.now))) }
{
    let cells = line_of_cells(alloc, board)?;
    let lines = lines_in(alloc, layout, board)?;
    let (cells, lines) = (cells.as_slice(), lines.as_slice());
    Ok(is_joined(named, cells, lines) || is_joined(named, lines, cells))
}

// The line, with a line feed for each mark that ends a column.
fn columns_of_line(alloc: Global, line: &[u8]) -> Result<Vec<u8>, AllocError>
    ensures { IfOk result (λ lines. lines.items ≡ lines_of ColumnsInLine line.now) }
{
    let bytes = line.iter();
    bytes
        .map(|byte| if ends_column(*byte) { b'\n' } else { *byte })
        .collect(alloc)
}

fn is_joined(whole: &[u8], first: &[u8], second: &[u8]) -> bool
    ensures { IsTrue result → whole.now ≡ first.now ++ second.now }
{
    if whole.len() < first.len() {
        return false;
    }
    let (front, back) = whole.split_at(first.len());
    front == first && back == second
}

/// The cards in the cells, and those of each column, with an end after each.
pub(crate) fn by_columns<R: Rule>(alloc: Global, board: &Board<R>) -> Result<Vec<u8>, AllocError>
    ensures cards { IfOk result (λ cards. cards.items
        ≡ ended (in_cells board.now) ++ lines_in Columns board.now) }
    ensures well_formed { IsWellFormed R.game board.now }
{
    let mut cards = line_of_cells(alloc, board)?;
    push_columns(&mut cards, board)?;
    Ok(cards)
}

// The cards in the cells as a line names them, with an end after them.
fn line_of_cells<R: Rule>(alloc: Global, board: &Board<R>) -> Result<Vec<u8>, AllocError>
    ensures cards { IfOk result (λ cards. cards.items ≡ ended (in_cells board.now)) }
    ensures well_formed { IsWellFormed R.game board.now }
{
    let cells = board.cells();
    let mut cards = Vec::with_capacity(alloc, MOST)?;
    push_cells(&mut cards, cells)?;
    push_end(&mut cards, 0, true)?;
    Ok(cards)
}

fn push_cells(cards: &mut Vec<u8>, cells: &[Option<Card>]) -> Result<(), AllocError>
    ensures { OnOk result
        (cards.new.items ≡ cards.old.items ++ flat_map option_to_list cells.now) }
{
    for cell in cells {
        push_some(cards, *cell)?;
    }
    Ok(())
}

// The cards of the columns as lines name them in this layout, with an end after those of each line.
fn lines_in<R: Rule>(alloc: Global, layout: Layout, board: &Board<R>) -> Result<Vec<u8>, AllocError>
    ensures { IfOk result (λ cards. cards.items ≡ lines_in layout board.now) }
{
    let mut cards = Vec::with_capacity(alloc, MOST)?;
    match layout {
        Layout::Columns | Layout::ColumnsInLine => push_columns(&mut cards, board)?,
        Layout::Rows(_) => push_rows(&mut cards, board, true)?,
        Layout::Deal => {
            push_rows(&mut cards, board, false)?;
            push_end(&mut cards, 0, true)?;
        }
    }
    Ok(cards)
}

// Appends an end if there are cards after the first so many and they are to have one.
fn push_end(cards: &mut Vec<u8>, start: usize, is_ended: bool) -> Result<(), AllocError>
    ensures { (front more : List ℕ) → cards.old.items ≡ front ++ more → start ≡ length front
        → OnOk result (cards.new.items ≡ front ++ part is_ended more) }
{
    if is_ended && cards.len() > start {
        cards.push(END)?;
    }
    Ok(())
}

// Appends the cards of each column, with an end after them.
fn push_columns<R: Rule>(cards: &mut Vec<u8>, board: &Board<R>) -> Result<(), AllocError>
    ensures { OnOk result (cards.new.items
        ≡ cards.old.items ++ flat_map ended board.now.columns) }
{
    // The board has eight columns.
    let _ = board.heights();
    for index in 0..8 {
        push_column(cards, board.column(index))?;
    }
    Ok(())
}

// Appends the numbers of these cards, and then an end if there are any.
fn push_column(all: &mut Vec<u8>, cards: &[Card]) -> Result<(), AllocError>
    ensures { OnOk result (all.new.items ≡ all.old.items ++ ended cards.now) }
{
    for card in cards {
        all.push(card.number())?;
    }
    if !cards.is_empty() {
        all.push(END)?;
    }
    Ok(())
}

// Appends the first card of each column, then the second of each, and so on, each row with an end
// if they are to have one.
fn push_rows<R: Rule>(
    cards: &mut Vec<u8>,
    board: &Board<R>,
    are_ended: bool,
) -> Result<(), AllocError>
    ensures { OnOk result (cards.new.items ≡ cards.old.items
        ++ flat_map (λ row. part are_ended (in_row board.now row)) (places 52)) }
{
    for place in 0..52 {
        if are_past(board, place) {
            return Ok(());
        }
        let start = cards.len();
        push_row(cards, board, place)?;
        push_end(cards, start, are_ended)?;
    }
    Ok(())
}

// Whether no column has a card at this place.
fn are_past<R: Rule>(board: &Board<R>, row: usize) -> bool
    ensures { IsTrue result → All (λ column. length column ≤ row) board.now.columns }
{
    // The board has eight columns.
    let _ = board.heights();
    for index in 0..8 {
        if board.column(index).len() > row {
            return false;
        }
    }
    true
}

// Appends the card of each column at this place, where it has one.
fn push_row<R: Rule>(cards: &mut Vec<u8>, board: &Board<R>, place: usize) -> Result<(), AllocError>
    ensures { OnOk result (cards.new.items ≡ cards.old.items ++ in_row board.now place) }
{
    // The board has eight columns.
    let _ = board.heights();
    for index in 0..8 {
        push_some(cards, card_at(board.column(index), place))?;
    }
    Ok(())
}

fn card_at(column: &[Card], row: usize) -> Option<Card>
    ensures { result ≡ slice_get column.now row }
{
    match column.get(row) {
        Some(card) => Some(*card),
        None => None,
    }
}

fn push_some(cards: &mut Vec<u8>, card: Option<Card>) -> Result<(), AllocError>
    ensures { OnOk result (cards.new.items ≡ cards.old.items ++ option_to_list card) }
{
    if let Some(card) = card {
        cards.push(card.number())?;
    }
    Ok(())
}

/// Whether no column of the board is empty, and no cell before a taken one.
pub(crate) fn is_packed<R: Rule>(board: &Board<R>) -> bool
    ensures { IsTrue result
        ↔ (All (λ column. column ≢ []) board.now.columns × ArePacked board.now.cells) }
{
    has_full_columns(board) && are_packed(board.cells())
}

fn has_full_columns<R: Rule>(board: &Board<R>) -> bool
    ensures { IsTrue result ↔ All (λ column. column ≢ []) board.now.columns }
{
    // The board has eight columns.
    let _ = board.heights();
    for index in 0..8 {
        if board.column(index).is_empty() {
            return false;
        }
    }
    true
}

// Whether no cell before a taken one is empty.
fn are_packed(cells: &[Option<Card>]) -> bool
    ensures { IsTrue result ↔ ArePacked cells.now }
{
    for place in 1..cells.len() {
        if cells[place - 1].is_none() && cells[place].is_some() {
            return false;
        }
    }
    true
}
