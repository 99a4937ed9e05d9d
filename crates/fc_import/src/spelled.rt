//! Whether lines spell out a board, and whether that is noted.
ghost use Rattle.std.specs.Prelude.{◌<◌, ◌==◌, ◌↔◌, ◌≡◌, false, IfOk, IsTrue, length};
ghost use Rattle.fc_board.specs.Boards.{IsWellFormed};
ghost use Rattle.fc_text.specs.{Lines.{lines_from}, Printed.{text_of}, Spelling.{Spells}};
ghost use Rattle.fc_import.specs.Import.{BoardNeedsNoNote, HasLines, SpellsOut, stand_together};
ghost use Rattle.fc_import.specs.{Scan.{words_of}, Words.{named_lines}};

use crate::cards::{by_columns, first_card, is_packed};
use crate::labels::fit_their_numbers;
use crate::layout::Layout;
use crate::options::Noted;
use crate::playable::can_be;
use crate::walk::line_feeds;
use crate::words::{Words, uncommented};
use fc_board::{Board, Rule};
use fc_text::{BoardView, Lines, read_board, write_board};
use std::alloc::{AllocError, Global};

// Whether the lines, which name these cards, are those of the cells and the columns of the board.
fn has_lines<R: Rule>(
    alloc: Global,
    lines: &[u8],
    named: &[u8],
    board: &Board<R>,
) -> Result<bool, AllocError>
    requires named { named.now ≡ named_lines lines.now }
    ensures has { IfOk result (λ has. IsTrue has ↔ HasLines lines.now board.now) }
    ensures well_formed { IsWellFormed R.game board.now }
{
    let columns = by_columns(alloc, board)?;
    let are_named = is_equal(named, columns.as_slice()) && is_packed(board);
    Ok(are_named && fit_their_numbers(lines, board) && stand_together(lines))
}

// Whether no line without words comes between two that name cards.
fn stand_together(lines: &[u8]) -> bool
    ensures { result ≡ stand_together false false (lines_from 0 lines.now) }
{
    let (mut is_begun, mut is_parted) = (false, false);
    for line in Lines::new(lines) {
        if first_card(line.text).is_some() {
            if is_parted {
                return false;
            }
            is_begun = true;
        } else {
            is_parted = is_parted || is_begun && has_no_words(line.text);
        }
    }
    true
}

fn has_no_words(line: &[u8]) -> bool
    ensures { result ≡ (length (words_of line.now) == 0) }
{
    Words::new(uncommented(line)).next().is_none()
}

/// Whether `show` reads the lines, which name these cards, as the board, which is known, or they are
/// those of its cells and columns.
pub(crate) fn spells_out<R: Rule>(
    alloc: Global,
    lines: &[u8],
    named: &[u8],
    board: &Board<R>,
    is_shown: bool,
) -> Result<bool, AllocError>
    requires named { named.now ≡ named_lines lines.now }
    requires shown { IsTrue is_shown ↔ Spells R.game lines.now board.now }
    ensures is { IfOk result (λ is. IsTrue is ↔ SpellsOut R.game lines.now board.now) }
    ensures well_formed { IsWellFormed R.game board.now }
{
    if is_shown {
        return Ok(true);
    }
    let has_lines = has_lines(alloc, lines, named, board)?;
    Ok(has_lines)
}

/// Whether `show` reads the lines, which look like this layout, as the board, which may be known:
/// not rows that are fewer than its columns.
pub(crate) fn is_shown<R: Rule>(
    lines: &[u8],
    board: &Board<R>,
    layout: Layout,
    is_known: bool,
) -> bool
    requires { IsTrue is_known → Spells R.game lines.now board.now }
    ensures { IsTrue result ↔ Spells R.game lines.now board.now }
{
    if is_known {
        return true;
    }
    if layout != Layout::Columns && are_too_few(lines, board) {
        return false;
    }
    match read_board::<R>(lines) {
        Ok(read) => is_same(&read, board),
        Err(_) => false,
    }
}

// Whether the lines are fewer than eight, and the last column has a card.
fn are_too_few<R: Rule>(lines: &[u8], board: &Board<R>) -> bool
    ensures { IsTrue result → ¬ Spells R.game lines.now board.now }
{
    // The board has eight columns.
    let _ = board.heights();
    !board.column(7).is_empty() && are_below_eight(lines)
}

// Whether the lines are fewer than eight, by the line feeds before their last byte.
fn are_below_eight(lines: &[u8]) -> bool
    ensures { IsTrue result → length (lines_from 0 lines.now) < 8 }
{
    line_feeds(&lines[..lines.len().saturating_sub(1)]) < 7
}

/// Whether nothing is to be noted of lines that spell out the board.
pub(crate) fn spelled_needs_no_note<R: Rule>(noted: Noted, lines: &[u8], board: &Board<R>) -> bool
    requires { SpellsOut R.game lines.now board.now }
    ensures { IsTrue result ↔ BoardNeedsNoNote noted R.game lines.now board.now }
{
    match noted {
        Noted::Doubts => can_be(lines, board),
        Noted::Changes | Noted::Strict => is_printed(lines, board),
    }
}

// Whether the lines are the board as it is printed.
fn is_printed<R: Rule>(lines: &[u8], board: &Board<R>) -> bool
    ensures { IsTrue result ↔ (lines.now ≡ text_of board.now) }
{
    is_equal(lines, write_board(board).as_slice())
}

/// Whether both boards are one.
pub(crate) fn is_same<R: Rule>(first: &Board<R>, second: &Board<R>) -> bool
    ensures { IsTrue result ↔ (first.now ≡ second.now) }
{
    // Most boards that are not one differ in how many cards their first columns have.
    if first.column(0).len() != second.column(0).len() {
        return false;
    }
    let (first, second) = (BoardView::of(first), BoardView::of(second));
    is_equal(first.text().as_slice(), second.text().as_slice())
}

pub(crate) fn is_equal(first: &[u8], second: &[u8]) -> bool
    ensures { IsTrue result ↔ (first.now ≡ second.now) }
{
    first == second
}
