//! The layouts in which the lines of a piece may have its cards, and which of them play can make.
//! Which one the lines have is a guess, of which nothing is promised: what they are read as is
//! tested before it is written.
ghost use Rattle.std.specs.Prelude.{All, drop, IsNone, IsTrue};

use crate::labels::LabelKind;
use crate::options::LinesAre;
use crate::piece::{Piece, PieceLine};
use crate::playable::{MOST_DEALT, is_playable};
use crate::scan::{Placed, named_card};
use crate::strips::{Strips, fields_in, has_strips, strip_of, words_in};
use crate::words::Words;
use arrayvec::ArrayVec;
use fc_board::{Board, Height, Rule, no_cards};
use fc_card::Card;

/// How the lines of a piece have its cards.
#[derive(Clone, Copy, PartialEq, Eq, Debug)]
pub(crate) enum Layout {
    /// Each line is a column.
    Columns,
    /// Each line is a row of the columns' cards, which stand in these strips.
    Rows(Strips),
    /// One line has the columns, parted by marks.
    ColumnsInLine,
    /// One line has the cards in the order of dealing.
    Deal,
}

/// What is said of a board in this layout.
pub(crate) fn layout_words(layout: Layout) -> &'static [u8] {
    match layout {
        Layout::Columns => b"these lines are read as columns",
        Layout::Rows(_) => b"the lines of cards are rows, now columns",
        Layout::ColumnsInLine => b"this line is cut into columns at its marks",
        Layout::Deal => b"these cards are dealt in rows of eight, now columns",
    }
}

/// What the lines of a piece are.
#[derive(Drop)]
pub(crate) enum Drafted<R: Rule> {
    Board(Board<R>, Layout),
    /// Two layouts remain.
    Question,
    /// One layout remains, in which play could not have put the cards.
    Unplayable,
    /// In no layout are they a board.
    NoBoard,
}

/// The board that the lines are in one of the layouts that their shape allows.
pub(crate) fn draft_of<R: Rule>(text: &[u8], piece: &Piece, lines_are: LinesAre) -> Drafted<R> {
    let has_labels = has_labels(text, piece);
    let are_lines = piece.rows.len() > 1;
    let may_be_rows = !has_labels && are_short(piece) && (are_lines || lines_are == LinesAre::Rows);
    if !may_be_rows {
        let layout = layout_of_lines(text, piece);
        let is_said = lines_are == LinesAre::Rows && layout == Layout::Columns && !has_labels;
        if is_said || are_lines && has_empty_fields(piece) {
            return Drafted::NoBoard;
        }
        return if_playable(lines_are, board_in(text, piece, layout), layout);
    }
    let may_be_columns = !has_gaps(piece) && is_regular(piece);
    if lines_are == LinesAre::Unsaid && may_be_columns {
        return columns_or_rows(text, piece);
    }
    match (lines_are, rows_of(text, piece)) {
        (LinesAre::Columns, rows) if may_be_columns || !has_gaps(piece) && rows.is_none() => {
            if_playable(
                lines_are,
                board_in(text, piece, Layout::Columns),
                Layout::Columns,
            )
        }
        (LinesAre::Unsaid | LinesAre::Rows, Some((board, layout))) => {
            if_playable(lines_are, Some(board), layout)
        }
        _ => Drafted::NoBoard,
    }
}

// The board that the lines are as columns or as rows.
fn columns_or_rows<R: Rule>(text: &[u8], piece: &Piece) -> Drafted<R> {
    let columns: Option<Board<R>> = board_in(text, piece, Layout::Columns);
    let are_many = piece.rows.len() > MOST_DEALT && !are_full(piece) && !is_parted(piece);
    let rows = if columns.is_some() && are_many {
        None
    } else {
        rows_of(text, piece)
    };
    match (columns, rows) {
        (Some(_), None) if may_be_squeezed(piece) => Drafted::Question,
        (columns, None) => if_playable(LinesAre::Unsaid, columns, Layout::Columns),
        (None, Some((board, layout))) => if_playable(LinesAre::Unsaid, Some(board), layout),
        (Some(columns), Some((rows, layout))) => {
            match (is_playable(&columns), is_playable(&rows)) {
                (true, false) => Drafted::Board(columns, Layout::Columns),
                (false, true) => Drafted::Board(rows, layout),
                (true, true) => Drafted::Question,
                (false, false) => Drafted::Unplayable,
            }
        }
    }
}

// The board of the lines as rows, and the layout that tells under which columns their cards stand.
fn rows_of<R: Rule>(text: &[u8], piece: &Piece) -> Option<(Board<R>, Layout)> {
    let is_regular = is_regular(piece);
    for strips in strips_of(text, piece) {
        let may_tell = match strips {
            Strips::Words { .. } => is_regular,
            Strips::Fields { .. } => true,
            Strips::Bytes { .. } => !is_regular,
        };
        if !may_tell {
            continue;
        }
        let layout = Layout::Rows(strips);
        if let Some(board) = board_in(text, piece, layout) {
            if have_strips(strips, text, piece, &board) {
                return Some((board, layout));
            }
        }
    }
    None
}

// Whether each row with a card has strips of this kind.
fn have_strips<R: Rule>(strips: Strips, text: &[u8], piece: &Piece, board: &Board<R>) -> bool {
    let rows = piece.rows.as_slice();
    rows.iter().all(|row| row.shape.cards == 0 || has_strips(strips, row.of(text), board))
}

// The board, if play can make its columns, or they are said to be columns.
fn if_playable<R: Rule>(
    lines_are: LinesAre,
    board: Option<Board<R>>,
    layout: Layout,
) -> Drafted<R> {
    match board {
        Some(board) if lines_are == LinesAre::Columns || is_playable(&board) => {
            Drafted::Board(board, layout)
        }
        Some(_) => Drafted::Unplayable,
        None => Drafted::NoBoard,
    }
}

// Whether the lines may be rows of which the gaps are left out: less than eight, none longer than
// the one before, and the last one shorter than the first.
fn may_be_squeezed(piece: &Piece) -> bool {
    let first = first_row(piece).len();
    let mut last = first;
    for line in piece.rows.as_slice() {
        let places = piece.placed(line).len();
        if places > last {
            return false;
        }
        last = places;
    }
    piece.rows.len() < 8 && last < first
}

// Whether all lines have as many places as the first.
fn are_full(piece: &Piece) -> bool {
    let most = first_row(piece).len();
    let rows = piece.rows.as_slice();
    rows.iter().all(|line| piece.placed(line).len() == most)
}

// Whether a line of cards has a label, or begins with a colon.
fn has_labels(text: &[u8], piece: &Piece) -> bool {
    let rows = piece.rows.as_slice();
    rows.iter().any(|line| line.shape.label != LabelKind::Bare) || has_colon(text, piece)
}

// Whether a line of cards begins with a colon.
fn has_colon(text: &[u8], piece: &Piece) -> bool {
    let rows = piece.rows.as_slice();
    rows.iter()
        .any(|line| line.of(text).trim_ascii_start().starts_with(b":"))
}

// The layout of lines that are no rows: one of them may have all columns.
fn layout_of_lines(text: &[u8], piece: &Piece) -> Layout {
    let placed = first_row(piece);
    match (placed.first(), placed.last()) {
        _ if piece.rows.len() != 1 || placed.len() <= 13 || has_colon(text, piece) => {
            Layout::Columns
        }
        (Some(first), Some(last)) if first.group < last.group => Layout::ColumnsInLine,
        _ => Layout::Deal,
    }
}

// The cards and gaps of the first line of cards.
fn first_row(piece: &Piece) -> &[Placed] {
    match piece.rows.as_slice() {
        [first, ..] => piece.placed(first),
        [] => &[],
    }
}

// Whether no line has more places than there are columns.
fn are_short(piece: &Piece) -> bool {
    let rows = piece.rows.as_slice();
    rows.iter().all(|line| piece.placed(line).len() <= 8)
}

// Whether a line has a place without a card that is not in front of all lines: columns have no such
// gaps.
fn has_gaps(piece: &Piece) -> bool {
    let (lead, tabs) = least_lead(piece);
    for line in piece.rows.as_slice() {
        let has_marks = line.shape.marks > lead && piece.placed(line).len() > 1;
        if line.shape.gaps > lead || line.shape.tabs > tabs || has_marks {
            return true;
        }
    }
    false
}

// Whether a line has an empty field that is not in front of all lines: columns have none.
fn has_empty_fields(piece: &Piece) -> bool {
    let (lead, _) = least_lead(piece);
    let rows = piece.rows.as_slice();
    rows.iter().any(|line| line.shape.gaps > lead)
}

// How many places without a card all lines of cards begin with, as bullets, and how many tabs.
fn least_lead(piece: &Piece) -> (usize, usize) {
    let (mut lead, mut tabs) = (usize::MAX, usize::MAX);
    for line in piece.rows.as_slice() {
        lead = lead.min(line.shape.lead);
        tabs = tabs.min(line.shape.tabs);
    }
    (lead, tabs)
}

// The board of the piece in this layout, if it is one.
fn board_in<R: Rule>(text: &[u8], piece: &Piece, layout: Layout) -> Option<Board<R>> {
    if piece.held.bad_height.is_some() {
        return None;
    }
    let cells = cells_of::<R>(piece)?;
    let columns = columns_of::<R>(text, piece, layout)?;
    let heights = heights_of(piece)?;
    board_of::<R>(heights, cells, columns)
}

/// The board of the rows of a deal, which have three bytes a card, if no play could have made
/// columns of their lines.
pub(crate) fn read_rows<R: Rule>(lines: &[u8]) -> Option<Board<R>> {
    let mut columns = no_cards();
    let mut before: Option<Card> = None;
    let mut may_be_columns = true;
    for place in 0..52 {
        let at = 3 * place;
        let card = named_card(lines.get(at..at + 2)?)?;
        if let (7, Some(above)) = (place % 8, before) {
            may_be_columns = may_be_columns && R::builds(card, above);
        }
        before = Some(card);
        let _ = columns[place % 8].try_push(card);
    }
    if may_be_columns {
        return None;
    }
    let none = Height::new(0)?;
    board_of::<R>([none; 4], [None; 8], columns)
}

// The board that has these parts, if its cells are the game's and each card is there once.
fn board_of<R: Rule>(
    heights: [Height; 4],
    cells: [Option<Card>; 8],
    columns: [ArrayVec<Card, 52>; 8],
) -> Option<Board<R>> {
    if !has_only_cells_of_game::<R>(&cells) {
        return None;
    }
    Board::from_parts(heights, cells, columns).ok()
}

// Whether no cell that the game has not is taken.
fn has_only_cells_of_game<R: Rule>(cells: &[Option<Card>; 8]) -> bool
    ensures { IsTrue result → All IsNone (drop R.CELLS cells.now) }
{
    let cells = &cells[..];
    are_free(&cells[R::CELLS..])
}

fn are_free(cells: &[Option<Card>]) -> bool
    ensures { IsTrue result → All IsNone cells.now }
{
    cells.iter().all(|cell| cell.is_none())
}

fn heights_of(piece: &Piece) -> Option<[Height; 4]> {
    let [clubs, diamonds, hearts, spades] = piece.held.heights;
    Some([
        Height::new(clubs)?,
        Height::new(diamonds)?,
        Height::new(hearts)?,
        Height::new(spades)?,
    ])
}

// The cells of the piece, by their number in the line. Of two tabs after the name there is an empty
// cell between.
fn cells_of<R: Rule>(piece: &Piece) -> Option<[Option<Card>; 8]> {
    let mut cells = [None; 8];
    let Some(line) = &piece.held.cells else {
        return Some(cells);
    };
    let placed = piece.placed(line);
    let first = line.shape.tabs.saturating_sub(1);
    let places = placed.len().saturating_add(first);
    let narrow = line.shape.lead.saturating_mul(2).saturating_add(1);
    let is_wide = line.shape.indent > narrow || line.shape.most_run > 1;
    if line.shape.others > 0 || places > R::CELLS {
        return None;
    }
    if is_wide && places < R::CELLS && line.shape.bits != 0 && line.shape.tabs == 0 {
        return None;
    }
    for (place, cell) in placed.iter().enumerate() {
        cells[place.saturating_add(first) % 8] = cell.card;
    }
    Some(cells)
}

// The columns that the lines are in the layout. A blank line between columns stands for an empty
// one, if a board has room for all. Else it says nothing if the lines have labels, or as many stand
// between any two.
fn columns_of<R: Rule>(
    text: &[u8],
    piece: &Piece,
    layout: Layout,
) -> Option<[ArrayVec<Card, 52>; 8]> {
    let rows = piece.rows.as_slice();
    let blanks = match rows.last() {
        Some(last) => last.blanks,
        None => 0,
    };
    let has_blanks = layout == Layout::Columns && rows.len().saturating_add(blanks) <= 8;
    let are_apart = !has_blanks || may_have_cells::<R>(piece);
    if are_apart && piece.is_parted() && !has_labels(text, piece) {
        return None;
    }
    let mut columns = no_cards();
    let mut rows_before: usize = 0;
    for line in rows {
        let blanks = if has_blanks { line.blanks } else { 0 };
        let row = rows_before.saturating_add(blanks);
        if !line.may_be_column(row) || line.shape.others > 0 {
            return None;
        }
        match layout {
            Layout::Rows(strips) => put_row_in(strips, line.of(text), row, &mut columns)?,
            _ => put_line(piece.placed(line), layout, row, &mut columns)?,
        }
        let is_row = matches!(layout, Layout::Rows(_));
        rows_before = rows_before.saturating_add(usize::from(line.shape.cards > 0 || !is_row));
    }
    Some(columns)
}

// Whether no line is named as that of the cells, and it may be the first one or the last one, which
// a blank line parts from the others.
fn may_have_cells<R: Rule>(piece: &Piece) -> bool {
    if piece.held.cells.is_some() {
        return false;
    }
    let rows = piece.rows.as_slice();
    let is_short = |line: &PieceLine| line.shape.cards <= R::CELLS;
    match (rows, rows) {
        ([first, second, ..], [.., before, last]) => {
            is_short(first) && second.blanks > 0 || is_short(last) && last.blanks > before.blanks
        }
        _ => false,
    }
}

// Puts the cards of a line on their columns.
fn put_line(
    line: &[Placed],
    layout: Layout,
    row: usize,
    columns: &mut [ArrayVec<Card, 52>; 8],
) -> Option<()> {
    let first = match line.first() {
        Some(placed) => placed.group,
        None => 0,
    };
    for (place, placed) in line.iter().enumerate() {
        let Some(card) = placed.card else {
            continue;
        };
        let index = match layout {
            Layout::ColumnsInLine => usize::from(placed.group.saturating_sub(first)),
            Layout::Deal => place % 8,
            _ => row,
        };
        let column = columns.get_mut(index)?;
        if column.is_full() {
            return None;
        }
        let _ = column.try_push(card);
    }
    Some(())
}

// Puts the cards of a row on the columns in whose strips they are.
fn put_row_in(
    strips: Strips,
    line: &[u8],
    row: usize,
    columns: &mut [ArrayVec<Card, 52>; 8],
) -> Option<()> {
    for word in Words::new(line) {
        let column = columns.get_mut(strip_of(strips, line, &word)?)?;
        if column.len() != row || column.is_full() {
            return None;
        }
        let _ = column.try_push(named_card(word.text)?);
    }
    Some(())
}

// The first row with a card: before it a solver may draw a line of dashes.
fn first_with_cards(piece: &Piece) -> Option<&PieceLine> {
    let rows = piece.rows.as_slice();
    rows.iter().find(|row| row.shape.cards > 0)
}

/// The strips that the rows may have, by the first one: of words, which tell where they are
/// regular, since no blanks are a gap then; of fields; and of bytes, which tell where they are not.
pub(crate) fn strips_of(text: &[u8], piece: &Piece) -> [Strips; 4] {
    let Some(row) = first_with_cards(piece) else {
        return [Strips::Fields { base: 0 }; 4];
    };
    let line = row.of(text);
    let start = match Words::new(line).next() {
        Some(word) => word.start,
        None => 0,
    };
    let before = &line[..start.min(line.len())];
    let words = Strips::Words {
        base: short(words_in(before).saturating_sub(row.shape.lead)),
        count: short(words_in(line)),
    };
    let fields = Strips::Fields {
        base: short(fields_in(before).saturating_sub(row.shape.lead)),
    };
    [words, fields, bytes_of(line, 0), bytes_of(line, 2)]
}

fn short(number: usize) -> u16 {
    number.min(60_000) as u16
}

// The strips from the first card of a row on, as wide as two cards are close: each card begins
// where its strip does, or ends so many bytes on.
fn bytes_of(line: &[u8], len: usize) -> Strips {
    let (mut base, mut unit) = (0, usize::MAX);
    let mut before: Option<usize> = None;
    for word in Words::new(line) {
        let at = match len {
            0 => word.start,
            _ => word.end.saturating_sub(len),
        };
        match before {
            Some(before) => unit = unit.min(at.saturating_sub(before)),
            None => base = at,
        }
        before = Some(at);
    }
    Strips::Bytes {
        base: short(base),
        unit: short(unit),
    }
}

// Whether marks part the cards of each line.
fn is_parted(piece: &Piece) -> bool {
    let rows = piece.rows.as_slice();
    rows.iter().all(|line| line.shape.is_parted)
}

// Whether marks part the words of each line, or the lines begin at one place and have as many
// blanks between any two words, but for one, as a ten may be longer. Else a column could be lost.
fn is_regular(piece: &Piece) -> bool {
    let mut indents = (usize::MAX, 0);
    let mut runs = (usize::MAX, 0);
    for line in piece.rows.as_slice() {
        let (indent, shape) = (line.shape.indent, &line.shape);
        indents = (indents.0.min(indent), indents.1.max(indent));
        runs = (runs.0.min(shape.least_run), runs.1.max(shape.most_run));
    }
    let is_even = indents.1 <= indents.0.saturating_add(1) && runs.1 <= runs.0.saturating_add(1);
    is_even || is_parted(piece)
}
