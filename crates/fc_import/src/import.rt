//! Importing a text, piece by piece. What the lines look like is a guess, of which nothing is
//! promised; what is made of them is tested before it is written.
ghost use Rattle.std.specs.Prelude.{◌<◌, ◌≡◌, [], false, IfOk, IfSome, IsTrue, length, None, OnOk};
ghost use Rattle.std.specs.Prelude.{Some, take, true};
ghost use Rattle.fc_text.specs.Spelling.{Spells};
ghost use Rattle.fc_record.specs.{Grammar.{begins_with}, RecordTexts.{header_mark}};
ghost use Rattle.fc_import.specs.{Import.{HasNoHeader, IsPrinted}, inside.{AreWhole, IsMade}};
ghost use Rattle.fc_import.specs.inside.{KeepsFirst, Takes, TakesFirst, TakesName};

use crate::layout::{Drafted, Layout, draft_of, read_rows, strips_of};
use crate::line::line_len;
use crate::lists::{ListRead, moves_on};
use crate::made::{Form, Made};
use crate::options::{ImportOptions, LinesAre};
use crate::piece::{FIRST_RULE, Piece, PieceKind, SOLVED};
use crate::reasons::{NO_CARD, board_reason, move_reason, word_reason};
use crate::spelled::is_same;
use crate::strips::Strips;
use crate::titles::{title_of, variant_titled};
use fc_board::{Board, Rule};
use fc_text::{BoardFault, Lines, read_board};
use std::alloc::{AllocError, Global};

const LEFT_OUT: &[u8] = b"this line is left out, though a word of it names a card";

const NO_BOARD: &[u8] = b"not imported: these cards are no board";

const NO_BOARD_BEFORE: &[u8] = b"not imported: there is no board before these moves";

const NO_LIST: &[u8] = b"not imported: these are more moves than a list has";

const NO_MOVES: &[u8] =
    b"not imported: this solution has no moves: take what fc-solve -m -snx prints";

const NO_MOVE: &[u8] =
    b" is no move: write the moves of a solution alone, or # and a blank before a line of words";

const NO_LABEL: &[u8] =
    b" is no name or number of this line: write Freecells: or Foundations:, or leave it out";

const NO_HEIGHT: &[u8] = b" is no foundation: write a suit, - and 0 or the rank on top, as H-4";

const OTHER_HEADER: &[u8] =
    b"not imported: the header names another game: import it with --variant";

const OTHER_TITLE: &[u8] = b"not imported: the title names another game: import it with --variant";

const PARTED: &[u8] =
    b"not imported: a blank line parts these: write - for an empty column, Freecells: before cells";

const QUESTION: &[u8] =
    b"not imported: these may be columns or rows: say which, with --columns or --rows";

const UNPLAYABLE: &[u8] =
    b"not imported: no play leads to these columns: write each in a line of its own, or say --columns";

const UNTOLD: &[u8] =
    b"not imported: it is not told where columns end: write each column in a line of its own";

const OTHER_CARDS: &[u8] = b"not imported: a word outside the columns and the cells names a card";

const REWRITTEN: &[u8] = b"these moves are rewritten in fcanon's notation";

/// How many bytes a deal has in lines of cards: two for each card, and one after it.
const DEAL_LEN: usize = 52 * 3;

const DEALT: Strips = Strips::Bytes { base: 0, unit: 3 };

/// How much of a solution was there that has no move yet.
#[derive(Clone, Copy)]
enum Solution {
    Nothing,
    /// The rule before it.
    Rule,
    /// Its first board.
    Board,
}

/// A text as it is imported.
#[derive(Drop)]
struct Importer<R: Rule> {
    made: Made<R>,
    /// The words of the last title, as the name of the next board.
    title: Vec<u8>,
    solution: Solution,
    /// Whether the last title that names a game names another one.
    is_titled_otherwise: bool,
}

/// What is written and said of a text.
pub(crate) fn import_text<R: Rule>(
    alloc: Global,
    options: ImportOptions,
    text: &[u8],
) -> Result<Made<R>, AllocError>
    ensures made { IfOk result (IsMade R.VARIANT options R.game text.now) }
    ensures kept { IsPrinted R.VARIANT R.game None text.now → IfOk result
        (λ made. (made.written.items ≡ text.now) × (made.notes.items ≡ [])) }
{
    let mut importer = Importer {
        made: Made::new(alloc, options),
        title: Vec::new(alloc),
        solution: Solution::Nothing,
        is_titled_otherwise: false,
    };
    let mut piece = Piece::new(alloc);
    let mut at = 0;
    while at < text.len() {
        let len = importer.take_first(&text[at..], &mut piece)?;
        at += len;
    }
    Ok(importer.made)
}

impl<R: Rule> Importer<R> {
    // Takes what is at the front of the text, and returns how many bytes it has.
    fn take_first(&mut self, text: &[u8], piece: &mut Piece) -> Result<usize, AllocError>
        requires { 0 < length text.now }
        ensures takes { IfOk result (λ len. TakesFirst R.VARIANT R.game text.now len
            self.old.made self.new.made) }
        ensures kept { IsPrinted R.VARIANT R.game self.old.made.last text.now → IfOk result
            (λ len. KeepsFirst R.VARIANT R.game text.now len self.old.made self.new.made) }
    {
        if let Some(len) = self.made.take_printed(text)? {
            self.solution = Solution::Nothing;
            if text[0] == b'@' {
                self.forget_title();
            }
            return Ok(len);
        }
        self.take_other(text, piece)
    }

    // Forgets the title, where a header comes.
    fn forget_title(&mut self)
        ensures { self.new.made ≡ self.old.made }
    {
        self.title.clear();
        self.is_titled_otherwise = false;
    }

    // Takes the header or the piece at the front of the text, and returns how many bytes it has.
    fn take_other(&mut self, text: &[u8], piece: &mut Piece) -> Result<usize, AllocError>
        requires { 0 < length text.now }
        ensures { IfOk result (λ len. TakesFirst R.VARIANT R.game text.now len
            self.old.made self.new.made) }
    {
        if text[0] != b'@' {
            return self.take_next(text, piece);
        }
        let len = line_len(text);
        self.take_header(&text[..len])?;
        Ok(len)
    }

    // Takes the piece at the front of the text, and returns how many bytes it has.
    fn take_next(&mut self, text: &[u8], piece: &mut Piece) -> Result<usize, AllocError>
        requires some { 0 < length text.now }
        requires no_header { begins_with header_mark text.now ≡ false }
        ensures lines { IfOk result (AreWhole text.now) }
        ensures no_header { IfOk result (λ len. HasNoHeader (take len text.now)) }
        ensures takes { IfOk result (λ len. Takes R.VARIANT R.game (take len text.now)
            self.old.made self.new.made) }
    {
        if let Some(layout) = deal_layout(text) {
            let len = lines_len(text, DEAL_LEN);
            if self.take_deal(&text[..len], layout)? {
                return Ok(len);
            }
        }
        let kind = self.look_at(text, piece)?;
        let least = self.least_len(text, kind, piece);
        let len = lines_len(text, least);
        self.take_piece(&text[..len], kind, piece)?;
        Ok(len)
    }

    // What the text begins with, and reads that. A number alone is a move where a solution begins.
    fn look_at(&self, text: &[u8], piece: &mut Piece) -> Result<PieceKind, AllocError> {
        let kind = piece.read::<R>(text)?;
        if kind == PieceKind::Prose && piece.held.is_number && self.ends_without_moves() {
            piece.go_on_with_moves::<R>(text)?;
            return Ok(PieceKind::Moves);
        }
        Ok(kind)
    }

    // How many bytes the piece has, as far as is known: of a solution of boards alone, all.
    fn least_len(&self, text: &[u8], kind: PieceKind, piece: &Piece) -> usize {
        if kind == PieceKind::Board && self.goes_on_with_boards() {
            boards_len(text)
        } else {
            piece.held.len
        }
    }

    // Whether the next board is the second one of a solution.
    fn goes_on_with_boards(&self) -> bool {
        matches!(self.solution, Solution::Board) && self.made.last.is_some()
    }

    // Takes the piece as what it looks like.
    fn take_piece(&mut self, lines: &[u8], kind: PieceKind, piece: &Piece) -> Result<(), AllocError>
        ensures { OnOk result (Takes R.VARIANT R.game lines.now self.old.made self.new.made) }
    {
        match kind {
            PieceKind::Prose => self.take_prose(lines),
            PieceKind::Board if self.goes_on_with_boards() => {
                self.solution = Solution::Nothing;
                self.refuse(lines, NO_MOVES)
            }
            PieceKind::Board => self.take_lines(lines, piece),
            PieceKind::Moves => self.take_moves(lines, piece),
        }
    }

    // Takes a deal whose lines are in this layout and, by the rules, in no other. Returns whether
    // they are.
    fn take_deal(&mut self, lines: &[u8], layout: Layout) -> Result<bool, AllocError>
        ensures taken { IfOk result (λ taken. IsTrue taken
            → Takes R.VARIANT R.game lines.now self.old.made self.new.made) }
        ensures kept { IfOk result (λ taken. taken ≡ false → self.new.made ≡ self.old.made) }
    {
        if self.goes_on_with_boards() || self.is_titled_otherwise || self.made.other_game {
            return Ok(false);
        }
        match (layout, self.made.options.lines_are) {
            (Layout::Columns, LinesAre::Unsaid | LinesAre::Columns) => {
                match read_columns::<R>(lines) {
                    Some(board) => self.take_read(lines, board, layout, true)?,
                    None => return Ok(false),
                }
            }
            (Layout::Rows(_), LinesAre::Unsaid | LinesAre::Rows) => match read_rows::<R>(lines) {
                Some(board) => self.take_read(lines, board, layout, false)?,
                None => return Ok(false),
            },
            _ => return Ok(false),
        }
        Ok(true)
    }

    // Takes a header: the name of the boards up to the next one.
    fn take_header(&mut self, line: &[u8]) -> Result<(), AllocError>
        ensures { OnOk result (TakesName R.VARIANT line.now self.old.made self.new.made) }
    {
        self.solution = Solution::Nothing;
        self.forget_title();
        self.made.take_name(line)
    }

    // Takes a line that is no board's and no list's: the title of the next board. If it names
    // cards, that is said.
    fn take_prose(&mut self, piece: &[u8]) -> Result<(), AllocError>
        ensures { OnOk result (Takes R.VARIANT R.game piece.now self.old.made self.new.made) }
    {
        if piece.starts_with(SOLVED) && self.ends_without_moves() {
            return self.take_no_moves(piece);
        }
        self.look_at_title(piece)?;
        if self.made.pass(piece)? {
            return Ok(());
        }
        if self.made.leave_out(piece, LEFT_OUT)? {
            return Ok(());
        }
        self.made.refuse_board(piece, 0, NO_BOARD)
    }

    // What the line says of the boards after it.
    fn look_at_title(&mut self, line: &[u8]) -> Result<(), AllocError>
        ensures { self.new.made ≡ self.old.made }
    {
        if line.starts_with(FIRST_RULE) {
            self.solution = Solution::Rule;
        }
        if line.trim_ascii().is_empty() {
            return Ok(());
        }
        self.title = title_of(self.made.alloc, line)?;
        if let (Some(variant), false) = (variant_titled(line), self.made.is_named()) {
            self.is_titled_otherwise = variant != R::VARIANT;
        }
        Ok(())
    }

    // Takes lines as a board, or refuses them.
    fn take_lines(&mut self, lines: &[u8], piece: &Piece) -> Result<(), AllocError>
        ensures { OnOk result (Takes R.VARIANT R.game lines.now self.old.made self.new.made) }
    {
        if self.made.other_game {
            return self.refuse(lines, OTHER_HEADER);
        }
        if self.is_titled_otherwise {
            return self.refuse(lines, OTHER_TITLE);
        }
        match draft_of::<R>(lines, piece, self.made.options.lines_are) {
            Drafted::Board(board, layout) => self.take_read(lines, board, layout, false),
            Drafted::Question => self.refuse(lines, QUESTION),
            Drafted::Unplayable => self.refuse(lines, UNPLAYABLE),
            Drafted::NoBoard => self.take_no_board(lines, piece),
        }
    }

    // Takes lines that are a board in no layout as the last one, which a solver draws where its
    // solution begins; or refuses them, at the first word that has no place there.
    fn take_no_board(&mut self, lines: &[u8], piece: &Piece) -> Result<(), AllocError>
        ensures { OnOk result (Takes R.VARIANT R.game lines.now self.old.made self.new.made) }
    {
        if matches!(self.solution, Solution::Rule) && self.is_drawn_again(lines, piece)? {
            self.solution = Solution::Board;
            return Ok(());
        }
        match (first_misplaced(piece), read_board::<R>(lines)) {
            (Some((at, words)), _) => self.refuse_word(lines, at, words),
            _ if piece.is_whole() && piece.is_parted() => self.refuse(lines, PARTED),
            (None, Ok(_)) => self.refuse(lines, NO_BOARD),
            (None, Err(fault)) => self.refuse_fault(lines, fault),
        }
    }

    // Passes lines that are the last board once more, in rows or in columns, as a solver draws it.
    // Returns whether they are.
    fn is_drawn_again(&mut self, lines: &[u8], piece: &Piece) -> Result<bool, AllocError>
        ensures taken { IfOk result (λ taken. IsTrue taken
            → Takes R.VARIANT R.game lines.now self.old.made self.new.made) }
        ensures kept { IfOk result (λ taken. taken ≡ false → self.new.made ≡ self.old.made) }
    {
        for strips in strips_of(lines, piece) {
            if self.made.see_again(lines, Layout::Rows(strips))? {
                return Ok(true);
            }
        }
        self.made.see_again(lines, Layout::Columns)
    }

    // Refuses a board for the word at this place.
    fn refuse_word(&mut self, lines: &[u8], at: usize, words: &[u8]) -> Result<(), AllocError>
        ensures { OnOk result (Takes R.VARIANT R.game lines.now self.old.made self.new.made) }
    {
        let words = word_reason(self.made.alloc, lines, at, words)?;
        self.title.clear();
        self.made.refuse_board(lines, at, words.as_slice())
    }

    // Takes a board that the lines are read as in this layout, which may be known to be columns that
    // `show` reads so, unless a solution begins with it that belongs to the last board.
    fn take_read(
        &mut self,
        piece: &[u8],
        board: Board<R>,
        layout: Layout,
        is_known: bool,
    ) -> Result<(), AllocError>
        requires { IsTrue is_known → Spells R.game piece.now board }
        ensures { OnOk result (Takes R.VARIANT R.game piece.now self.old.made self.new.made) }
    {
        if self.is_again(&board) && self.made.see_again(piece, layout)? {
            return Ok(());
        }
        let title = self.title.as_slice();
        if self.made.put_read(piece, title, board, layout, is_known)? {
            self.title.clear();
            return Ok(());
        }
        self.refuse(
            piece,
            match layout {
                _ if is_known => UNPLAYABLE,
                Layout::Deal => UNTOLD,
                _ => OTHER_CARDS,
            },
        )
    }

    // Whether a solution begins with this board, which is the last one. It may go on with boards.
    fn is_again(&mut self, board: &Board<R>) -> bool
        ensures { self.new.made ≡ self.old.made }
    {
        if !matches!(self.solution, Solution::Rule) {
            self.solution = Solution::Nothing;
            return false;
        }
        self.solution = Solution::Board;
        match &self.made.last {
            Some(last) => is_same(last, board),
            None => false,
        }
    }

    // Whether a solution has begun, and none of its moves was there.
    fn ends_without_moves(&self) -> bool {
        !matches!(self.solution, Solution::Nothing) && self.made.last.is_some()
    }

    // Takes the end of a solution without moves: the list of none, if the board is won.
    fn take_no_moves(&mut self, piece: &[u8]) -> Result<(), AllocError>
        ensures { OnOk result (Takes R.VARIANT R.game piece.now self.old.made self.new.made) }
    {
        self.solution = Solution::Nothing;
        let is_won = match &self.made.last {
            Some(board) => board.is_won(),
            None => false,
        };
        if is_won && self.made.put_list(piece, Form::Runs, b"", REWRITTEN)? {
            return Ok(());
        }
        self.made.refuse_list(piece, 0, NO_MOVES)
    }

    // Refuses a board.
    fn refuse(&mut self, piece: &[u8], words: &[u8]) -> Result<(), AllocError>
        ensures { OnOk result (Takes R.VARIANT R.game piece.now self.old.made self.new.made) }
    {
        self.title.clear();
        self.made.refuse_board(piece, 0, words)
    }

    // Refuses a board for a fault of its text.
    fn refuse_fault(&mut self, piece: &[u8], fault: BoardFault) -> Result<(), AllocError>
        ensures { OnOk result (Takes R.VARIANT R.game piece.now self.old.made self.new.made) }
    {
        let words = board_reason(self.made.alloc, piece, fault.place, fault.kind)?;
        self.title.clear();
        self.made.refuse_board(piece, fault.place, words.as_slice())
    }

    // Takes lines of moves, or refuses them.
    fn take_moves(&mut self, lines: &[u8], piece: &Piece) -> Result<(), AllocError>
        ensures { OnOk result (Takes R.VARIANT R.game lines.now self.old.made self.new.made) }
    {
        self.solution = Solution::Nothing;
        if let Some(at) = piece.held.foreign {
            let words = word_reason(self.made.alloc, lines, at, NO_MOVE)?;
            return self.made.refuse_list(lines, at, words.as_slice());
        }
        let Some(board) = &self.made.last else {
            return self.made.refuse_list(lines, 0, NO_BOARD_BEFORE);
        };
        let read = moves_on(self.made.alloc, board, lines, piece.moves.as_slice())?;
        self.take_read_moves(lines, read)
    }

    // Takes the moves that the lines are read as, or refuses them.
    fn take_read_moves(&mut self, lines: &[u8], read: ListRead) -> Result<(), AllocError>
        ensures { OnOk result (Takes R.VARIANT R.game lines.now self.old.made self.new.made) }
    {
        match read {
            ListRead::Moves(form, moves) => {
                let taken = self
                    .made
                    .put_list(lines, form, moves.as_slice(), REWRITTEN)?;
                if taken {
                    return Ok(());
                }
                self.made.refuse_list(lines, 0, NO_LIST)
            }
            ListRead::Illegal(number, fault) => {
                let words = move_reason(self.made.alloc, number, fault)?;
                self.made.refuse_list(lines, 0, words.as_slice())
            }
            ListRead::TooMany => self.made.refuse_list(lines, 0, NO_LIST),
        }
    }
}

// Where the first word of the lines is that has no place in a board, and what is said of it.
fn first_misplaced(piece: &Piece) -> Option<(usize, &'static [u8])> {
    let in_cells = match &piece.held.cells {
        Some(line) => line.other_word(),
        None => None,
    };
    for (row, line) in piece.rows.as_slice().iter().enumerate() {
        match (in_cells, line.other_word()) {
            (Some(at), _) if at < line.start => return Some((at, NO_CARD)),
            _ if !line.may_be_column(row) => return Some((line.start, NO_LABEL)),
            (_, Some(at)) => return Some((at, NO_CARD)),
            _ => {}
        }
    }
    match (in_cells, piece.held.bad_height) {
        (Some(at), _) => Some((at, NO_CARD)),
        (None, Some(at)) => Some((at, NO_HEIGHT)),
        (None, None) => None,
    }
}

// How many bytes the boards of a solution at the front have, with the line after them.
fn boards_len(text: &[u8]) -> usize {
    for line in Lines::new(text) {
        if line.text.starts_with(SOLVED) {
            return line.start.saturating_add(line.text.len());
        }
        if line.text.starts_with(FIRST_RULE) || line.text.starts_with(b"@") {
            return line.start;
        }
    }
    text.len()
}

// How many bytes the lines have in which so many first bytes of the text end, as far as the next
// header.
fn lines_len(text: &[u8], least: usize) -> usize
    requires some { 0 < length text.now }
    requires no_header { begins_with header_mark text.now ≡ false }
    ensures lines { AreWhole text.now result }
    ensures no_header { HasNoHeader (take result text.now) }
{
    let mut len = line_len(text);
    while len < text.len() && len < least && text[len] != b'@' {
        len += line_len(&text[len..]);
    }
    len
}

// The layout of a deal at the front of the text, in eight lines of columns or seven of rows, with
// one blank between cards, and a header or nothing in the line after it.
fn deal_layout(text: &[u8]) -> Option<Layout> {
    let (mut left, mut lines) = (text, 0usize);
    let mut are_rows = true;
    for place in 0..52 {
        let end = match left {
            [b' ' | b'\n', ..] | [_, b' ' | b'\n', ..] => return None,
            [_, _, end, ..] => *end,
            [_, _] if place == 51 => b'\n',
            _ => return None,
        };
        left = left.get(3..).unwrap_or(b"");
        match end {
            b'\n' => {
                lines = lines.saturating_add(1);
                are_rows = are_rows && (place % 8 == 7 || place == 51);
            }
            b' ' if place < 51 => {}
            _ => return None,
        }
    }
    match (lines, left.first()) {
        (8, None | Some(b'\n' | b'@')) => Some(Layout::Columns),
        (7, None | Some(b'\n' | b'@')) if are_rows => Some(Layout::Rows(DEALT)),
        _ => None,
    }
}

// The board that `show` reads in lines of columns, if no play could have put the eighth line as a
// row below the seventh.
fn read_columns<R: Rule>(lines: &[u8]) -> Option<Board<R>>
    ensures { IfSome result (Spells R.game lines.now) }
{
    match read_board::<R>(lines) {
        Ok(board) if !builds_rows(&board) => Some(board),
        _ => None,
    }
}

// Whether the first card of the last column goes on that of the column before it, or one of them
// has no card.
fn builds_rows<R: Rule>(board: &Board<R>) -> bool {
    // The board has eight columns.
    let _ = board.heights();
    match (board.column(7).first(), board.column(6).first()) {
        (Some(card), Some(above)) => R::builds(*card, *above),
        _ => true,
    }
}
