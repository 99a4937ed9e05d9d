//! What is made of a text, piece by piece. Each method that takes a piece tests that the piece is
//! what it is taken for.
ghost use Rattle.std.specs.{List.{before_first, list_any}, Prelude.{◌&&◌, ◌++◌, ◌<◌, ◌==◌, ◌||◌}};
ghost use Rattle.std.specs.Prelude.{◌↔◌, ◌≡◌, ◌≢◌, ◌≤◌, ◌⊎◌, [], codes, false, IfErr, IfOk, IfSome};
ghost use Rattle.std.specs.Prelude.{IsSome, IsTrue, length, None, OnOk, Some, true};
ghost use Rattle.std.specs.Str.{bytes_eq};
ghost use Rattle.fc_card.specs.Types.{Text};
ghost use Rattle.fc_board.specs.{Boards.{Board as AnyBoard, IsWellFormed}, Games.{eight_off}};
ghost use Rattle.fc_board.specs.{Moves.{ListFits, move_count, MoveList as SaidList}, Play.{Legal}};
ghost use Rattle.fc_text.specs.{Lines.{lines_from, words}, Notation.{most_moves, separates_tokens}};
ghost use Rattle.fc_text.specs.{Printed.{text_of}, Spelling.{Spells}};
ghost use Rattle.fc_text.specs.declared.fault.MovesFault.TheVariants.{Memory};
ghost use Rattle.fc_record.specs.Grammar.{begins_with, heading_of, is_line_feed, list_mark};
ghost use Rattle.fc_record.specs.Printing.{header_text, list_line};
ghost use Rattle.fc_import.specs.Import.{agree, IsApart, IsNamed, IsReadAs, ListNeedsNoNote};
ghost use Rattle.fc_import.specs.Import.{may_be, moves_of, Names, refusals, SpellsOut};
ghost use Rattle.fc_import.specs.inside.{form_of, IsMade, place_of, Says, state_of, Takes};
ghost use Rattle.fc_import.specs.{inside.{TakesName}, Labels.{says_column}, Notes.{after}};
ghost use Rattle.fc_import.specs.Notes.{begun_after, goes_on_after, is_unmarked, name_by};
ghost use Rattle.fc_import.specs.{Notes.{SaysUnless}, Scan.{words_of}, Strips.{tells_columns}};
ghost use Rattle.fc_import.specs.Words.{named_lines};
ghost use Rattle.fc_import.specs.declared.tally.Fate.TheVariants.{ABoard};

use crate::cards::{are_in, named_lines, told_lines};
use crate::hearing::is_in_words;
use crate::labels::{fit_their_numbers, says_column};
use crate::layout::{Layout, layout_words};
use crate::naming::{copied, name_given, names_game, numbered, title_or_number};
use crate::options::{ImportOptions, LinesAre, Noted};
use crate::playable::{can_be, is_allowed};
use crate::quiet::{Aside, are_aside, are_lists, push_moves};
use crate::spelled::{is_equal, is_shown, spelled_needs_no_note, spells_out};
use crate::strips::are_dealt;
use crate::tally::{Fate, Tally, counted};
use crate::walk::{Walk, line_after};
use crate::words::{Words, before_mark, uncommented};
use fc_board::{Board, Rule};
use fc_record::{MoveList, push_header, push_list};
use fc_text::{BoardView, Lines, MovesFault, Tokens, read_moves, read_runs};
use std::alloc::{AllocError, Global};

/// What is said of a board that is written in another spelling.
const RESPELLED: &[u8] = b"this board is written as show prints it";

const UNPLAYED: &[u8] = b"no play leads to these columns, which are read as they are said to be";

const ONCE_MORE: &[u8] = b"this is the board before once more, with which a solution begins";

/// What was written and said so far, and the state that this left.
#[derive(Drop)]
pub(crate) struct Made<R: Rule> {
    pub(crate) alloc: Global,
    pub(crate) options: ImportOptions,
    pub(crate) written: Vec<u8>,
    pub(crate) notes: Vec<u8>,
    /// The last board, if a list of moves may follow it.
    pub(crate) last: Option<Board<R>>,
    /// Whether the rule of a solution came after it, whether the last lines are of a solution that
    /// may go on, and whether the last header names another game.
    pub(crate) begun: bool,
    pub(crate) goes_on: bool,
    pub(crate) other_game: bool,
    pub(crate) walk: Walk,
    /// How many boards the last header names.
    pub(crate) named: usize,
    pub(crate) tally: Tally,
}

/// Which kind of moves a list has.
#[derive(Clone, Copy)]
pub(crate) enum Form {
    OneCard,
    Runs,
}

impl<R: Rule> Made<R> {
    /// Nothing was made yet.
    pub(crate) fn new(alloc: Global, options: ImportOptions) -> Self
        ensures made { IsMade R.VARIANT options R.game [] result }
        ensures options { result.options ≡ options }
        ensures last { result.last ≡ None }
        ensures written { result.written.items ≡ [] }
        ensures notes { result.notes.items ≡ [] }
    {
        Made {
            alloc,
            options,
            written: Vec::new(alloc),
            notes: Vec::new(alloc),
            last: None,
            begun: false,
            goes_on: false,
            other_game: false,
            walk: Walk {
                name: Vec::new(alloc),
                header: 0,
                line: 1,
            },
            named: 0,
            tally: Tally::of(Fate::Passed),
        }
    }

    /// Whether nothing was written, and nothing refused.
    pub(crate) fn is_nothing(&self) -> bool
        ensures nothing { IsTrue result
            → (self.now.written.items ≡ []) × (refusals self.now.tally ≡ 0) }
        ensures some { result ≡ false
            → (self.now.written.items ≢ []) ⊎ (0 < refusals self.now.tally) }
    {
        match self.written.as_slice() {
            [] => self.tally.refusals() == 0,
            _ => false,
        }
    }

    /// Whether the boards have their names from a header.
    pub(crate) fn is_named(&self) -> bool {
        !self.walk.name.is_empty()
    }

    /// Passes lines that name no card, and are no list. Returns whether they are so.
    pub(crate) fn pass(&mut self, piece: &[u8]) -> Result<bool, AllocError>
        ensures taken { IfOk result (λ taken. IsTrue taken
            → Takes R.VARIANT R.game piece.now self.old self.new) }
        ensures kept { IfOk result (λ taken. taken ≡ false → self.new ≡ self.old) }
    {
        if !self.is_apart(piece) {
            return Ok(false);
        }
        if !are_aside::<R>(self.alloc, Aside::Quiet, piece)? {
            return Ok(false);
        }
        self.go_on(piece, Fate::Passed);
        Ok(true)
    }

    /// Leaves out lines that name cards, and of which none is a list or names cards by more than
    /// half of its words, with a note. Returns whether they are so.
    pub(crate) fn leave_out(&mut self, piece: &[u8], words: &[u8]) -> Result<bool, AllocError>
        ensures taken { IfOk result (λ taken. IsTrue taken
            → Takes R.VARIANT R.game piece.now self.old self.new) }
        ensures kept { IfOk result (λ taken. taken ≡ false → self.new ≡ self.old) }
    {
        if named_lines(self.alloc, piece)?.is_empty() {
            return Ok(false);
        }
        if !self.is_apart(piece) {
            return Ok(false);
        }
        if !are_aside::<R>(self.alloc, Aside::Prose, piece)? {
            return Ok(false);
        }
        self.walk.push_note(piece, 0, words, &mut self.notes)?;
        self.go_on(piece, Fate::LeftOut);
        Ok(true)
    }

    /// Refuses a board, with a note on this byte of its lines. No list of moves may follow it.
    pub(crate) fn refuse_board(
        &mut self,
        piece: &[u8],
        at: usize,
        words: &[u8],
    ) -> Result<(), AllocError>
        ensures { OnOk result (Takes R.VARIANT R.game piece.now self.old self.new) }
    {
        self.walk.push_note(piece, at, words, &mut self.notes)?;
        self.last = None;
        self.go_on(piece, Fate::RefusedBoard);
        Ok(())
    }

    /// Refuses a list, with a note on this byte of its lines. Another list may follow the last
    /// board unless a line of the piece may be another board's.
    pub(crate) fn refuse_list(
        &mut self,
        piece: &[u8],
        at: usize,
        words: &[u8],
    ) -> Result<(), AllocError>
        ensures { OnOk result (Takes R.VARIANT R.game piece.now self.old self.new) }
    {
        if !self.is_apart(piece) {
            return self.refuse_board(piece, at, words);
        }
        self.walk.push_note(piece, at, words, &mut self.notes)?;
        if are_aside::<R>(self.alloc, Aside::NoBoard, piece)? {
            self.go_on(piece, Fate::RefusedList);
            return Ok(());
        }
        self.last = None;
        self.go_on(piece, Fate::RefusedList);
        Ok(())
    }

    /// Takes the name that the line of a header gives.
    pub(crate) fn take_name(&mut self, line: &[u8]) -> Result<(), AllocError>
        ensures { OnOk result (TakesName R.VARIANT line.now self.old self.new) }
    {
        let name = name_given(self.alloc, R::VARIANT, line)?;
        self.put_name(name, line);
        Ok(())
    }

    // Whether the piece may be read after what came before it: no solution goes on there, or its
    // first line ends one.
    fn is_apart(&self, piece: &[u8]) -> bool
        ensures { IsTrue result ↔ IsApart (state_of self.now) piece.now }
    {
        !self.goes_on || begins_apart(piece)
    }

    /// Goes on after the line of a header, which gives this name.
    pub(crate) fn put_name(&mut self, name: Vec<u8>, line: &[u8])
        requires { name.items ≡ name_by (heading_of R.VARIANT line.now) }
        ensures { TakesName R.VARIANT line.now self.old self.new }
    {
        self.last = None;
        self.begun = false;
        self.goes_on = false;
        self.other_game = !names_game(R::VARIANT, line);
        self.named = 0;
        self.walk = Walk {
            name,
            header: self.walk.line,
            line: line_after(self.walk.line, line),
        };
    }

    /// Writes a board that the lines are read as in this layout, under its name or this title: with
    /// a note, unless they spell it out. It may be known that `show` reads them as that. Returns
    /// whether play can make it, and the lines are that.
    pub(crate) fn put_read(
        &mut self,
        piece: &[u8],
        title: &[u8],
        board: Board<R>,
        layout: Layout,
        is_known: bool,
    ) -> Result<bool, AllocError>
        requires { IsTrue is_known → Spells R.game piece.now board }
        ensures taken { IfOk result (λ taken. IsTrue taken
            → Takes R.VARIANT R.game piece.now self.old self.new) }
        ensures kept { IfOk result (λ taken. taken ≡ false → self.new ≡ self.old) }
    {
        if self.other_game {
            return Ok(false);
        }
        if !is_allowed(self.options.lines_are, piece, &board) {
            return Ok(false);
        }
        let told = (RESPELLED, layout_words(layout));
        if !self.say_read(piece, &board, layout, is_known, told)? {
            return Ok(false);
        }
        self.put_board(piece, title, board)?;
        Ok(true)
    }

    /// Passes lines that are the last board once more: with a note, unless none is needed. Returns
    /// whether they spell it out, or are it in this layout.
    pub(crate) fn see_again(&mut self, piece: &[u8], layout: Layout) -> Result<bool, AllocError>
        ensures taken { IfOk result (λ taken. IsTrue taken
            → Takes R.VARIANT R.game piece.now self.old self.new) }
        ensures kept { IfOk result (λ taken. taken ≡ false → self.new ≡ self.old) }
    {
        if !self.begun {
            return Ok(false);
        }
        let Some(last) = &self.last else {
            return Ok(false);
        };
        let board = last.copy();
        if !self.say_read(piece, &board, layout, false, (ONCE_MORE, ONCE_MORE))? {
            return Ok(false);
        }
        self.go_on(piece, Fate::Again);
        Ok(true)
    }

    /// Writes the list of these moves: with this note, unless none is needed. Returns whether the
    /// lines name it, and it is legal on the last board.
    pub(crate) fn put_list(
        &mut self,
        piece: &[u8],
        form: Form,
        moves: &[u8],
        words: &[u8],
    ) -> Result<bool, AllocError>
        ensures taken { IfOk result (λ taken. IsTrue taken
            → Takes R.VARIANT R.game piece.now self.old self.new) }
        ensures kept { IfOk result (λ taken. taken ≡ false → self.new ≡ self.old) }
    {
        if !self.is_apart(piece) {
            return Ok(false);
        }
        if !is_named::<R>(self.alloc, piece, moves)? {
            return Ok(false);
        }
        let Some(list) = self.legal_list(form, moves)? else {
            return Ok(false);
        };
        self.say_list(piece, &list, words)?;
        push_list(&list, &mut self.written)?;
        self.go_on(piece, Fate::AList);
        Ok(true)
    }

    /// Goes on after the lines of a piece of this fate.
    pub(crate) fn go_on(&mut self, piece: &[u8], fate: Fate)
        ensures state { state_of self.new ≡ after (state_of self.old) piece.now self.old.last fate }
        ensures written { self.new.written.items ≡ self.old.written.items }
        ensures notes { self.new.notes.items ≡ self.old.notes.items }
    {
        let more = Tally::of(fate);
        self.begun = begun_after(fate, self.begun, piece);
        self.goes_on = goes_on_after(fate, piece);
        self.walk.line = line_after(self.walk.line, piece);
        self.named = counted(self.named, more.boards);
        self.tally = self.tally.plus(more);
    }

    // Writes the board of a piece.
    fn put_board(&mut self, piece: &[u8], title: &[u8], board: Board<R>) -> Result<(), AllocError>
        ensures state { OnOk result
            (state_of self.new ≡ after (state_of self.old) piece.now (Some board) ABoard) }
        ensures written { OnOk result ((name : Text) × IsNamed (state_of self.old) name
            × (self.new.written.items
            ≡ self.old.written.items ++ (header_text R.VARIANT name ++ text_of board))) }
        ensures notes { OnOk result (self.new.notes.items ≡ self.old.notes.items) }
        ensures well_formed { IsWellFormed R.game board }
    {
        let name = self.next_name(title)?;
        push_record(name.as_slice(), &board, &mut self.written)?;
        self.last = Some(board);
        self.go_on(piece, Fate::ABoard);
        Ok(())
    }

    // The name of the next board: the header's, with a number from the second board on, or else the
    // title, or else the board's number.
    fn next_name(&self, title: &[u8]) -> Result<Vec<u8>, AllocError>
        ensures { IfOk result (λ name. IsNamed (state_of self.now) name.items) }
    {
        let header = self.walk.name.as_slice();
        if header.is_empty() {
            return title_or_number(self.alloc, title, counted(self.tally.boards, 1));
        }
        if self.named == 0 {
            return copied(self.alloc, header);
        }
        numbered(self.alloc, header, counted(self.named, 1))
    }

    // The cards that the lines name, if those with numbers are the columns of these, or rows tell
    // under which columns their cards stand.
    fn told_cards(
        &self,
        piece: &[u8],
        board: &Board<R>,
        layout: Layout,
    ) -> Result<Option<Vec<u8>>, AllocError>
        ensures named { IfOk result (λ told. IfSome told (λ cards.
            cards.items ≡ named_lines piece.now)) }
        ensures told { IfOk result (λ told. IsSome told
            → tells_columns layout piece.now board.now ≡ true) }
    {
        if let Layout::Rows(strips) = layout {
            return told_lines(self.alloc, strips, piece, board);
        }
        if layout == Layout::Deal && !are_dealt(piece, board) {
            return Ok(None);
        }
        if !fit_their_numbers(piece, board) {
            return Ok(None);
        }
        let named = named_lines(self.alloc, piece)?;
        Ok(Some(named))
    }

    // Whether the lines, which name these cards, tell their columns and may spell out the board,
    // are read as it: they are it in this layout, or are columns that spell it out.
    fn is_read(
        &self,
        piece: &[u8],
        named: &[u8],
        board: &Board<R>,
        layout: Layout,
        is_spelled: bool,
    ) -> Result<bool, AllocError>
        requires named { named.now ≡ named_lines piece.now }
        requires told { tells_columns layout piece.now board.now ≡ true }
        requires spelled { IsTrue is_spelled → SpellsOut R.game piece.now board.now }
        ensures { IfOk result (λ is. IsTrue is
            → IsReadAs self.now.options.lines_are R.game piece.now board.now) }
    {
        let lines_are = self.options.lines_are;
        if may_be(lines_are, layout, piece) {
            let is_laid = are_in(self.alloc, layout, piece, named, board)?;
            if is_laid {
                return Ok(true);
            }
        }
        if !may_be(lines_are, Layout::Columns, piece) {
            return Ok(false);
        }
        Ok(is_spelled)
    }

    /// The list of these moves, if it is legal on the last board.
    pub(crate) fn legal_list(
        &self,
        form: Form,
        moves: &[u8],
    ) -> Result<Option<MoveList>, AllocError>
        ensures legal { IfOk result (λ list. IfSome list (λ list. (board : AnyBoard)
            × (self.now.last ≡ Some board) × Legal R.game board list)) }
        ensures fits { IfOk result (λ list. IfSome list (ListFits eight_off)) }
        ensures names { IfOk result (λ list. IfSome list (Names R.game moves.now)) }
        ensures few { IfOk result (λ list. IfSome list (λ list. move_count list ≤ most_moves)) }
        ensures found { (board : AnyBoard) (list : SaidList) → self.now.last ≡ Some board
            → Legal R.game board list → form ≡ form_of list → Names R.game moves.now list
            → IfOk result (λ found. found ≡ Some list) }
    {
        let Some(board) = &self.last else {
            return Ok(None);
        };
        match read_list::<R>(self.alloc, form, moves) {
            Ok(list) if plays(board, &list) => Ok(Some(list)),
            Err(MovesFault::Memory) => Err(AllocError),
            _ => Ok(None),
        }
    }

    // Says of a board that the lines are read as in this layout, with the second of these words,
    // that they are; or with the first that its spelling is changed, where they spell it out.
    // Returns whether they are read so.
    fn say_read(
        &mut self,
        piece: &[u8],
        board: &Board<R>,
        layout: Layout,
        is_known: bool,
        told: (&[u8], &[u8]),
    ) -> Result<bool, AllocError>
        requires { IsTrue is_known → Spells R.game piece.now board.now }
        ensures said { IfOk result (λ is. IsTrue is → Says R.game piece.now board.now
            self.old self.new) }
        ensures of { IfOk result (λ is. IsTrue is
            → IsReadAs self.old.options.lines_are R.game piece.now board.now) }
        ensures kept { IfOk result (λ is. is ≡ false → self.new ≡ self.old) }
    {
        let (respelled, turned) = told;
        let is_shown = is_shown(piece, board, layout, is_known);
        if is_shown && layout == Layout::Columns && may_be(self.options.lines_are, layout, piece) {
            self.say_change(piece, board, respelled)?;
            return Ok(true);
        }
        let Some(named) = self.told_cards(piece, board, layout)? else {
            return Ok(false);
        };
        let named = named.as_slice();
        let is_spelled = spells_out(self.alloc, piece, named, board, is_shown)?;
        if !self.is_read(piece, named, board, layout, is_spelled)? {
            return Ok(false);
        }
        if is_spelled {
            self.say_change(piece, board, respelled)?;
            return Ok(true);
        }
        self.walk.push_note(piece, 0, turned, &mut self.notes)?;
        Ok(true)
    }

    // Says of a board that the lines spell out, with these words, that its spelling is changed, if
    // that is to be noted.
    fn say_change(&mut self, piece: &[u8], board: &Board<R>, words: &[u8]) -> Result<(), AllocError>
        requires { SpellsOut R.game piece.now board.now }
        ensures { OnOk result (Says R.game piece.now board.now self.old self.new) }
    {
        if spelled_needs_no_note(self.options.noted, piece, board) {
            return Ok(());
        }
        let words = if can_be(piece, board) {
            words
        } else {
            UNPLAYED
        };
        self.walk.push_note(piece, 0, words, &mut self.notes)
    }

    // Puts a note with these words, unless the lines need none of the list.
    fn say_list(&mut self, piece: &[u8], list: &MoveList, words: &[u8]) -> Result<(), AllocError>
        requires { ListFits eight_off list.now }
        ensures said { OnOk result ((says : Text)
            × (self.new.notes.items ≡ self.old.notes.items ++ says)
            × SaysUnless (ListNeedsNoNote self.old.options.noted R.game piece.now list.now)
            (place_of self.old.walk) piece.now says) }
        ensures state { OnOk result (state_of self.new ≡ state_of self.old) }
        ensures written { OnOk result (self.new.written.items ≡ self.old.written.items) }
    {
        if list_needs_no_note::<R>(self.alloc, self.options.noted, piece, list)? {
            return Ok(());
        }
        self.walk.push_note(piece, 0, words, &mut self.notes)?;
        Ok(())
    }
}

// Whether lines that are said to be this may be of the layout: columns are no rows, and of rows one
// must say that it is a column's, if they are columns.
fn may_be(lines_are: LinesAre, layout: Layout, piece: &[u8]) -> bool
    ensures { result ≡ may_be lines_are layout piece.now }
{
    match (lines_are, layout) {
        (LinesAre::Columns, Layout::Rows(_)) => false,
        (LinesAre::Rows, Layout::Columns) => has_column(piece),
        _ => true,
    }
}

// Whether a line says that it is a column's.
fn has_column(piece: &[u8]) -> bool
    ensures { result ≡ list_any (λ line. says_column line.bytes) (lines_from 0 piece.now) }
{
    for line in Lines::new(piece) {
        if says_column(line.text) {
            return true;
        }
    }
    false
}

// Puts the header with this name, and the board.
fn push_record<R: Rule>(
    name: &[u8],
    board: &Board<R>,
    written: &mut Vec<u8>,
) -> Result<(), AllocError>
    ensures text { OnOk result (written.new.items
        ≡ written.old.items ++ (header_text R.VARIANT name.now ++ text_of board.now)) }
    ensures well_formed { IsWellFormed R.game board.now }
{
    let view = BoardView::of(board);
    push_header(R::VARIANT, name, written)?;
    written.extend_from_slice(view.text().as_slice())
}

// The list in this form of the moves that the words are.
fn read_list<R: Rule>(alloc: Global, form: Form, words: &[u8]) -> Result<MoveList, MovesFault>
    ensures fits { IfOk result (ListFits R.game) }
    ensures fits_eight_off { IfOk result (ListFits eight_off) }
    ensures few { IfOk result (λ list. move_count list ≤ most_moves) }
    ensures found { (list : SaidList) → form ≡ form_of list → Names R.game words.now list
        → IfOk result (λ read. read ≡ list) }
    ensures names { IfOk result (Names R.game words.now) }
    ensures memory { (list : SaidList) → form ≡ form_of list → Names R.game words.now list
        → IfErr result (λ fault. fault ≡ Memory) }
{
    match form {
        Form::OneCard => match read_moves::<R>(alloc, words) {
            Ok(moves) => Ok(MoveList::one_card(moves)),
            Err(fault) => Err(fault),
        },
        Form::Runs => match read_runs::<R>(alloc, words) {
            Ok(moves) => Ok(MoveList::runs(moves)),
            Err(fault) => Err(fault),
        },
    }
}

fn plays<R: Rule>(board: &Board<R>, list: &MoveList) -> bool
    requires { ListFits R.game list.now }
    ensures { IsTrue result ↔ Legal R.game board.now list.now }
{
    list.play(board).is_ok()
}

// Whether nothing is to be noted of lines that are read as the list.
fn list_needs_no_note<R: Rule>(
    alloc: Global,
    noted: Noted,
    lines: &[u8],
    list: &MoveList,
) -> Result<bool, AllocError>
    requires { ListFits eight_off list.now }
    ensures { IfOk result (λ silent. IsTrue silent
        ↔ ListNeedsNoNote noted R.game lines.now list.now) }
{
    let printed = line_of(alloc, list)?;
    if is_equal(lines, printed.as_slice()) {
        return Ok(true);
    }
    match noted {
        Noted::Doubts => {
            let silent = are_lists::<R>(alloc, lines)?;
            Ok(silent)
        }
        Noted::Changes | Noted::Strict => Ok(false),
    }
}

/// The line of the list, as fcanon prints it.
pub(crate) fn line_of(alloc: Global, list: &MoveList) -> Result<Vec<u8>, AllocError>
    requires { ListFits eight_off list.now }
    ensures { IfOk result (λ line. line.items ≡ list_line list.now) }
{
    let mut line = Vec::new(alloc);
    push_list(list, &mut line)?;
    Ok(line)
}

// Whether the moves are those that the lines name.
fn is_named<R: Rule>(alloc: Global, lines: &[u8], moves: &[u8]) -> Result<bool, AllocError>
    ensures { IfOk result (λ is. IsTrue is → agree (words separates_tokens
        (moves_of R.game lines.now)) (words separates_tokens moves.now) ≡ true) }
{
    let mut named = Vec::new(alloc);
    push_moves::<R>(alloc, lines, &mut named)?;
    Ok(agree(named.as_slice(), moves))
}

// Whether the words are one by one these tokens, but that a move of two letters may say that it is
// of one card.
fn agree(named: &[u8], tokens: &[u8]) -> bool
    ensures { result ≡ agree (words separates_tokens named.now)
        (words separates_tokens tokens.now) }
{
    let mut left = Tokens::new(named);
    for token in Tokens::new(tokens) {
        let Some(word) = left.next() else {
            return false;
        };
        if !agrees(word.text, token.text) {
            return false;
        }
    }
    left.next().is_none()
}

fn agrees(word: &[u8], token: &[u8]) -> bool
    ensures { result ≡ (bytes_eq token.now word.now || (length word.now == 2
        && bytes_eq token.now (word.now ++ codes "v1"))) }
{
    token == word
        || matches!((word, token), ([from, to], [f, t, b'v', b'1']) if f == from && t == to)
}

// Whether a solution has begun after a piece of this fate.
fn begun_after(fate: Fate, begun: bool, piece: &[u8]) -> bool
    ensures { result ≡ begun_after fate begun piece.now }
{
    match fate {
        Fate::Passed => begun || piece.starts_with(b"-=-=-=-=-="),
        Fate::LeftOut => begun,
        _ => false,
    }
}

// Whether a solution may go on after a piece of this fate.
fn goes_on_after(fate: Fate, piece: &[u8]) -> bool
    ensures { result ≡ goes_on_after fate piece.now }
{
    match fate {
        Fate::AList | Fate::RefusedList => is_unmarked(piece),
        _ => false,
    }
}

// Whether the lines begin with no mark of a list, no move in words, and no sentence of a solver.
fn is_unmarked(piece: &[u8]) -> bool
    ensures { result ≡ is_unmarked piece.now }
{
    !(piece.first() == Some(&b'>') || is_in_words(piece) || piece.starts_with(b"This "))
}

// Whether the first line begins as fcanon's lists do, or has no words.
fn begins_apart(piece: &[u8]) -> bool
    ensures { IsTrue result ↔ ((begins_with list_mark piece.now ≡ true)
        ⊎ (length (words_of (before_first is_line_feed piece.now)) ≡ 0)) }
{
    if piece.first() == Some(&b'>') {
        return true;
    }
    Words::new(uncommented(before_mark(b'\n', piece)))
        .next()
        .is_none()
}
