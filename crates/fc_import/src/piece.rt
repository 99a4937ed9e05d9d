//! The lines of one piece of a text, scanned once each, up to where the piece ends. Nothing is
//! promised of where that is.
ghost use Rattle.fc_import.specs.Seen.{IsSeen};

use crate::hearing::{LineHeard, is_drawn, is_in_words, is_list, moves_in};
use crate::labels::LabelKind;
use crate::marks::Shape;
use crate::moves::are_glued;
use crate::scan::{LineSeen, Placed};
use crate::words::{Words, before_mark, uncommented};
use fc_board::Rule;
use fc_text::{Line, Lines};
use memchr::memchr;
use std::alloc::{AllocError, Global};

/// The line after the last move of a solution of Freecell Solver, or after none.
pub(crate) const SOLVED: &[u8] = b"This game is solveable";

/// The rule before a solution of Freecell Solver.
pub(crate) const FIRST_RULE: &[u8] = b"-=-=-=-=-=";

/// The most lines of a board.
const MOST_LINES: usize = 48;

/// What a line looks like.
#[derive(Clone, Copy, PartialEq, Eq, Debug)]
pub(crate) enum LineKind {
    /// No word and no mark for a card.
    Blank,
    /// A comment, or a name of columns alone.
    Comment,
    Foundations,
    Cells,
    /// Cards, or none after a colon.
    Cards,
    Moves,
    Other,
}

/// What the lines at the front of a text are.
#[derive(Clone, Copy, PartialEq, Eq, Debug)]
pub(crate) enum PieceKind {
    /// One line that is no board's and no list's, or a blank one.
    Prose,
    Board,
    Moves,
}

/// A line of a piece: where it is, what it looks like, and which of the piece's cards and gaps it
/// has.
#[derive(Clone, Copy)]
pub(crate) struct PieceLine {
    pub(crate) start: usize,
    pub(crate) len: usize,
    pub(crate) kind: LineKind,
    pub(crate) shape: Shape,
    first: usize,
    end: usize,
    /// How many of its cards were there before, in the line or above it.
    repeats: usize,
    /// How many blank lines there are between it and the first line of cards.
    pub(crate) blanks: usize,
}

impl PieceLine {
    /// The line in the text of its piece, before a comment.
    pub(crate) fn of<'a>(&self, text: &'a [u8]) -> &'a [u8] {
        let end = self.start.saturating_add(self.len);
        uncommented(text.get(self.start..end).unwrap_or(b""))
    }

    /// Where the first word is that names no card, and is none of its label.
    pub(crate) fn other_word(&self) -> Option<usize> {
        match self.shape.others {
            0 => None,
            _ => Some(self.start.saturating_add(self.shape.other)),
        }
    }

    /// Whether its label, if it has one, is the number of this column, counted from 0.
    pub(crate) fn may_be_column(&self, column: usize) -> bool {
        match self.shape.label {
            LabelKind::Bare => true,
            LabelKind::Column(number) => usize::from(number) == column.saturating_add(1),
            _ => false,
        }
    }
}

/// The lines of a piece, and what they hold together.
#[derive(Drop)]
pub(crate) struct Piece {
    /// The lines of cards.
    pub(crate) rows: Vec<PieceLine>,
    placed: Vec<Placed>,
    /// The moves that its lists name, each after a blank, and those of the last line.
    pub(crate) moves: Vec<u8>,
    line_moves: Vec<u8>,
    pub(crate) held: Held,
}

/// What the lines of a piece hold together.
#[derive(Clone, Copy, Default)]
pub(crate) struct Held {
    /// The line of the cells.
    pub(crate) cells: Option<PieceLine>,
    /// Where the first word of a solution begins that is of no move.
    pub(crate) foreign: Option<usize>,
    /// Whether the last line that was looked at is a number alone, which is a move.
    pub(crate) is_number: bool,
    /// The heights of C D H S.
    pub(crate) heights: [u8; 4],
    has_heights: bool,
    /// The first word of the foundations that is none.
    pub(crate) bad_height: Option<usize>,
    /// How many cards there are, those that are home included.
    count: usize,
    bits: u64,
    /// A card was there twice, or a word of a column is none.
    is_damaged: bool,
    /// How many lines there are, and how many blank ones after the first line of cards.
    lines: usize,
    blanks: usize,
    /// What there was at the last blank line.
    at_blank: Option<AtBlank>,
    /// How many bytes the lines have, up to the last one that is not blank.
    pub(crate) len: usize,
}

/// How much of a piece there is before a blank line: so many lines of cards, the cells, so many
/// lines and so many bytes.
#[derive(Clone, Copy)]
struct AtBlank {
    rows: usize,
    has_cells: bool,
    lines: usize,
    len: usize,
}

impl Piece {
    /// No lines.
    pub(crate) fn new(alloc: Global) -> Self {
        Piece {
            rows: Vec::new(alloc),
            placed: Vec::new(alloc),
            moves: Vec::new(alloc),
            line_moves: Vec::new(alloc),
            held: Held::default(),
        }
    }

    fn clear(&mut self) {
        self.rows.clear();
        self.placed.clear();
        self.moves.clear();
        self.held = Held::default();
    }

    /// Reads the piece at the front of the text in place of the one before, and returns what it is.
    pub(crate) fn read<R: Rule>(&mut self, text: &[u8]) -> Result<PieceKind, AllocError> {
        self.clear();
        let mut lines = Lines::new(text);
        let Some(first) = lines.next() else {
            return Ok(PieceKind::Prose);
        };
        let line = self.look_at::<R>(first)?;
        self.held.len = line.len;
        match line.kind {
            LineKind::Moves => {
                self.go_on_with_moves::<R>(text)?;
                Ok(PieceKind::Moves)
            }
            LineKind::Other if !self.has_few_moves::<R>(first.text)? => {
                self.go_on_with_moves::<R>(text)?;
                Ok(PieceKind::Moves)
            }
            LineKind::Blank | LineKind::Comment | LineKind::Other => Ok(PieceKind::Prose),
            LineKind::Foundations | LineKind::Cells | LineKind::Cards => {
                self.add(&line, first.text)?;
                self.go_on::<R>(lines)?;
                if !self.is_whole() && self.is_list::<R>(first.text)? {
                    self.go_on_with_moves::<R>(text)?;
                    return Ok(PieceKind::Moves);
                }
                Ok(PieceKind::Board)
            }
        }
    }

    // Takes the lines that may be those of the board.
    fn go_on<R: Rule>(&mut self, lines: Lines<'_>) -> Result<(), AllocError> {
        for line in lines {
            if self.held.lines >= MOST_LINES || line.text.starts_with(b"@") {
                break;
            }
            let seen = self.look_at::<R>(line)?;
            if !self.takes::<R>(&seen, line.text)? {
                break;
            }
            self.add(&seen, line.text)?;
        }
        Ok(())
    }

    /// Takes the lines of a solution at the front of the text in place of those that it has: one
    /// that begins as fcanon's lists do; or as many as there are before a blank line, a header or a
    /// board; or those of Freecell Solver, which begin with `Move` and may have boards, rules and
    /// blank lines between them.
    pub(crate) fn go_on_with_moves<R: Rule>(&mut self, text: &[u8]) -> Result<(), AllocError> {
        self.clear();
        let in_words = is_in_words(text);
        let most = if in_words {
            solution_len(text)
        } else {
            text.len()
        };
        for line in Lines::new(text) {
            if line.start >= most || line.start > 0 && self.ends_moves::<R>(line.text, in_words)? {
                break;
            }
            self.take_moves::<R>(line, in_words)?;
            self.held.len = line.start.saturating_add(line.text.len());
            if text.starts_with(b">") {
                break;
            }
        }
        Ok(())
    }

    // Whether the solution ends before the line: not where cards of a mistyped one are moves too.
    fn ends_moves<R: Rule>(&mut self, line: &[u8], in_words: bool) -> Result<bool, AllocError> {
        if line.starts_with(b"@") || line.starts_with(b">") || line.starts_with(FIRST_RULE) {
            return Ok(true);
        }
        if in_words {
            return Ok(false);
        }
        if line.trim_ascii().is_empty() {
            return Ok(true);
        }
        let seen = LineSeen::of(line, &mut self.placed)?;
        let kind = self.kind_of::<R>(line, &seen)?;
        let _ = LineHeard::of::<R>(line, &mut self.line_moves)?;
        let are_moves = moves_in(self.line_moves.as_slice()) >= seen.shape.cards;
        let is_mistyped = kind == LineKind::Cards && seen.shape.others > 0 && are_moves;
        Ok(begins_board(kind) && !is_mistyped && !self.is_list::<R>(line)?)
    }

    // Takes the moves of a line.
    fn take_moves<R: Rule>(&mut self, line: Line<'_>, in_words: bool) -> Result<(), AllocError> {
        let text = line.text;
        let seen = LineSeen::of(text, &mut self.placed)?;
        let heard = LineHeard::of::<R>(text, &mut self.line_moves)?;
        let is_between = in_words && (text.starts_with(SOLVED) || is_drawn(text));
        if seen.words == 0 || is_between {
            return Ok(());
        }
        let is_alone = seen.words == 1 && seen.numbers;
        let is_read = heard.heard.all && heard.heard.from.is_none();
        if is_read && heard.is_list::<R>(text, &seen, self.line_moves.as_slice()) {
            self.moves.extend_from_slice(self.line_moves.as_slice())?;
            return Ok(());
        }
        if self.held.foreign.is_some() {
            return Ok(());
        }
        if line.start == 0 && is_alone {
            self.moves.extend_from_slice(self.line_moves.as_slice())?;
            return Ok(());
        }
        self.held.foreign = Some(line.start.saturating_add(heard.other));
        Ok(())
    }

    /// Whether each card is in its place, by their number.
    pub(crate) fn is_whole(&self) -> bool {
        self.held.count >= 52
    }

    /// Whether blank lines stand between some lines of cards, but not as many between any two.
    pub(crate) fn is_parted(&self) -> bool {
        let mut blanks: usize = 0;
        let mut first: Option<usize> = None;
        for line in self.rows.as_slice().iter().skip(1) {
            let gap = line.blanks.saturating_sub(blanks);
            if gap != first.unwrap_or(gap) {
                return true;
            }
            first = Some(gap);
            blanks = line.blanks;
        }
        false
    }

    /// The cards and gaps of a line.
    pub(crate) fn placed(&self, line: &PieceLine) -> &[Placed] {
        self.placed
            .as_slice()
            .get(line.first..line.end)
            .unwrap_or(&[])
    }

    // Whether the line names few moves.
    fn has_few_moves<R: Rule>(&mut self, line: &[u8]) -> Result<bool, AllocError> {
        let seen = LineSeen::of(line, &mut self.placed)?;
        let heard = LineHeard::of::<R>(line, &mut self.line_moves)?;
        Ok(heard.has_few_moves::<R>(line, &seen, self.line_moves.as_slice()))
    }

    // Whether the line is a list.
    fn is_list<R: Rule>(&mut self, line: &[u8]) -> Result<bool, AllocError> {
        let seen = LineSeen::of(line, &mut self.placed)?;
        is_list::<R>(line, &seen, &mut self.line_moves)
    }

    fn kind_of<R: Rule>(&mut self, line: &[u8], seen: &LineSeen) -> Result<LineKind, AllocError>
        requires { IsSeen line.now seen.now }
    {
        let front = line.trim_ascii_start();
        Ok(match front {
            [] => LineKind::Blank,
            [b'#', ..] if uncommented(front).is_empty() => LineKind::Comment,
            [b'>', ..] if self.is_marked_list::<R>(line, seen)? => LineKind::Moves,
            [b'M', ..] if is_in_words(front) => LineKind::Moves,
            [b'=', b'=', ..] | [b'-', b'=', ..] => LineKind::Other,
            _ => match kind_by_label(front, seen) {
                LineKind::Other if is_list::<R>(line, seen, &mut self.line_moves)? => {
                    LineKind::Moves
                }
                kind => kind,
            },
        })
    }

    // Whether a line that begins with the mark of a list is one, and no quoted line of cards.
    fn is_marked_list<R: Rule>(
        &mut self,
        line: &[u8],
        seen: &LineSeen,
    ) -> Result<bool, AllocError> {
        let heard = LineHeard::of::<R>(line, &mut self.line_moves)?;
        Ok(seen.shape.cards < 3 || heard.heard.all)
    }

    // What the line looks like.
    fn look_at<R: Rule>(&mut self, line: Line<'_>) -> Result<PieceLine, AllocError> {
        let text = line.text;
        let first = self.placed.len();
        let seen = LineSeen::of(text, &mut self.placed)?;
        let end = self.placed.len();
        let kind = self.kind_of::<R>(text, &seen)?;
        self.held.is_number = seen.words == 1 && seen.numbers && self.is_move::<R>(text)?;
        let mut shape = seen.shape;
        if kind == LineKind::Cells {
            if let Some(place) = bold_after_name(text) {
                shape.see_other(place);
            }
        }
        Ok(PieceLine {
            start: line.start,
            len: text.len(),
            kind,
            shape,
            first,
            end,
            repeats: shape
                .cards
                .saturating_sub(count_of(shape.bits & !self.held.bits)),
            blanks: self.held.blanks,
        })
    }

    // Whether the line names one move of two letters.
    fn is_move<R: Rule>(&mut self, line: &[u8]) -> Result<bool, AllocError> {
        let _ = LineHeard::of::<R>(line, &mut self.line_moves)?;
        Ok(self.line_moves.len() == 3)
    }

    // Whether the line may be the board's.
    fn takes<R: Rule>(&mut self, line: &PieceLine, text: &[u8]) -> Result<bool, AllocError> {
        let is_whole = self.is_whole();
        let rows = self.rows.len();
        Ok(match line.kind {
            LineKind::Moves | LineKind::Other => false,
            LineKind::Comment => !is_whole && rows < 8,
            LineKind::Blank => !is_whole && rows < 8 && !self.held.is_damaged,
            LineKind::Foundations => {
                let fits = !is_whole || heights_of(text).0 == [0; 4];
                !self.held.has_heights && fits && !(self.ends_with_blank() && rows > 0)
            }
            LineKind::Cells => self.held.cells.is_none() && (!is_whole || line.shape.bits == 0),
            LineKind::Cards if is_whole => rows < 8 && line.shape.bits == 0,
            LineKind::Cards if line.repeats > 0 && self.is_list::<R>(text)? => false,
            LineKind::Cards if self.begins_other(line) => {
                self.cut_at_blank();
                false
            }
            LineKind::Cards => true,
        })
    }

    // Whether another board seems to begin above the line: its cards come again after a blank line,
    // or most of them do.
    fn begins_other(&self, line: &PieceLine) -> bool {
        let repeats = line.repeats;
        let cards = line.end.saturating_sub(line.first);
        repeats > 0 && self.held.at_blank.is_some() || repeats >= 3 && repeats > cards / 2
    }

    // Whether the last line is blank.
    fn ends_with_blank(&self) -> bool {
        matches!(self.held.at_blank, Some(at) if at.lines.saturating_add(1) == self.held.lines)
    }

    // Leaves the lines after the last blank one to the next board, where this one is not whole.
    fn cut_at_blank(&mut self) {
        if let (Some(at), false) = (self.held.at_blank, self.is_whole()) {
            self.rows.truncate(at.rows);
            if !at.has_cells {
                self.held.cells = None;
            }
            self.held.len = at.len;
        }
    }

    fn add(&mut self, line: &PieceLine, text: &[u8]) -> Result<(), AllocError> {
        match line.kind {
            LineKind::Foundations => self.add_heights(line.start, text),
            LineKind::Cells => self.held.cells = Some(*line),
            LineKind::Cards => self.rows.push(*line)?,
            LineKind::Blank => self.see_blank(),
            _ => {}
        }
        if line.kind != LineKind::Foundations {
            self.held.is_damaged = self.held.is_damaged
                || line.repeats > 0
                || line.shape.others > 0;
            self.held.count = self
                .held
                .count
                .saturating_add(count_of(line.shape.bits & !self.held.bits));
            self.held.bits |= line.shape.bits;
        }
        self.held.lines = self.held.lines.saturating_add(1);
        if line.kind != LineKind::Blank {
            self.held.len = line.start.saturating_add(line.len);
        }
        Ok(())
    }

    fn see_blank(&mut self) {
        self.held.at_blank = Some(AtBlank {
            rows: self.rows.len(),
            has_cells: self.held.cells.is_some(),
            lines: self.held.lines,
            len: self.held.len,
        });
        self.held.blanks = self
            .held
            .blanks
            .saturating_add(usize::from(!self.rows.is_empty()));
    }

    fn add_heights(&mut self, start: usize, text: &[u8]) {
        let (heights, bad) = heights_of(text);
        self.held.has_heights = true;
        self.held.heights = heights;
        self.held.is_damaged = self.held.is_damaged || bad.is_some();
        if let (Some(place), None) = (bad, self.held.bad_height) {
            self.held.bad_height = Some(start.saturating_add(place));
        }
        for height in heights {
            self.held.count = self.held.count.saturating_add(usize::from(height));
        }
    }
}

// How many bytes a solution in words has: up to its end where that is named, and else up to the
// last line that begins with `Move`, before a header, a list or the rule of another solution.
fn solution_len(text: &[u8]) -> usize {
    let mut len: usize = 0;
    for line in Lines::new(text) {
        if line.text.starts_with(b"@")
            || line.text.starts_with(b">")
            || line.text.starts_with(FIRST_RULE)
        {
            break;
        }
        if line.text.starts_with(SOLVED) {
            return line.start.saturating_add(1);
        }
        if is_in_words(line.text) {
            len = line.start.saturating_add(1);
        }
    }
    len
}

fn begins_board(kind: LineKind) -> bool {
    matches!(
        kind,
        LineKind::Foundations | LineKind::Cells | LineKind::Cards
    )
}

// What a line that begins with this after blanks is by its name and its words, if that tells.
fn kind_by_label(front: &[u8], seen: &LineSeen) -> LineKind {
    let shape = &seen.shape;
    match shape.label {
        LabelKind::Foundations => LineKind::Foundations,
        LabelKind::Cells => LineKind::Cells,
        LabelKind::Columns if shape.cards == 0 && shape.others == 0 => LineKind::Comment,
        _ => kind_by_words(front, seen),
    }
}

fn kind_by_words(front: &[u8], seen: &LineSeen) -> LineKind {
    let (cards, others) = (seen.shape.cards, seen.shape.others);
    let has_colon = front.starts_with(b":");
    let sure = if has_colon {
        cards
    } else {
        cards.saturating_sub(seen.shape.aces)
    };
    if cards == 0 && others == 0 {
        return if has_colon || seen.shape.marks > 1 {
            LineKind::Cards
        } else {
            LineKind::Other
        };
    }
    let is_glued = Words::new(front)
        .next()
        .is_some_and(|word| are_glued(word.text));
    if is_glued || others == 0 && sure > 0 || sure > others && sure.saturating_add(others) >= 3 {
        LineKind::Cards
    } else {
        LineKind::Other
    }
}

// How many cards these bits are.
fn count_of(bits: u64) -> usize {
    usize::from(bits.count_ones() as u16)
}

// The heights of C D H S that the words after the colon say, and where the first word is that says
// none.
fn heights_of(line: &[u8]) -> ([u8; 4], Option<usize>) {
    let mut heights = [0; 4];
    let mut bad: Option<usize> = None;
    let mut suit: Option<usize> = None;
    let mut named = [false; 4];
    let text = uncommented(line);
    let colon = match memchr(b':', text) {
        Some(colon) => colon,
        None => 0,
    };
    for word in Words::new(text) {
        if word.start <= colon {
            continue;
        }
        match said_of_height(word.text, suit) {
            Said::Suit(place) => suit = Some(place),
            Said::Height(place, height) if !named[place % 4] => {
                heights[place % 4] = height;
                named[place % 4] = true;
                suit = None;
            }
            _ => {
                bad = Some(bad.unwrap_or(word.start));
                suit = None;
            }
        }
    }
    if let (Some(_), None) = (suit, bad) {
        bad = Some(colon);
    }
    (heights, bad)
}

/// What a word of the foundations says.
#[derive(Clone, Copy)]
enum Said {
    /// A suit whose height comes next.
    Suit(usize),
    Height(usize, u8),
    Bad,
}

fn said_of_height(word: &[u8], suit: Option<usize>) -> Said {
    match (suit, word) {
        (None, [letter, height @ ..]) => match (suit_of(*letter), height) {
            (Some(place), []) => Said::Suit(place),
            (Some(place), b"0") => Said::Height(place, 0),
            _ => Said::Bad,
        },
        (Some(place), _) => match height_of(word) {
            Some(height) => Said::Height(place, height),
            None => Said::Bad,
        },
        _ => Said::Bad,
    }
}

fn suit_of(letter: u8) -> Option<usize> {
    memchr(letter.to_ascii_uppercase(), b"CDHS")
}

// The height that a word says: 0, or a rank.
fn height_of(word: &[u8]) -> Option<u8> {
    match word {
        b"10" => Some(10),
        [letter] => match memchr(letter.to_ascii_uppercase(), b"0A23456789TJQK") {
            Some(place) => Some(place as u8),
            None => None,
        },
        _ => None,
    }
}

// Where the stars of bold text stand right after the colon of a name, if there are some: they are
// no empty places.
fn bold_after_name(text: &[u8]) -> Option<usize> {
    let colon = before_mark(b':', text).len();
    if text.get(colon..).unwrap_or(b"").starts_with(b":**") {
        Some(colon.saturating_add(1))
    } else {
        None
    }
}
