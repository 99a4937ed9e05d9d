//! The lines and words of a board's text, taken one after another.
ghost use Rattle.std.specs.{Option.{option_to_list}, Prelude.{◌<◌, ◌∷◌, ◌≡◌, ◌≤◌, [], false}};
ghost use Rattle.std.specs.Prelude.{IfErr, map, MatchOption, None, set, Some};
ghost use Rattle.fc_card.specs.{IsCard, IsLowest, NoCard, Types.{Text}};
ghost use Rattle.fc_board.specs.Boards.{IsWellFormed};
ghost use Rattle.fc_text.specs.{Faults.{cards_at_home}, reader.{board_known, ends_known, has_room}};
ghost use Rattle.fc_text.specs.reader.{is_begun, is_named_suit, is_seen, known_height, Lays};
ghost use Rattle.fc_text.specs.reader.{nothing_known, seen_of, Sees, TakesPart};
ghost use Rattle.fc_text.specs.Spelling.{card_spelled};
ghost use Rattle.fc_text.specs.declared.board.reader.Section.TheVariants.{Column, Foundations};
ghost use Rattle.fc_text.specs.declared.board.reader.Section.TheVariants.{Freecells};

use crate::BoardFaultKind;
use crate::board::spelling::{Foundation, card_spelled, cell_spelled, foundation_spelled};
use fc_board::{Board, Height, Rule};
use fc_card::{Card, CardSet, Suit};
use std::marker::{Model, PhantomData};

/// What is known of the board while its text is read: one pass in fixed memory. Contracts see the
/// lines, heights, cells and columns that were read, and which cards were seen.
#[derive(Drop)]
pub(crate) struct Reader<R: Rule> {
    kept: Kept,
    rule: PhantomData<R>,
}

/// What a reader keeps of the lines and words that it took.
#[derive(Drop)]
struct Kept {
    foundations_line: bool,
    cells_line: bool,
    heights: [Option<Height>; 4],
    cells: [Option<Card>; 8],
    cell_words: usize,
    /// The cards of the columns, end to end.
    cards: [Card; 52],
    card_count: usize,
    /// Where each column that was begun begins.
    bounds: [u8; 9],
    column_lines: usize,
    seen: CardSet,
}

impl<R: Rule> Model for Reader<R> {
    ghost use Rattle.fc_text.specs.reader.{IsKept, Known, known_of};

    ghost Value = { Known };

    ghost view = { λ reader. known_of reader.kept };

    ghost invariant = { λ reader. IsKept R.CELLS reader.kept };
}

impl<R: Rule> Reader<R> {
    /// Before the first line.
    pub(crate) fn new() -> Reader<R>
        ensures { result ≡ nothing_known }
    {
        let kept = Kept {
            foundations_line: false,
            cells_line: false,
            heights: [None; 4],
            cells: [None; 8],
            cell_words: 0,
            cards: [Card::default(); 52],
            card_count: 0,
            bounds: [0; 9],
            column_lines: 0,
            seen: CardSet::new(),
        };
        Reader {
            kept,
            rule: PhantomData,
        }
    }

    /// Whether a line that holds something was read.
    pub(crate) fn is_begun(&self) -> bool
        ensures { result ≡ is_begun self.now }
    {
        self.kept.foundations_line || self.kept.cells_line || self.kept.column_lines > 0
    }

    /// Whether a further column may come.
    pub(crate) fn has_room(&self) -> bool
        ensures { result ≡ has_room self.now }
    {
        self.kept.column_lines < 8
    }

    /// Takes the beginning of a line, or returns what is at fault in it.
    pub(crate) fn take_line(&mut self, section: Section) -> Result<(), BoardFaultKind>
        ensures taken { TakesPart R.game self.old section None self.new result }
    {
        match section {
            Section::Foundations => self.take_foundations_line(),
            Section::Freecells => self.take_cells_line(),
            Section::Column => self.take_column(),
        }
    }

    fn take_foundations_line(&mut self) -> Result<(), BoardFaultKind>
        ensures taken { TakesPart R.game self.old Foundations None self.new result }
    {
        if self.kept.foundations_line {
            return Err(BoardFaultKind::RepeatedLine);
        }
        self.kept.foundations_line = true;
        Ok(())
    }

    fn take_cells_line(&mut self) -> Result<(), BoardFaultKind>
        ensures taken { TakesPart R.game self.old Freecells None self.new result }
    {
        if self.kept.cells_line {
            return Err(BoardFaultKind::RepeatedLine);
        }
        self.kept.cells_line = true;
        Ok(())
    }

    fn take_column(&mut self) -> Result<(), BoardFaultKind>
        ensures taken { TakesPart R.game self.old Column None self.new result }
    {
        if self.kept.column_lines >= 8 {
            return Err(BoardFaultKind::TooManyColumns);
        }
        self.kept.bounds[self.kept.column_lines] = self.kept.card_count as u8;
        self.kept.column_lines += 1;
        Ok(())
    }

    /// Takes a word of a line, or returns what is at fault in it.
    pub(crate) fn take_word(&mut self, section: Section, word: &[u8]) -> Result<(), BoardFaultKind>
        ensures taken { TakesPart R.game self.old section
            (Some word.now) self.new result }
    {
        match section {
            Section::Foundations => self.take_foundation(word),
            Section::Freecells => self.take_cell(word),
            Section::Column => self.take_card(word),
        }
    }

    fn take_foundation(&mut self, word: &[u8]) -> Result<(), BoardFaultKind>
        ensures taken { TakesPart R.game self.old Foundations (Some word.now) self.new result }
    {
        let Some(foundation) = foundation_spelled(word) else {
            return Err(BoardFaultKind::BadFoundation);
        };
        let Foundation { suit, height } = foundation;
        if is_named(&self.kept.heights, suit) {
            return Err(BoardFaultKind::BadFoundation);
        }
        mark_foundation(&mut self.kept.seen, suit, height)?;
        self.kept.heights[usize::from(suit)] = Some(height);
        Ok(())
    }

    fn take_cell(&mut self, word: &[u8]) -> Result<(), BoardFaultKind>
        ensures taken { TakesPart R.game self.old Freecells (Some word.now) self.new result }
    {
        if self.kept.cell_words >= R::CELLS {
            return Err(BoardFaultKind::TooManyCells);
        }
        let Some(cell) = cell_spelled(word) else {
            return Err(BoardFaultKind::BadCard);
        };
        mark_cell(&mut self.kept.seen, &cell)?;
        put_cell(&mut self.kept.cells, self.kept.cell_words, cell);
        self.kept.cell_words += 1;
        Ok(())
    }

    fn take_card(&mut self, word: &[u8]) -> Result<(), BoardFaultKind>
        ensures taken { TakesPart R.game self.old Column (Some word.now) self.new result }
    {
        let Some(card) = card_spelled(word) else {
            return Err(BoardFaultKind::BadCard);
        };
        self.put_card(card)
    }

    /// Puts a card on the last column, if it was not seen before.
    pub(crate) fn put_card(&mut self, card: Card) -> Result<(), BoardFaultKind>
        requires { IsCard card }
        ensures taken { (word : Text) → card_spelled word ≡ Some card
            → TakesPart R.game self.old Column (Some word) self.new result }
        ensures kept { IfErr result (λ _. self.new ≡ self.old) }
    {
        mark_card(&mut self.kept.seen, card)?;
        self.kept.card_count = lay(
            &mut self.kept.cards,
            self.kept.card_count,
            self.kept.column_lines,
            card,
        );
        Ok(())
    }

    /// The lowest card that was not seen.
    pub(crate) fn lowest_missing(&self) -> Option<Card>
        ensures { MatchOption result (NoCard (λ card. is_seen self.now.seen card ≡ false))
            (IsLowest (λ card. is_seen self.now.seen card ≡ false)) }
    {
        self.kept.seen.lowest_missing()
    }

    /// The board that was read, where it is one.
    pub(crate) fn board(self) -> Board<R>
        requires { IsWellFormed R.game (board_known R.game self) }
        ensures { result ≡ board_known R.game self }
    {
        let ends = ends(
            self.kept.bounds,
            self.kept.column_lines,
            self.kept.card_count,
        );
        Board::of_laid(
            known_heights(self.kept.heights),
            self.kept.cells,
            self.kept.cards,
            ends,
        )
    }
}

/// Whether the suit has a height.
fn is_named(heights: &[Option<Height>; 4], suit: u8) -> bool
    requires { suit < 4 }
    ensures { result ≡ is_named_suit heights.now suit }
{
    heights[usize::from(suit)].is_some()
}

/// Puts what a cell holds at this place.
fn put_cell(cells: &mut [Option<Card>; 8], at: usize, cell: Option<Card>)
    requires { at < 8 }
    ensures { cells.new ≡ set cells.old at cell }
{
    cells[at] = cell;
}

/// Lays the card after so many others, and returns how many cards lie then in so many columns: in
/// the last of them lies this one too, where there are any.
fn lay(cards: &mut [Card; 52], count: usize, columns: usize, card: Card) -> usize
    requires { count < 52 }
    ensures { Lays cards.old count columns card cards.new result }
{
    cards[count] = card;
    if columns == 0 { count } else { count + 1 }
}

/// Where eight columns end, of which so many were begun, and which hold so many cards.
fn ends(bounds: [u8; 9], columns: usize, count: usize) -> [u8; 8]
    requires columns { columns ≤ 8 }
    requires cards { count ≤ 52 }
    ensures { result ≡ ends_known bounds columns count }
{
    let mut all = bounds;
    for at in columns..9 {
        all[at] = count as u8;
    }
    let [_, a, b, c, d, e, f, g, h] = all;
    [a, b, c, d, e, f, g, h]
}

/// The heights of the foundations of C D H S.
fn known_heights(heights: [Option<Height>; 4]) -> [Height; 4]
    ensures { result ≡ map known_height heights }
{
    let [clubs, diamonds, hearts, spades] = heights;
    [
        known_height(clubs),
        known_height(diamonds),
        known_height(hearts),
        known_height(spades),
    ]
}

/// The height of a suit's foundation: 0 where the suit was not named.
fn known_height(height: Option<Height>) -> Height
    ensures { result ≡ known_height height }
{
    match height.or(Height::new(0)) {
        Some(height) => height,
        None => unreachable!(),
    }
}

/// Marks the card as seen, or says that it was seen before.
fn mark_card(seen: &mut CardSet, card: Card) -> Result<(), BoardFaultKind>
    ensures { Sees (seen_of seen.old) (card ∷ []) (seen_of seen.new) result }
{
    if !seen.insert(card) {
        return Err(BoardFaultKind::RepeatedCard);
    }
    Ok(())
}

/// Marks the card in the cell as seen, or says that it was seen before.
fn mark_cell(seen: &mut CardSet, cell: &Option<Card>) -> Result<(), BoardFaultKind>
    ensures { Sees (seen_of seen.old) (option_to_list cell.now) (seen_of seen.new) result }
{
    match cell {
        Some(card) => mark_card(seen, *card),
        None => Ok(()),
    }
}

/// Marks the cards of a foundation as seen, or says that one of them was seen before.
fn mark_foundation(seen: &mut CardSet, suit: u8, height: Height) -> Result<(), BoardFaultKind>
    requires { suit < 4 }
    ensures { Sees (seen_of seen.old)
        (cards_at_home (record { suit = suit; height = height })) (seen_of seen.new) result }
{
    let suit = Suit::from_number(suit);
    if seen.contains_up_to(suit, height.get()) {
        return Err(BoardFaultKind::RepeatedCard);
    }
    seen.insert_up_to(suit, height.get());
    Ok(())
}

/// What a line holds: the foundations, the cells or a column.
#[derive(Clone, Copy, PartialEq, Eq, Debug)]
pub enum Section {
    /// The heights of the foundations.
    Foundations,
    /// The cells, from the first on.
    Freecells,
    /// A column, its last card last.
    Column,
}
