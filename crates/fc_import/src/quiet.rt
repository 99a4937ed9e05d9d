//! Which lines pass in silence, which are left out with a note, and which are lists.
ghost use Rattle.std.specs.Prelude.{◌++◌, ◌↔◌, ◌≡◌, ◌⊎◌, All, IfOk, IsTrue, length, OnOk, true};
ghost use Rattle.fc_text.specs.Lines.{lines_from};
ghost use Rattle.fc_import.specs.Import.{AreLists, IsNoBoard, moves_of, moves_of_line};
ghost use Rattle.fc_import.specs.{inside.{IsAside}, Scan.{cards_in, HasFewMoves, is_list, IsProse}};
ghost use Rattle.fc_import.specs.Scan.{IsQuiet, lists_moves, words_of};
ghost use Rattle.fc_import.specs.Seen.{cards_of, IsHeard, IsSeen};

use crate::hearing::{LineHeard, is_drawn, is_in_words};
use crate::scan::{LineSeen, Placed};
use fc_board::Rule;
use fc_text::Lines;
use std::alloc::{AllocError, Global};

/// A line that was seen and heard, with its cards and moves.
#[derive(Drop)]
struct Scanned {
    seen: LineSeen,
    cards: usize,
    heard: LineHeard,
    moves: Vec<u8>,
}

// What the line is.
fn scan_line<R: Rule>(alloc: Global, line: &[u8]) -> Result<Scanned, AllocError>
    ensures seen { IfOk result (λ scanned. IsSeen line.now scanned.seen) }
    ensures cards { IfOk result (λ scanned. scanned.cards ≡ length (cards_in line.now)) }
    ensures heard { IfOk result
        (λ scanned. IsHeard R.game line.now scanned.moves.items scanned.heard) }
{
    let mut placed = Vec::new(alloc);
    let mut moves = Vec::new(alloc);
    let seen = LineSeen::of(line, &mut placed)?;
    let cards = count_of(placed.as_slice());
    let heard = LineHeard::of::<R>(line, &mut moves)?;
    Ok(Scanned {
        seen,
        cards,
        heard,
        moves,
    })
}

impl Scanned {
    // Whether the line, which is this one, is a list.
    fn is_list<R: Rule>(&self, line: &[u8]) -> bool
        requires seen { IsSeen line.now self.now.seen }
        requires heard { IsHeard R.game line.now self.now.moves.items self.now.heard }
        ensures { result ≡ is_list R.game line.now }
    {
        self.heard
            .is_list::<R>(line, &self.seen, self.moves.as_slice())
    }

    // Whether the line, which is this one, lists moves of a solution that may be in words.
    fn lists_moves<R: Rule>(&self, in_words: bool, line: &[u8]) -> bool
        requires seen { IsSeen line.now self.now.seen }
        requires heard { IsHeard R.game line.now self.now.moves.items self.now.heard }
        ensures { result ≡ lists_moves R.game in_words line.now }
    {
        self.is_list::<R>(line) && !(in_words && is_drawn(line))
    }

    // Whether the line, which is this one, names few moves.
    fn has_few_moves<R: Rule>(&self, line: &[u8]) -> bool
        requires seen { IsSeen line.now self.now.seen }
        requires heard { IsHeard R.game line.now self.now.moves.items self.now.heard }
        ensures { IsTrue result → HasFewMoves R.game line.now }
    {
        self.heard
            .has_few_moves::<R>(line, &self.seen, self.moves.as_slice())
    }
}

// How many of these are cards.
fn count_of(placed: &[Placed]) -> usize
    ensures { result ≡ length (cards_of placed.now) }
{
    let mut count = 0;
    for one in placed {
        count += usize::from(one.card.is_some());
    }
    count
}

/// What each of some lines is, of which no board and no list is made.
#[derive(Clone, Copy)]
pub(crate) enum Aside {
    /// It names no card, is no list, and names few moves.
    Quiet,
    /// It is no list, names few moves, and names cards by at most half of its words.
    Prose,
    /// It is a list, or at most half of its words name cards: no board has it.
    NoBoard,
}

/// Whether each line is so.
pub(crate) fn are_aside<R: Rule>(
    alloc: Global,
    aside: Aside,
    lines: &[u8],
) -> Result<bool, AllocError>
    ensures { IfOk result (λ are. IsTrue are
        → All (λ line. IsAside aside R.game line.bytes) (lines_from 0 lines.now)) }
{
    for line in Lines::new(lines) {
        if !is_aside::<R>(alloc, aside, line.text)? {
            return Ok(false);
        }
    }
    Ok(true)
}

fn is_aside<R: Rule>(alloc: Global, aside: Aside, line: &[u8]) -> Result<bool, AllocError>
    ensures { IfOk result (λ is. IsTrue is → IsAside aside R.game line.now) }
{
    match aside {
        Aside::Quiet => is_quiet::<R>(alloc, line),
        Aside::Prose => is_prose::<R>(alloc, line),
        Aside::NoBoard => is_no_board::<R>(alloc, line),
    }
}

fn is_quiet<R: Rule>(alloc: Global, line: &[u8]) -> Result<bool, AllocError>
    ensures { IfOk result (λ quiet. IsTrue quiet → IsQuiet R.game line.now) }
{
    let scanned = scan_line::<R>(alloc, line)?;
    if scanned.cards > 0 || scanned.is_list::<R>(line) {
        return Ok(false);
    }
    Ok(scanned.has_few_moves::<R>(line))
}

fn is_prose<R: Rule>(alloc: Global, line: &[u8]) -> Result<bool, AllocError>
    ensures { IfOk result (λ prose. IsTrue prose → IsProse R.game line.now) }
{
    let scanned = scan_line::<R>(alloc, line)?;
    if scanned.cards > scanned.seen.words / 2 {
        return Ok(false);
    }
    Ok(!scanned.is_list::<R>(line) && scanned.has_few_moves::<R>(line))
}

fn is_no_board<R: Rule>(alloc: Global, line: &[u8]) -> Result<bool, AllocError>
    ensures { IfOk result (λ is. IsTrue is → IsNoBoard R.game line.now) }
{
    let scanned = scan_line::<R>(alloc, line)?;
    Ok(scanned.cards <= scanned.seen.words / 2 || scanned.is_list::<R>(line))
}

/// Whether each line is a list, or has no words.
pub(crate) fn are_lists<R: Rule>(alloc: Global, lines: &[u8]) -> Result<bool, AllocError>
    ensures { IfOk result (λ are. IsTrue are ↔ AreLists R.game lines.now) }
{
    let in_words = is_in_words(lines);
    for line in Lines::new(lines) {
        if !is_list_or_empty::<R>(alloc, in_words, line.text)? {
            return Ok(false);
        }
    }
    Ok(true)
}

fn is_list_or_empty<R: Rule>(alloc: Global, in_words: bool, line: &[u8]) -> Result<bool, AllocError>
    ensures { IfOk result (λ is. IsTrue is ↔ ((lists_moves R.game in_words line.now ≡ true)
        ⊎ (length (words_of line.now) ≡ 0))) }
{
    let scanned = scan_line::<R>(alloc, line)?;
    Ok(scanned.seen.words == 0 || scanned.lists_moves::<R>(in_words, line))
}

/// Puts the moves that the lists among the lines name, each after a blank.
pub(crate) fn push_moves<R: Rule>(
    alloc: Global,
    lines: &[u8],
    moves: &mut Vec<u8>,
) -> Result<(), AllocError>
    ensures { OnOk result (moves.new.items ≡ moves.old.items ++ moves_of R.game lines.now) }
{
    let in_words = is_in_words(lines);
    for line in Lines::new(lines) {
        push_moves_of::<R>(alloc, in_words, line.text, moves)?;
    }
    Ok(())
}

fn push_moves_of<R: Rule>(
    alloc: Global,
    in_words: bool,
    line: &[u8],
    moves: &mut Vec<u8>,
) -> Result<(), AllocError>
    ensures { OnOk result
        (moves.new.items ≡ moves.old.items ++ moves_of_line R.game in_words line.now) }
{
    let scanned = scan_line::<R>(alloc, line)?;
    if scanned.lists_moves::<R>(in_words, line) || scanned.seen.is_number_alone(line) {
        moves.extend_from_slice(scanned.moves.as_slice())?;
    }
    Ok(())
}
