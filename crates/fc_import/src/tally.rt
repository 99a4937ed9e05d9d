//! What becomes of each piece of a text, and how many pieces it becomes of.
ghost use Rattle.std.specs.Prelude.{◌++◌, ◌+◌, ◌≡◌, OnOk};
ghost use Rattle.fc_import.specs.Import.{count_text, refusals, refused_by, tally_line};
ghost use Rattle.fc_import.specs.Notes.{counted, line_feeds, plus, tally_of};

use crate::options::Noted;
use crate::walk::line_feeds;
use fc_record::push_number;
use std::alloc::AllocError;

/// What becomes of a piece of a text.
#[derive(Clone, Copy)]
pub(crate) enum Fate {
    /// It names nothing.
    Passed,
    /// It is the last board once more.
    Again,
    ABoard,
    AList,
    RefusedBoard,
    RefusedList,
    /// Prose that names cards.
    LeftOut,
}

/// How many boards and lists are written, how many of either are not taken, and how many lines are
/// left out.
#[derive(Clone, Copy)]
pub(crate) struct Tally {
    pub(crate) boards: usize,
    pub(crate) lists: usize,
    pub(crate) refused_boards: usize,
    pub(crate) refused_lists: usize,
    pub(crate) left_out: usize,
}

impl Tally {
    /// The tally of one piece of this fate.
    pub(crate) fn of(fate: Fate) -> Self
        ensures { result ≡ tally_of fate }
    {
        let mut tally = Tally {
            boards: 0,
            lists: 0,
            refused_boards: 0,
            refused_lists: 0,
            left_out: 0,
        };
        match fate {
            Fate::Passed | Fate::Again => {}
            Fate::ABoard => tally.boards = 1,
            Fate::AList => tally.lists = 1,
            Fate::RefusedBoard => tally.refused_boards = 1,
            Fate::RefusedList => tally.refused_lists = 1,
            Fate::LeftOut => tally.left_out = 1,
        }
        tally
    }

    /// The sum of both.
    pub(crate) fn plus(self, more: Tally) -> Self
        ensures { result ≡ plus self more }
    {
        Tally {
            boards: counted(self.boards, more.boards),
            lists: counted(self.lists, more.lists),
            refused_boards: counted(self.refused_boards, more.refused_boards),
            refused_lists: counted(self.refused_lists, more.refused_lists),
            left_out: counted(self.left_out, more.left_out),
        }
    }

    /// How many boards and lists are not taken.
    pub(crate) fn refusals(self) -> usize
        ensures { result ≡ refusals self }
    {
        counted(self.refused_boards, self.refused_lists)
    }
}

/// How many pieces are refused: boards and lists that are not taken or, in a strict import, those
/// with a note.
pub(crate) fn refused_by(noted: Noted, tally: Tally, notes: &[u8]) -> usize
    ensures { result ≡ refused_by noted tally notes.now }
{
    match noted {
        Noted::Doubts | Noted::Changes => tally.refusals(),
        Noted::Strict => counted(0, line_feeds(notes)),
    }
}

/// The sum, as far as a count goes.
pub(crate) fn counted(number: usize, more: usize) -> usize
    ensures { result ≡ counted (number + more) }
{
    number.saturating_add(more)
}

/// Puts the last line of the notes: how much was taken and was not.
pub(crate) fn push_tally(tally: Tally, notes: &mut Vec<u8>) -> Result<(), AllocError>
    ensures { OnOk result (notes.new.items ≡ notes.old.items ++ tally_line tally) }
{
    notes.extend_from_slice(b"fcanon: ")?;
    push_count(tally.boards, b"board", notes)?;
    notes.extend_from_slice(b", ")?;
    push_count(tally.lists, b"list", notes)?;
    notes.extend_from_slice(b"; not taken: ")?;
    push_count(tally.refused_boards, b"board", notes)?;
    notes.extend_from_slice(b", ")?;
    push_count(tally.refused_lists, b"list", notes)?;
    notes.extend_from_slice(b"; ")?;
    push_count(tally.left_out, b"line", notes)?;
    notes.extend_from_slice(b" left out\n")?;
    Ok(())
}

// Puts so many of these.
fn push_count(number: usize, noun: &[u8], notes: &mut Vec<u8>) -> Result<(), AllocError>
    ensures { OnOk result (notes.new.items ≡ notes.old.items ++ count_text number noun.now) }
{
    push_number(number, notes)?;
    notes.push(b' ')?;
    notes.extend_from_slice(noun)?;
    if number != 1 {
        notes.push(b's')?;
    }
    Ok(())
}
