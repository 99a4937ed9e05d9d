//! What is printed for a record alone: by `show`, `canon`, `check`, `expand`, `table` and
//! `symmetries` where it is accepted, and by every command where it is refused.
ghost use Rattle.std.specs.{List.{flat_map}, Prelude.{◌++◌, ◌≡◌, OnOk, ℕ}};
ghost use Rattle.{fc_board.specs.Moves.{ListFits}, fc_card.specs.Types.{Text}};
ghost use Rattle.fc_text.specs.Printed.{text_of};
ghost use Rattle.fc_record.specs.Grammar.{Contents as SaidContents, contents_seen};
ghost use Rattle.fc_record.specs.Grammar.{Heading as SaidHeading, heading_seen};
ghost use Rattle.fc_record.specs.{inside.Fitting.{AllFit}, Printing.{canon_lines, check_lines}};
ghost use Rattle.fc_record.specs.Printing.{expand_lines, image_line, show_lines};
ghost use Rattle.fc_record.specs.Tables.{table_line, table_object};

use crate::record::{Contents, Heading, MoveList};
use fc_board::{Board, Rule};
use fc_canon::{Passage, canon_passage, canon_text};
use fc_text::BoardView;
use std::alloc::{AllocError, Global};

mod heading;
mod lists;
mod object;
mod passage;
mod refusal;
mod symmetries;
mod table;
mod verdict;

use heading::push_heading;
pub(crate) use heading::{BAKERS_GAME_FRONT, EIGHT_OFF_FRONT, FREECELL_FRONT};
pub use heading::{push_header, push_name, push_number};
pub use lists::push_list;
use lists::{push_expanded_lines, push_lists};
pub use object::push_json_string;
use object::{push_board_members, push_list_members, push_passage_members};
use passage::push_passage;
pub use passage::push_passage_words;
pub use refusal::{PrintsRefusal, RefusalLine, RefusalObject};
pub use symmetries::SymmetryLines;
use table::{push_board_fields, push_list_fields, push_passage_fields};
use verdict::push_verdict_lines;

/// What a command prints for each accepted record as it comes.
pub trait PrintsRecord {
    /// What is printed for each refused record.
    type Refusal: PrintsRefusal;

    /// The lines for a record, by its number and what it says.
    ghost lines: { ℕ → SaidHeading → SaidContents → Text };

    /// Prints the lines for the record of this number.
    fn print<R: Rule>(
        alloc: Global,
        number: usize,
        heading: Heading<'_>,
        contents: Contents<'_, R>,
        out: &mut Vec<u8>,
    ) -> Result<(), AllocError>
        ensures printed { OnOk result (out.new.items ≡ out.old.items ++ lines number
            (heading_seen R.VARIANT heading.entry) (contents_seen contents.entry)) };
}

/// The header of each record, its board and its lists.
#[derive(Drop)]
pub struct ShowLines;

impl PrintsRecord for ShowLines {
    type Refusal = RefusalLine;

    ghost lines = { show_lines };

    fn print<R: Rule>(
        _alloc: Global,
        number: usize,
        heading: Heading<'_>,
        contents: Contents<'_, R>,
        out: &mut Vec<u8>,
    ) -> Result<(), AllocError> {
        push_heading(number, R::VARIANT, heading, out)?;
        push_board(&contents, out)?;
        push_lists(contents.lists.as_slice(), out)
    }
}

/// Prints the board of a record: its text is copied where the record has it as it is printed.
fn push_board<R: Rule>(contents: &Contents<'_, R>, out: &mut Vec<u8>) -> Result<(), AllocError>
    ensures printed { OnOk result (out.new.items ≡ out.old.items ++ text_of contents.now.board) }
{
    match contents.printed {
        Some(text) => out.extend_from_slice(text),
        None => push_made(&contents.board, out),
    }
}

/// Prints a board whose text is made. It is a function of its own, so that a text that is copied
/// pays nothing for the room of one that is made.
#[inline(never)]
fn push_made<R: Rule>(board: &Board<R>, out: &mut Vec<u8>) -> Result<(), AllocError>
    ensures printed { OnOk result (out.new.items ≡ out.old.items ++ text_of board.now) }
{
    BoardView::of(board).push_to(out)
}

/// Each record with its canonical board: the passage to it comes after its text, and the lists are
/// images under the passage.
#[derive(Drop)]
pub struct CanonLines;

impl PrintsRecord for CanonLines {
    type Refusal = RefusalLine;

    ghost lines = { canon_lines };

    fn print<R: Rule>(
        _alloc: Global,
        number: usize,
        heading: Heading<'_>,
        contents: Contents<'_, R>,
        out: &mut Vec<u8>,
    ) -> Result<(), AllocError> {
        let passage = canon_passage(&contents.board);
        push_heading(number, R::VARIANT, heading, out)?;
        passage.push_text(&contents.board, out)?;
        push_passage(&passage, out)?;
        push_images(&passage, contents.lists, out)
    }
}

fn push_images<R: Rule>(
    passage: &Passage<R>,
    lists: Vec<MoveList>,
    out: &mut Vec<u8>,
) -> Result<(), AllocError>
    requires fit { AllFit R.game lists.items }
    ensures printed { OnOk result (out.new.items ≡ out.old.items
        ++ flat_map (image_line passage.now) lists.items) }
{
    for list in lists {
        push_image(passage, list, out)?;
    }
    Ok(())
}

/// Prints the line of a list after a passage.
pub fn push_image<R: Rule>(
    passage: &Passage<R>,
    list: MoveList,
    out: &mut Vec<u8>,
) -> Result<(), AllocError>
    requires fits { ListFits R.game list }
    ensures printed { OnOk result (out.new.items ≡ out.old.items ++ image_line passage.now list) }
{
    push_list(&list.into_image(passage), out)
}

/// The verdict on each list of each record, or that there is no list.
#[derive(Drop)]
pub struct CheckLines;

impl PrintsRecord for CheckLines {
    type Refusal = RefusalLine;

    ghost lines = { check_lines };

    fn print<R: Rule>(
        _alloc: Global,
        number: usize,
        heading: Heading<'_>,
        contents: Contents<'_, R>,
        out: &mut Vec<u8>,
    ) -> Result<(), AllocError> {
        if contents.lists.is_empty() {
            push_name(number, heading.name, out)?;
            return out.extend_from_slice(b" no list\n");
        }
        let lists = contents.lists.as_slice();
        push_verdict_lines(number, heading.name, &contents.board, lists, out)
    }
}

/// Each record with its lists as moves of one card.
#[derive(Drop)]
pub struct ExpandLines;

impl PrintsRecord for ExpandLines {
    type Refusal = RefusalLine;

    ghost lines = { expand_lines };

    fn print<R: Rule>(
        alloc: Global,
        number: usize,
        heading: Heading<'_>,
        contents: Contents<'_, R>,
        out: &mut Vec<u8>,
    ) -> Result<(), AllocError> {
        push_heading(number, R::VARIANT, heading, out)?;
        push_board(&contents, out)?;
        push_expanded_lines(alloc, &contents.board, contents.lists.as_slice(), out)
    }
}

/// A line of columns for each record: its name and its game, its canonical board and the passage to
/// it, the number of its lists and of the first that wins.
#[derive(Drop)]
pub struct TableLines;

impl PrintsRecord for TableLines {
    type Refusal = RefusalLine;

    ghost lines = { table_line };

    fn print<R: Rule>(
        _alloc: Global,
        number: usize,
        heading: Heading<'_>,
        contents: Contents<'_, R>,
        out: &mut Vec<u8>,
    ) -> Result<(), AllocError> {
        let least = canon_text(&contents.board);
        push_board_fields(number, heading.name, R::VARIANT, least.text.as_slice(), out)?;
        push_passage_fields(&least.passage, out)?;
        push_list_fields(&contents.board, contents.lists.as_slice(), out)?;
        out.push(b'\n')?;
        Ok(())
    }
}

/// The names of the columns of `TableLines`, in a line.
pub const TABLE_HEADER: &[u8] = b"name\tvariant\tboard\trenaming\tcolumns\tcells\tlists\twin\n";

/// An object of JSON for each record, with these columns as its members.
#[derive(Drop)]
pub struct TableObjects;

impl PrintsRecord for TableObjects {
    type Refusal = RefusalObject;

    ghost lines = { table_object };

    fn print<R: Rule>(
        _alloc: Global,
        number: usize,
        heading: Heading<'_>,
        contents: Contents<'_, R>,
        out: &mut Vec<u8>,
    ) -> Result<(), AllocError> {
        let least = canon_text(&contents.board);
        push_board_members(number, heading.name, R::VARIANT, least.text.as_slice(), out)?;
        push_passage_members(&least.passage, out)?;
        push_list_members(&contents.board, contents.lists.as_slice(), out)
    }
}
