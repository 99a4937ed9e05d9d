//! What a record says: its text, its heading and contents, or why it is refused.
ghost use Rattle.std.specs.{Option.{option_map}, Prelude.{◌≡◌, ◌≤◌, length, take}};
ghost use Rattle.fc_record.specs.inside.Fitting.{AllFit, AllFit-prop, IsPrinted, IsPrinted-prop};
ghost use Rattle.fc_record.specs.RecordTexts.{ends_line};

use fc_board::{Board, Rule};
use fc_text::BoardFaultKind;

mod body;
mod header;
mod move_list;

pub use body::{Unread, read_contents};
pub use header::{is_name, read_heading};
pub use move_list::MoveList;

/// Whether a record has a header, and the name that this gives.
#[derive(Clone, Copy, Debug)]
pub struct Heading<'a> {
    pub has_header: bool,
    /// 1 to 64 printing bytes of ASCII.
    pub name: Option<&'a [u8]>,
}

/// A board and the lists of moves after it.
#[derive(Drop)]
pub struct Contents<'a, R: Rule> {
    pub board: Board<R>,
    /// The text of the board, where it is in the record as it is printed.
    pub printed: Option<&'a [u8]>,
    pub lists: Vec<MoveList>,
    ghost as_printed: { IsPrinted (option_map (λ text. text.now) printed) board } by { IsPrinted-prop (option_map (λ text. text.now) printed) board },
    ghost fit: { AllFit R.game lists.items } by { AllFit-prop R.game lists.items },
}

/// The bytes of a record, with the number that it has and the offset of its first byte.
#[derive(Clone, Copy, Debug)]
pub struct RecordText<'a> {
    /// Records count from 1.
    pub number: usize,
    /// The offset in bytes from the first byte of the collection.
    pub start: usize,
    pub bytes: &'a [u8],
}

/// What is at fault in a record.
#[derive(Clone, Copy, PartialEq, Eq, Debug)]
pub enum RecordFaultKind {
    /// A header that names no game, a name that is too long or has other bytes, or a further word.
    BadHeader,
    /// The board text spells no board.
    Board(BoardFaultKind),
    /// A word of a list that is no move of the game.
    BadToken,
    /// One word more than a list may have moves.
    TooManyMoves,
    /// A line after the first list that is no list, and neither blank nor a comment.
    StrayLine,
}

/// The first fault of a record.
#[derive(Clone, Copy, PartialEq, Eq, Debug)]
pub struct RecordFault {
    /// The offset in bytes of what is at fault, from the first byte of the record.
    pub place: usize,
    /// What is at fault there.
    pub kind: RecordFaultKind,
}

/// Whether what is there from this place on begins a line.
pub fn begins_line(bytes: &[u8], at: usize) -> bool
    requires { at ≤ length bytes.now }
    ensures { result ≡ ends_line (take at bytes.now) }
{
    if at == 0 {
        return true;
    }
    bytes[at - 1] == b'\n'
}
