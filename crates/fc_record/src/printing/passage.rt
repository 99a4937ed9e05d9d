//! The line of a passage.
ghost use Rattle.std.specs.Prelude.{◌++◌, ◌+◌, ◌≡◌, ◌≤◌, length, map, OnOk, slice_index, take};
ghost use Rattle.fc_card.specs.{renaming_text};
ghost use Rattle.fc_record.specs.Printing.{passage_line, passage_words};

use fc_board::Rule;
use fc_canon::Passage;
use fc_card::{Order, Renaming, Suit};
use fc_text::put;
use std::alloc::AllocError;

/// Prints the comment that names the passage.
pub(crate) fn push_passage<R: Rule>(
    passage: &Passage<R>,
    out: &mut Vec<u8>,
) -> Result<(), AllocError>
    ensures printed { OnOk result (out.new.items ≡ out.old.items ++ passage_line passage.now) }
{
    out.push(b'#')?;
    push_passage_words(passage, out)
}

/// Prints the words of a passage, up to the line's end: the word of its renaming and, for each new
/// place, the digit of the old column and the letter of the old cell.
pub fn push_passage_words<R: Rule>(
    passage: &Passage<R>,
    out: &mut Vec<u8>,
) -> Result<(), AllocError>
    ensures printed { OnOk result (out.new.items ≡ out.old.items ++ passage_words passage.now) }
{
    let mut line = [0; 64];
    let mut end = put(&mut line, 0, b" renaming ");
    end = put(&mut line, end, &renaming_letters(passage.renaming()));
    end = put(&mut line, end, b" columns ");
    end = put_places(&mut line, end, passage.columns(), 8, b"12345678");
    end = put(&mut line, end, b" cells ");
    end = put_places(&mut line, end, passage.cells(), R::CELLS, b"abcdefgk");
    end = put(&mut line, end, b"\n");
    out.extend_from_slice(&line[..end])
}

/// Prints the letters of the images of clubs, diamonds, hearts and spades.
pub(super) fn push_renaming(renaming: Renaming, out: &mut Vec<u8>) -> Result<(), AllocError>
    ensures printed { OnOk result (out.new.items ≡ out.old.items ++ renaming_text renaming) }
{
    out.extend_from_slice(&renaming_letters(renaming))
}

fn renaming_letters(renaming: Renaming) -> [u8; 4]
    ensures { result ≡ renaming_text renaming }
{
    [
        renaming.apply(Suit::C).letter(),
        renaming.apply(Suit::D).letter(),
        renaming.apply(Suit::H).letter(),
        renaming.apply(Suit::S).letter(),
    ]
}

/// Prints for each new place the letter of the old one.
pub(super) fn push_places(
    order: &Order,
    letters: &[u8; 8],
    out: &mut Vec<u8>,
) -> Result<(), AllocError>
    requires enough { length order.now ≤ 8 }
    ensures printed { OnOk result (out.new.items
        ≡ out.old.items ++ map (slice_index letters.now) order.now) }
{
    let mut places = [0; 8];
    let end = put_places(&mut places, 0, order, order.len(), letters);
    out.extend_from_slice(&places[..end])
}

/// Puts for each of so many new places the letter of the old one, from this place of the line on,
/// and returns where they end. Where the caller knows how many they are, no loop is left.
#[inline(always)]
fn put_places(
    line: &mut [u8],
    start: usize,
    order: &Order,
    count: usize,
    letters: &[u8; 8],
) -> usize
    requires all { count ≡ length order.now }
    requires enough { count ≤ 8 }
    requires room { start + count ≤ length line.old }
    ensures end { result ≡ start + count }
    ensures size { length line.new ≡ length line.old }
    ensures text { take result line.new
        ≡ take start line.old ++ map (slice_index letters.now) order.now }
{
    for place in 0..count {
        line[start + place] = letters[order.at(place)];
    }
    start + count
}
