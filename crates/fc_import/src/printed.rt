//! What fcanon prints, which is imported as it is: no line of it is a guess.
ghost use Rattle.std.specs.Prelude.{◌++◌, ◌<◌, ◌∷◌, ◌≡◌, ◌≢◌, ◌≤◌, [], false, IfOk, IfSome, IsNone};
ghost use Rattle.std.specs.Prelude.{IsSome, length, None, Some, true, ℕ};
ghost use Rattle.fc_card.specs.Types.{Text};
ghost use Rattle.fc_board.specs.Boards.{Board as Layout, IsWellFormed};
ghost use Rattle.fc_board.specs.{Moves.{move_count, MoveList as SaidList}, Play.{Legal}};
ghost use Rattle.fc_text.specs.{Bytes.{line_feed}, Notation.{most_moves, print}, Printed.{text_of}};
ghost use Rattle.fc_record.specs.Grammar.{begins_with, heading_of, is_name};
ghost use Rattle.fc_record.specs.Printing.{after_blank, header_text, list_line};
ghost use Rattle.fc_record.specs.RecordTexts.{header_mark};
ghost use Rattle.fc_import.specs.Import.{IsPrinted};
ghost use Rattle.fc_import.specs.inside.{form_of, KeepsFirst, TakesAsItIs, TakesFirst};
ghost use Rattle.fc_import.specs.Notes.{name_by};

use crate::line::line_len;
use crate::made::{Form, Made, line_of};
use crate::naming::name_given;
use crate::spelled::is_equal;
use crate::tally::Fate;
use fc_board::{Rule, Variant};
use fc_record::push_header;
use fc_text::take_printed;
use std::alloc::{AllocError, Global};

impl<R: Rule> Made<R> {
    /// Takes a record or a list at the front of the text, if it is as fcanon prints it. Returns how
    /// many bytes it has.
    pub(crate) fn take_printed(&mut self, text: &[u8]) -> Result<Option<usize>, AllocError>
        requires { 0 < length text.now }
        ensures takes { IfOk result (λ taken. IfSome taken (λ len.
            TakesFirst R.VARIANT R.game text.now len self.old self.new)) }
        ensures kept { IfOk result (λ taken. IsNone taken → self.new ≡ self.old) }
        ensures found { IsPrinted R.VARIANT R.game self.old.last text.now → IfOk result
            (λ taken. (len : ℕ) × (taken ≡ Some len)
            × KeepsFirst R.VARIANT R.game text.now len self.old self.new) }
    {
        if text[0] == b'@' {
            return self.take_record(text);
        }
        if text[0] == b'>' {
            return self.take_list(text);
        }
        Ok(None)
    }

    // Takes the header and the board at the front of the text, if both are as fcanon prints them
    // and the header gives a name. Returns how many bytes they have.
    fn take_record(&mut self, text: &[u8]) -> Result<Option<usize>, AllocError>
        requires { 0 < length text.now }
        ensures taken { IfOk result (λ taken. IfSome taken (λ len.
            TakesAsItIs R.VARIANT R.game text.now len self.old self.new)) }
        ensures kept { IfOk result (λ taken. IsNone taken → self.new ≡ self.old) }
        ensures found { (name : Text) (board : Layout) (rest : Text) → is_name name ≡ true
            → name ≢ [] → IsWellFormed R.game board
            → text.now ≡ header_text R.VARIANT name ++ (text_of board ++ rest) → IfOk result
            (λ taken. (taken ≡ Some (length (header_text R.VARIANT name ++ text_of board)))
            × (self.new.last ≡ Some board)) }
    {
        let start = line_len(text);
        let line = &text[..start];
        let mut rest = &text[start..];
        let Some(board) = take_printed::<R>(&mut rest) else {
            return Ok(None);
        };
        let Some(name) = printed_name(self.alloc, R::VARIANT, line)? else {
            return Ok(None);
        };
        let end = text.len() - rest.len();
        self.put_name(name, line);
        self.written.extend_from_slice(&text[..end])?;
        self.last = Some(board);
        self.go_on(&text[start..end], Fate::ABoard);
        Ok(Some(end))
    }

    // Takes the list at the front of the text, if it is as fcanon prints it, and legal on the last
    // board. Returns how many bytes it has.
    fn take_list(&mut self, text: &[u8]) -> Result<Option<usize>, AllocError>
        requires some { 0 < length text.now }
        requires no_header { begins_with header_mark text.now ≡ false }
        ensures taken { IfOk result (λ taken. IfSome taken (λ len.
            TakesAsItIs R.VARIANT R.game text.now len self.old self.new)) }
        ensures kept { IfOk result (λ taken. IsNone taken → self.new ≡ self.old) }
        ensures found { (board : Layout) (list : SaidList) (rest : Text)
            → self.old.last ≡ Some board → Legal R.game board list
            → move_count list ≤ most_moves → text.now ≡ list_line list ++ rest → IfOk result
            (λ taken. (taken ≡ Some (length (list_line list)))
            × (self.new.last ≡ Some board)) }
    {
        let len = line_len(text);
        let line = &text[..len];
        let (form, words) = printed_words(line);
        let Some(list) = self.legal_list(form, words)? else {
            return Ok(None);
        };
        if !is_equal(line, line_of(self.alloc, &list)?.as_slice()) {
            return Ok(None);
        }
        self.written.extend_from_slice(line)?;
        self.go_on(line, Fate::AList);
        Ok(Some(len))
    }
}

// The name in the line of a header, if it gives one and is as fcanon prints it.
fn printed_name(alloc: Global, variant: Variant, line: &[u8]) -> Result<Option<Vec<u8>>, AllocError>
    ensures name { IfOk result (λ found. IfSome found (λ name.
        name.items ≡ name_by (heading_of variant line.now))) }
    ensures printed { IfOk result (λ found. IfSome found (λ name.
        line.now ≡ header_text variant name.items)) }
    ensures some { IfOk result (λ found. IfSome found (λ name. name.items ≢ [])) }
    ensures found { (name : Text) → is_name name ≡ true → name ≢ []
        → line.now ≡ header_text variant name → IfOk result (λ found. IsSome found) }
{
    let name = name_given(alloc, variant, line)?;
    if name.is_empty() {
        return Ok(None);
    }
    let mut header = Vec::with_capacity(alloc, line.len())?;
    push_header(variant, name.as_slice(), &mut header)?;
    if is_equal(line, header.as_slice()) {
        Ok(Some(name))
    } else {
        Ok(None)
    }
}

// The form and the moves of a line, if it is a list as fcanon prints it.
fn printed_words(line: &[u8]) -> (Form, &[u8])
    ensures { (list : SaidList) → line.now ≡ list_line list
        → (result.0 ≡ form_of list) × (result.1.now ≡ print list) }
{
    match line {
        [b'>', b'>', words @ ..] => (Form::Runs, before_last(words)),
        [b'>', words @ ..] => (Form::OneCard, before_last(words)),
        _ => (Form::OneCard, line),
    }
}

// The bytes after a blank at the front, and before the last one.
fn before_last(bytes: &[u8]) -> &[u8]
    ensures { (text : Text) → bytes.now ≡ after_blank text ++ line_feed ∷ []
        → result.now ≡ text }
{
    let bytes = match bytes {
        [b' ', rest @ ..] => rest,
        _ => bytes,
    };
    &bytes[..bytes.len().saturating_sub(1)]
}
