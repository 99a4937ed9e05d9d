//! The marks between the words of a line, and how a line looks. Nothing is promised of it but where
//! a card is put, and which marks end a column.
ghost use Rattle.std.specs.Prelude.{◌≡◌};
ghost use Rattle.fc_import.specs.Import.{ends_column};

use crate::labels::{LabelKind, label_of};
use crate::scan::Placed;
use crate::words::{Word, Words, before_mark};
use fc_card::Card;
use memchr::memchr;

/// How a line looks.
#[derive(Clone, Copy, Debug, Default)]
pub(crate) struct Shape {
    pub(crate) label: LabelKind,
    /// How many bytes of blanks and marks the line has after its label before the first card or the
    /// first mark for no card, and how many tabs.
    pub(crate) indent: usize,
    pub(crate) tabs: usize,
    /// The places without a card before the first card, and before the last one.
    pub(crate) lead: usize,
    pub(crate) gaps: usize,
    /// The marks for no card.
    pub(crate) marks: usize,
    /// Whether a mark that parts fields came between any two words, and the fewest and the most
    /// blanks between two.
    pub(crate) is_parted: bool,
    pub(crate) least_run: usize,
    pub(crate) most_run: usize,
    pub(crate) cards: usize,
    /// The words that name no card, but for those of the label, and where the first one is.
    pub(crate) others: usize,
    pub(crate) other: usize,
    /// The aces that are written with a 1.
    pub(crate) aces: usize,
    /// The cards by their numbers, as bits.
    pub(crate) bits: u64,
}

impl Shape {
    /// A line with this label and without cards.
    pub(crate) fn new(label: LabelKind) -> Self {
        Shape {
            label,
            is_parted: true,
            least_run: usize::MAX,
            ..Shape::default()
        }
    }

    /// Sees a word or a mark that names no card.
    pub(crate) fn see_other(&mut self, at: usize) {
        if self.others == 0 {
            self.other = at;
        }
        self.others = self.others.saturating_add(1);
    }

    // Sees a card that this word names.
    fn see_card(&mut self, word: &[u8], card: Card) {
        self.cards = self.cards.saturating_add(1);
        let is_one = matches!(word, [b'1', _]);
        self.aces = self.aces.saturating_add(usize::from(is_one));
        self.bits |= 1 << card.number();
    }
}

/// The part of a line before a word, and how the line looks so far.
#[derive(Clone, Copy, Debug, Default)]
pub(crate) struct Front {
    pub(crate) shape: Shape,
    /// Where the label ends, with its mark.
    label_end: usize,
    /// The place after the last word.
    end: usize,
    /// How many marks that part groups were there.
    group: usize,
    /// Whether nothing came after the last mark that parts fields, and whether nothing came yet.
    is_open: bool,
    is_begun: bool,
    /// Whether the last mark opens a bracket, and whether a mark that parts fields came since the
    /// last word.
    is_opened: bool,
    is_parted_here: bool,
    /// The empty fields that nothing came after yet, and the places without a card before the next
    /// word, and so far.
    empties: usize,
    pub(crate) gaps_before: usize,
    seen: usize,
}

impl Front {
    /// A line before its first word.
    pub(crate) fn new(text: &[u8]) -> Self {
        let front = before_mark(b':', text);
        let label = label_of(text, front);
        Front {
            shape: Shape::new(label),
            label_end: label_end(text, front, label),
            is_open: true,
            ..Front::default()
        }
    }

    /// Passes the marks up to this place.
    pub(crate) fn pass(&mut self, text: &[u8], start: usize) {
        self.gaps_before = 0;
        self.is_parted_here = false;
        let is_inside = start < text.len();
        if is_inside && start.saturating_sub(self.end) == 1 && text.get(self.end) == Some(&b' ') {
            self.see_run(1);
        } else {
            self.pass_marks(text, start.min(text.len()));
        }
        if is_inside && start >= self.label_end {
            self.fill();
        }
    }

    fn pass_marks(&mut self, text: &[u8], start: usize) {
        let mut run: usize = 0;
        let mut next = self.end.max(self.label_end);
        for at in self.end..start {
            if at < next {
                continue;
            }
            match text.get(at) {
                Some(b' ') => run = run.saturating_add(1),
                Some(byte @ (b',' | b';' | b'|' | b'/' | b'\t')) => {
                    self.pass_separator(*byte, at);
                }
                _ => {
                    next = end_of_mark(text, at, start);
                    self.pass_mark(text, at, next, run);
                    run = 0;
                }
            }
        }
        if start < text.len() {
            self.see_run(run);
        }
    }

    // Sees so many blanks between two words or marks for no card.
    fn see_run(&mut self, run: usize) {
        if self.shape.cards > 0 || self.shape.others > 0 || self.seen > 0 {
            self.shape.least_run = self.shape.least_run.min(run);
            self.shape.most_run = self.shape.most_run.max(run);
            self.shape.is_parted = self.shape.is_parted && self.is_parted_here;
        }
    }

    // Passes a mark that parts fields. With nothing before it, a tab is an indent and a bar begins
    // a table; after a label another one would leave out a field.
    fn pass_separator(&mut self, byte: u8, at: usize) {
        let is_after_label = self.label_end > 0 && self.shape.label != LabelKind::Bare;
        match (byte, self.is_begun) {
            (b'\t', false) if !is_after_label || at == self.label_end || self.shape.tabs > 0 => {
                self.shape.tabs = self.shape.tabs.saturating_add(1);
            }
            (_, false) if is_after_label => self.shape.see_other(at),
            (b'|', false) => {
                self.is_begun = true;
            }
            _ => {
                self.empties = self.empties.saturating_add(usize::from(self.is_open));
                self.is_open = true;
                self.is_begun = true;
                self.is_parted_here = true;
            }
        }
        if ends_column(byte) {
            self.group = self.group.saturating_add(1);
        }
    }

    // Passes a mark between these places, before which there are so many blanks.
    fn pass_mark(&mut self, text: &[u8], start: usize, end: usize, run: usize) {
        let mark = text.get(start..end).unwrap_or(b"");
        let is_after_word = start == self.end && start > self.label_end;
        let is_before_word = end < text.len() && !is_blank(text.get(end));
        let is_opened = self.is_opened;
        self.is_opened = is_all(mark, b"[({<");
        if mark.last().is_some_and(|byte| ends_column(*byte)) {
            self.group = self.group.saturating_add(1);
        }
        if is_after_word || is_before_word {
            let is_between = is_after_word && is_before_word && mark == b"-".as_slice();
            if !is_between && !is_all(mark, b"\"'`[](){}<>*.") {
                self.shape.see_other(start);
            }
            return;
        }
        let is_quote = !self.is_begun && (is_all(mark, b">") || mark == b"+".as_slice());
        if is_gap(mark) || is_opened && mark == b"]".as_slice() {
            self.see_run(run);
            self.see_indent(start);
            self.see_mark();
        } else if is_opened || !(self.is_opened || is_all(mark, b"])}>") || is_quote) {
            self.shape.see_other(start);
        }
    }

    // Sees where the first card or the first mark for no card begins.
    fn see_indent(&mut self, start: usize) {
        if self.shape.cards == 0 && self.shape.marks == 0 {
            self.shape.indent = start.saturating_sub(self.label_end);
        }
    }

    // Sees a mark for no card.
    fn see_mark(&mut self) {
        self.shape.marks = self.shape.marks.saturating_add(1);
        self.empties = self.empties.saturating_add(1);
        self.fill();
    }

    // Sees what is no empty field: those before it are places without a card.
    fn fill(&mut self) {
        self.is_open = false;
        self.is_begun = true;
        self.gaps_before = self.gaps_before.saturating_add(self.empties);
        self.seen = self.seen.saturating_add(self.empties);
        self.empties = 0;
    }

    /// Passes a card that comes one blank after a word of the line, of which one is a card, as most
    /// do. Returns whether it does.
    pub(crate) fn goes_on(&mut self, text: &[u8], word: &Word<'_>, card: Card) -> bool {
        let is_next = word.start.saturating_sub(self.end) == 1
            && text.get(self.end) == Some(&b' ')
            && self.shape.cards > 0;
        if is_next {
            self.end = word.end;
            self.shape.is_parted = false;
            self.shape.least_run = self.shape.least_run.min(1);
            self.shape.most_run = self.shape.most_run.max(1);
            self.shape.gaps = self.seen;
            self.shape.see_card(word.text, card);
        }
        is_next
    }

    /// Passes a word, which is the label's or the line's.
    pub(crate) fn count(&mut self, word: &Word<'_>, card: &Option<Card>) {
        self.end = word.end;
        if word.start < self.label_end {
            return;
        }
        self.is_open = false;
        self.is_begun = true;
        self.is_opened = false;
        let Some(card) = card else {
            self.shape.see_other(word.start);
            return;
        };
        self.see_indent(word.start);
        if self.shape.cards == 0 {
            self.shape.lead = self.seen;
        }
        self.shape.gaps = self.seen;
        self.shape.see_card(word.text, *card);
    }

    /// A card or a gap that is here.
    pub(crate) fn place(&self, card: Option<Card>) -> Placed
        ensures { result.card ≡ card }
    {
        let group = self.group.min(60_000) as u16;
        Placed { card, group }
    }
}

// Where the label of this kind ends, with its mark, of a line that has this before its first colon.
fn label_end(text: &[u8], front: &[u8], label: LabelKind) -> usize {
    if front.len() < text.len() {
        return front.len().saturating_add(1);
    }
    if label == LabelKind::Bare {
        return 0;
    }
    match Words::new(text).next() {
        Some(word) => word.end.saturating_add(1),
        None => 0,
    }
}

// Where the mark at this place ends, at the latest at the second place.
fn end_of_mark(text: &[u8], start: usize, end: usize) -> usize {
    for at in start..end.min(text.len()) {
        if is_blank(Some(&text[at])) {
            return at;
        }
    }
    end
}

fn is_blank(byte: Option<&u8>) -> bool {
    matches!(byte, None | Some(b' ' | b'\t' | b',' | b'|' | b'/' | b';'))
}

// Whether the mark stands for no card.
fn is_gap(mark: &[u8]) -> bool {
    let is_pair = matches!(mark, b"[]" | b"\"\"" | b"''");
    is_pair || mark.len() <= 3 && is_all(mark, b"-*._")
}

// Whether each byte of the mark is one of these.
fn is_all(mark: &[u8], bytes: &[u8]) -> bool {
    mark.iter().all(|byte| memchr(*byte, bytes).is_some())
}

/// Whether a mark ends a column, where one line has all columns.
pub(crate) fn ends_column(byte: u8) -> bool
    ensures { result ≡ ends_column byte }
{
    matches!(byte, b';' | b'|' | b'/' | b']' | b')' | b'}')
}
