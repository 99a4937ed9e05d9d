//! Canonical boards, and passages.
ghost use Rattle.std.specs.Prelude.{◌<◌, ◌↔◌, ◌≡◌, ◌≤◌, ◌⊎◌, IsTrue};
ghost use Rattle.fc_bytes.specs.{AreApart, Canonicalises, Composes, HoldsBoard, HoldsFirstAlone};
ghost use Rattle.fc_bytes.specs.{HoldsNone, HoldsPassage, Inverts, LeadsToImage, LeadsToOther};

use crate::calls::answers::{APART, DONE, NO_BOARD, NO_OTHER, NO_PASSAGE};
use crate::{BoardBytes, PassageBytes};
use fc_board::Rule;
use fc_canon::canon_passage;
use fc_card::Group;

/// The canonical board, and the chosen passage to it.
pub fn canon_of<R: Rule>(
    board: &BoardBytes,
    canonical: &mut BoardBytes,
    passage: &mut PassageBytes,
) -> u32
    ensures done { result ≡ 0
        → Canonicalises R.game R.renamings board.now canonical.new passage.new }
    ensures no_board { result ≡ 4 → HoldsNone (HoldsBoard R.game) board.now }
    ensures no_other_answer { 0 < result → result ≡ 4 }
    ensures kept { 0 < result → (canonical.new ≡ canonical.old) × (passage.new ≡ passage.old) }
{
    let Some(held) = board.board::<R>() else {
        return NO_BOARD;
    };
    let found = canon_passage(&held);
    *canonical = BoardBytes::of_carried(&found, &held);
    *passage = PassageBytes::of(&found);
    DONE
}

/// A passage from the one board to the other.
pub fn same_of<R: Rule>(board: &BoardBytes, other: &BoardBytes, passage: &mut PassageBytes) -> u32
    ensures done { result ≡ 0
        → LeadsToOther R.game R.renamings board.now other.now passage.new }
    ensures no_board { result ≡ 4 → HoldsNone (HoldsBoard R.game) board.now }
    ensures no_other { result ≡ 5
        → HoldsFirstAlone (HoldsBoard R.game) (HoldsBoard R.game) board.now other.now }
    ensures apart { result ≡ 6 → AreApart R.game board.now other.now }
    ensures no_other_answer { 0 < result → (4 ≤ result) × (result ≤ 6) }
    ensures kept { 0 < result → passage.new ≡ passage.old }
{
    let Some(held) = board.board::<R>() else {
        return NO_BOARD;
    };
    let Some(next) = other.board::<R>() else {
        return NO_OTHER;
    };
    let way = canon_passage(&held);
    let back = canon_passage(&next);
    let canonical = BoardBytes::of_carried(&way, &held);
    if !are_same(&canonical, &BoardBytes::of_carried(&back, &next)) {
        return APART;
    }
    *passage = PassageBytes::of(&way.then(&back.inverse()));
    DONE
}

fn are_same(bytes: &BoardBytes, other: &BoardBytes) -> bool
    ensures { IsTrue result ↔ (bytes.now ≡ other.now) }
{
    bytes.heights == other.heights
        && bytes.cells == other.cells
        && bytes.lengths == other.lengths
        && bytes.cards == other.cards
}

/// The passage that leads back.
pub fn inverse_of<R: Rule>(passage: &PassageBytes, inverse: &mut PassageBytes) -> u32
    ensures done { result ≡ 0 → Inverts R.game passage.now inverse.new }
    ensures no_passage { result ≡ 2 → HoldsNone (HoldsPassage R.game) passage.now }
    ensures no_other_answer { 0 < result → result ≡ 2 }
    ensures kept { 0 < result → inverse.new ≡ inverse.old }
{
    let Some(way) = passage.passage::<R>() else {
        return NO_PASSAGE;
    };
    *inverse = PassageBytes::of(&way.inverse());
    DONE
}

/// The one passage, and then the next.
pub fn then_of<R: Rule>(first: &PassageBytes, next: &PassageBytes, both: &mut PassageBytes) -> u32
    ensures done { result ≡ 0 → Composes R.game first.now next.now both.new }
    ensures no_passage { result ≡ 2
        → HoldsNone (HoldsPassage R.game) first.now ⊎ HoldsNone (HoldsPassage R.game) next.now }
    ensures no_other_answer { 0 < result → result ≡ 2 }
    ensures kept { 0 < result → both.new ≡ both.old }
{
    let Some(way) = first.passage::<R>() else {
        return NO_PASSAGE;
    };
    let Some(onward) = next.passage::<R>() else {
        return NO_PASSAGE;
    };
    *both = PassageBytes::of(&way.then(&onward));
    DONE
}

/// The board that the passage leads to.
pub fn image_of<R: Rule>(passage: &PassageBytes, board: &BoardBytes, image: &mut BoardBytes) -> u32
    ensures done { result ≡ 0 → LeadsToImage R.game passage.now board.now image.new }
    ensures no_passage { result ≡ 2 → HoldsNone (HoldsPassage R.game) passage.now }
    ensures no_board { result ≡ 4
        → HoldsFirstAlone (HoldsPassage R.game) (HoldsBoard R.game) passage.now board.now }
    ensures no_other_answer { 0 < result → (result ≡ 2) ⊎ (result ≡ 4) }
    ensures kept { 0 < result → image.new ≡ image.old }
{
    let Some(way) = passage.passage::<R>() else {
        return NO_PASSAGE;
    };
    let Some(held) = board.board::<R>() else {
        return NO_BOARD;
    };
    *image = BoardBytes::of_carried(&way, &held);
    DONE
}
