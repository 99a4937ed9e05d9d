//! Canonical boards, and passages.
ghost use Rattle.std.specs.Prelude.{◌<◌, ◌≡◌, ◌≤◌, ◌⊎◌};
ghost use Rattle.fc_bytes.specs.{AreApart, Canonicalises, Composes, HoldsBoard, HoldsFirstAlone};
ghost use Rattle.fc_bytes.specs.{HoldsNone, HoldsPassage, Inverts, LeadsToImage, LeadsToOther};
ghost use Rattle.fcanon_c.specs.{game_at, renamings_at};

use fc_bytes::calls::canonical::{canon_of, image_of, inverse_of, same_of, then_of};
use fc_bytes::{BoardBytes, PassageBytes};

/// The canonical board, and the chosen passage to it.
#[unsafe(no_mangle)]
pub extern "C" fn fcanon_canon(
    game: u32,
    board: &BoardBytes,
    canonical: &mut BoardBytes,
    passage: &mut PassageBytes,
) -> u32
    ensures done { result ≡ 0
        → Canonicalises (game_at game) (renamings_at game) board.now canonical.new passage.new }
    ensures no_game { 3 ≤ game → result ≡ 1 }
    ensures no_board { result ≡ 4 → HoldsNone (HoldsBoard (game_at game)) board.now }
    ensures no_other_answer { game < 3 → 0 < result → result ≡ 4 }
    ensures kept { 0 < result → (canonical.new ≡ canonical.old) × (passage.new ≡ passage.old) }
{
    in_game!(game, canon_of(board, canonical, passage))
}

/// A passage from the one board to the other.
#[unsafe(no_mangle)]
pub extern "C" fn fcanon_same(
    game: u32,
    board: &BoardBytes,
    other: &BoardBytes,
    passage: &mut PassageBytes,
) -> u32
    ensures done { result ≡ 0
        → LeadsToOther (game_at game) (renamings_at game) board.now other.now passage.new }
    ensures no_game { 3 ≤ game → result ≡ 1 }
    ensures no_board { result ≡ 4 → HoldsNone (HoldsBoard (game_at game)) board.now }
    ensures no_other { result ≡ 5
        → HoldsFirstAlone (HoldsBoard (game_at game)) (HoldsBoard (game_at game))
        board.now other.now }
    ensures apart { result ≡ 6 → AreApart (game_at game) board.now other.now }
    ensures no_other_answer { game < 3 → 0 < result → (4 ≤ result) × (result ≤ 6) }
    ensures kept { 0 < result → passage.new ≡ passage.old }
{
    in_game!(game, same_of(board, other, passage))
}

/// The passage that leads back.
#[unsafe(no_mangle)]
pub extern "C" fn fcanon_inverse(
    game: u32,
    passage: &PassageBytes,
    inverse: &mut PassageBytes,
) -> u32
    ensures done { result ≡ 0 → Inverts (game_at game) passage.now inverse.new }
    ensures no_game { 3 ≤ game → result ≡ 1 }
    ensures no_passage { result ≡ 2 → HoldsNone (HoldsPassage (game_at game)) passage.now }
    ensures no_other_answer { game < 3 → 0 < result → result ≡ 2 }
    ensures kept { 0 < result → inverse.new ≡ inverse.old }
{
    in_game!(game, inverse_of(passage, inverse))
}

/// The one passage, and then the next.
#[unsafe(no_mangle)]
pub extern "C" fn fcanon_then(
    game: u32,
    first: &PassageBytes,
    next: &PassageBytes,
    both: &mut PassageBytes,
) -> u32
    ensures done { result ≡ 0 → Composes (game_at game) first.now next.now both.new }
    ensures no_game { 3 ≤ game → result ≡ 1 }
    ensures no_passage { result ≡ 2 → HoldsNone (HoldsPassage (game_at game)) first.now
        ⊎ HoldsNone (HoldsPassage (game_at game)) next.now }
    ensures no_other_answer { game < 3 → 0 < result → result ≡ 2 }
    ensures kept { 0 < result → both.new ≡ both.old }
{
    in_game!(game, then_of(first, next, both))
}

/// The board that the passage leads to.
#[unsafe(no_mangle)]
pub extern "C" fn fcanon_image(
    game: u32,
    passage: &PassageBytes,
    board: &BoardBytes,
    image: &mut BoardBytes,
) -> u32
    ensures done { result ≡ 0 → LeadsToImage (game_at game) passage.now board.now image.new }
    ensures no_game { 3 ≤ game → result ≡ 1 }
    ensures no_passage { result ≡ 2 → HoldsNone (HoldsPassage (game_at game)) passage.now }
    ensures no_board { result ≡ 4 → HoldsFirstAlone (HoldsPassage (game_at game))
        (HoldsBoard (game_at game)) passage.now board.now }
    ensures no_other_answer { game < 3 → 0 < result → (result ≡ 2) ⊎ (result ≡ 4) }
    ensures kept { 0 < result → image.new ≡ image.old }
{
    in_game!(game, image_of(passage, board, image))
}
