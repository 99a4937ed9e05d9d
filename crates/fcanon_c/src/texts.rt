//! Texts of boards, and deals.
ghost use Rattle.std.specs.Prelude.{◌<◌, ◌≡◌, ◌≤◌};
ghost use Rattle.{fc_deal.specs.{IsDealNumber}, fcanon_c.specs.{DealsBoard, game_at}};
ghost use Rattle.fc_bytes.specs.{HasFault, HoldsBoard, HoldsNone, ReadsText, WritesText};

use fc_board::{BakersGame, FreeCell};
use fc_bytes::BoardBytes;
use fc_bytes::calls::answers::{DONE, NO_DEAL, NO_GAME};
use fc_bytes::calls::texts::{read_of, write_of};
use fc_deal::{Numbered, deal_board};

const VERSION: u32 = 100;

/// The version of these calls.
#[unsafe(no_mangle)]
pub extern "C" fn fcanon_version() -> u32
    ensures { result ≡ 100 }
{
    VERSION
}

/// The board that a text spells, or its first fault with its place.
#[unsafe(no_mangle)]
pub extern "C" fn fcanon_read(
    game: u32,
    text: &[u8],
    board: &mut BoardBytes,
    place: &mut usize,
) -> u32
    ensures done { result ≡ 0 → ReadsText (game_at game) text.now board.new }
    ensures fault { 64 ≤ result → HasFault (game_at game) text.now result place.new }
    ensures no_game { 3 ≤ game → result ≡ 1 }
    ensures no_other_answer { game < 3 → 0 < result → 64 ≤ result }
    ensures kept { 0 < result → board.new ≡ board.old }
    ensures no_place { result < 64 → place.new ≡ place.old }
{
    in_game!(game, read_of(text, board, place))
}

/// The printed text of a board, and 0 after it.
#[unsafe(no_mangle)]
pub extern "C" fn fcanon_write(game: u32, board: &BoardBytes, text: &mut [u8; 256]) -> u32
    ensures done { result ≡ 0 → WritesText (game_at game) board.now text.new }
    ensures no_game { 3 ≤ game → result ≡ 1 }
    ensures no_board { result ≡ 4 → HoldsNone (HoldsBoard (game_at game)) board.now }
    ensures no_other_answer { game < 3 → 0 < result → result ≡ 4 }
    ensures kept { 0 < result → text.new ≡ text.old }
{
    in_game!(game, write_of(board, text))
}

/// The board of Microsoft's deal with this number. Eight Off has none.
#[unsafe(no_mangle)]
pub extern "C" fn fcanon_deal(game: u32, number: u32, board: &mut BoardBytes) -> u32
    ensures done { result ≡ 0 → (game < 2) × DealsBoard (game_at game) number board.new }
    ensures no_game { 3 ≤ game → result ≡ 1 }
    ensures no_deal { result ≡ 7 → game < 2 → ¬ IsDealNumber number }
    ensures no_other_answer { game < 3 → 0 < result → result ≡ 7 }
    ensures kept { 0 < result → board.new ≡ board.old }
{
    match game {
        0 => deal_of::<FreeCell>(number, board),
        1 => deal_of::<BakersGame>(number, board),
        2 => NO_DEAL,
        _ => NO_GAME,
    }
}

fn deal_of<R: Numbered>(number: u32, board: &mut BoardBytes) -> u32
    ensures done { result ≡ 0 → DealsBoard R.game number board.new }
    ensures no_deal { result ≡ 7 → ¬ IsDealNumber number }
    ensures no_other_answer { 0 < result → result ≡ 7 }
    ensures kept { 0 < result → board.new ≡ board.old }
{
    let Ok(dealt) = deal_board::<R>(number) else {
        return NO_DEAL;
    };
    *board = BoardBytes::of(&dealt);
    DONE
}
