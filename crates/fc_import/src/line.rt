//! The first line of a text.
ghost use Rattle.std.specs.Prelude.{◌++◌, ◌+◌, ◌<◌, ◌∷◌, ◌≡◌, ◌≢◌, ◌≤◌, All, length, take};
ghost use Rattle.{fc_card.specs.Types.{Text}, fc_import.specs.inside.{AreWhole}};
ghost use Rattle.fc_text.specs.{Bytes.{line_feed}, Lines.{lines_from}};

use memchr::memchr;

/// How many bytes the first line of the text has, with the line feed that ends it.
pub(crate) fn line_len(text: &[u8]) -> usize
    requires { 0 < length text.now }
    ensures lines { AreWhole text.now result }
    ensures one { length (lines_from 0 (take result text.now)) ≤ 1 }
    ensures first { (line rest : Text) → All (λ byte. byte ≢ line_feed) line
        → text.now ≡ line ++ line_feed ∷ rest → result ≡ length line + 1 }
{
    match memchr(b'\n', text) {
        Some(place) => place + 1,
        None => text.len(),
    }
}
