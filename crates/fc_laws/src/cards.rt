//! Laws of cards, renamings and orders.
ghost use Rattle.std.specs.{Cmp.Lexicographic.{slice_cmp}, List.{flat_map}, Ordering.{nat_cmp}};
ghost use Rattle.std.specs.Prelude.{◌<◌, ◌↔◌, ◌∷◌, ◌≡◌, ◌≤◌, ◌⊎◌, [], codes, length, map};
ghost use Rattle.std.specs.Prelude.{slice_get, slice_index, ℕ};
ghost use Rattle.fc_card.specs.{CanReorder, card_code, card_of, card_text, inverse_order, IsCard};
ghost use Rattle.fc_card.specs.{IsOrder, IsRed, IsRenaming, pick, places, rank_of, renamed_card};
ghost use Rattle.fc_card.specs.{renamed_code, renaming_product, renaming_text, reordered, suit_of};
ghost use Rattle.fc_card.specs.Types.{Card, Order, Renaming};
ghost use Rattle.fc_laws.specs.BoardExamples.{dcsh, deck_text, first_to_end, first_two_swapped};
ghost use Rattle.fc_laws.specs.BoardExamples.{hcsd};

use arrayvec::ArrayVec;
use fc_card::{Card, Group, Order};

/// A card is the one with its rank and its suit. There are thirteen ranks and four suits.
pub fn parts_make_the_card(card: Card)
    ensures same { card_of (rank_of card) (suit_of card) ≡ card }
    ensures rank_from { 1 ≤ rank_of card }
    ensures rank_to { rank_of card ≤ 13 }
    ensures suit_to { suit_of card < 4 }
{}

/// The red cards are the diamonds and the hearts.
pub fn diamonds_and_hearts_are_red(card: Card)
    ensures { IsRed card ↔ ((suit_of card ≡ 1) ⊎ (suit_of card ≡ 2)) }
{}

/// No two cards are printed alike.
#[tactic(auto, using(fc_card::proofs::Letters::same_card_text))]
pub fn printed_apart(card: Card, other: Card)
    ensures { card_text card ≡ card_text other → card ≡ other }
{}

/// What is composed with a member and then with its inverse is as before, and the inverse of the
/// inverse is the member.
pub fn undone<G: Group>(first: &G, next: &G)
    requires first_member { G.is_member first.now }
    requires next_member { G.is_member next.now }
    requires one_size { G.size first.now ≡ G.size next.now }
    ensures composed { G.product (G.product first.now next.now) (G.inverse_of next.now)
        ≡ first.now }
    ensures twice { G.inverse_of (G.inverse_of next.now) ≡ next.now }
{}

/// What an order makes of a line has as many items, and item i is the one that was at place
/// at(i).
pub fn items_are_where_the_order_says<U>(order: &Order, line: &ArrayVec<U, 8>, place: usize)
    requires order { IsOrder order.now }
    requires can_act { CanReorder (length order.now) line.now }
    requires inside { place < length order.now }
    ensures count { length (reordered order.now line.now).items ≡ length line.now.items }
    ensures item { slice_get (reordered order.now line.now).items place
        ≡ slice_get line.now.items (slice_index order.now place) }
{}

/// A renaming keeps the rank of each card, and the image of a card of the deck is one.
pub fn renaming_keeps_ranks()
    ensures rank { (renaming : Renaming) (card : Card) → IsRenaming renaming
        → rank_of (renamed_card renaming card) ≡ rank_of card }
    ensures suit { (renaming : Renaming) (card : Card) → IsRenaming renaming
        → suit_of (renamed_card renaming card) ≡ slice_index renaming (suit_of card) }
    ensures in_deck { (renaming : Renaming) (card : Card) → IsRenaming renaming → IsCard card
        → IsCard (renamed_card renaming card) }
{}

/// No two cards have one image.
pub fn renamed_apart()
    ensures { (renaming : Renaming) (card other : Card) → IsRenaming renaming
        → renamed_card renaming card ≡ renamed_card renaming other → card ≡ other }
{}

/// A card renamed by one renaming after another is renamed by their product.
pub fn renamed_in_turn()
    ensures { (first next : Renaming) (card : Card) → IsRenaming first → IsRenaming next
        → renamed_card (renaming_product first next) card
        ≡ renamed_card next (renamed_card first card) }
{}

/// The renaming CDHS changes no card.
pub fn renamed_by_identity()
    ensures { (card : Card) → renamed_card (places 4) card ≡ card }
{}

/// The deck is printed in the order of its numbers, suit after suit and rank after rank.
pub fn the_deck_in_order()
    ensures { flat_map card_text (places 52) ≡ deck_text }
{}

/// DCSH and then HCSD is CHDS, and the inverse of HCSD is DSCH.
pub fn renamings_compose()
    ensures first { renaming_text dcsh ≡ codes "DCSH" }
    ensures next { renaming_text hcsd ≡ codes "HCSD" }
    ensures product { renaming_text (renaming_product dcsh hcsd) ≡ codes "CHDS" }
    ensures inverse { renaming_text (inverse_order hcsd) ≡ codes "DSCH" }
{}

/// The order 1 2 0 and then 1 0 2 is 2 1 0, and 1 0 2 makes y x z of x y z.
pub fn orders_compose()
    ensures product { pick first_to_end first_two_swapped ≡ 2 ∷ 1 ∷ 0 ∷ [] }
    ensures items { pick (codes "xyz") first_two_swapped ≡ codes "yxz" }
{}

/// Neither a repeated place nor one past the end makes an order, and C C H S is no renaming. Nine
/// places are one too many, and no places are an order.
pub fn no_orders()
    ensures repeated { ¬ IsOrder (0 ∷ 0 ∷ []) }
    ensures past_the_end { ¬ IsOrder (0 ∷ 2 ∷ []) }
    ensures two_clubs { ¬ IsRenaming (0 ∷ 0 ∷ 2 ∷ 3 ∷ []) }
    ensures nine { ¬ (length (places 9) ≤ 8) }
    ensures none { IsOrder [] }
{}

/// The codes of cards are from 1 to 52, each card has its own, and codes compare as the printed
/// cards do in byte order.
pub fn codes_are_of_cards(card: Card, other: Card)
    ensures from { 1 ≤ card_code card }
    ensures to { card_code card ≤ 52 }
    ensures apart { card_code card ≡ card_code other → card ≡ other }
    ensures byte_order { nat_cmp (card_code card) (card_code other)
        ≡ slice_cmp nat_cmp (card_text card) (card_text other) }
{}

/// Each code from 1 to 52 is the code of a card.
pub fn codes_name_cards()
    ensures { (code : ℕ) → 1 ≤ code → code ≤ 52
        → (card : Card) × (card < 52) × (card_code card ≡ code) }
{}

/// The renamed code of a card is the code of the renamed card, and 0 stays.
pub fn codes_are_renamed_as_cards()
    ensures card { (renaming : Renaming) (card : Card) → IsRenaming renaming
        → renamed_code renaming (card_code card) ≡ card_code (renamed_card renaming card) }
    ensures none { (renaming : Renaming) → renamed_code renaming 0 ≡ 0 }
{}

/// The codes of 2C, AC, KD and TS are 1, 33, 42 and 52. DCSH makes 2, 41, 0 and 51 of 1, 42, 0
/// and 52.
pub fn small_codes()
    ensures codes { map card_code (4 ∷ 0 ∷ 49 ∷ 39 ∷ []) ≡ 1 ∷ 33 ∷ 42 ∷ 52 ∷ [] }
    ensures renamed { map (renamed_code dcsh) (1 ∷ 42 ∷ 0 ∷ 52 ∷ []) ≡ 2 ∷ 41 ∷ 0 ∷ 51 ∷ [] }
    ensures names { flat_map card_text (4 ∷ 0 ∷ 49 ∷ 39 ∷ []) ≡ codes "2CACKDTS" }
{}
