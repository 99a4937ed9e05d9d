//! Laws of what `same` prints.
ghost use Rattle.std.specs.Prelude.{◌++◌, ◌↔◌, ◌∷◌, ◌≡◌, [], codes, List, None, Option, Some};
ghost use Rattle.{fc_board.specs.declared.rule.Variant.{Variant}, fc_card.specs.Types.{Text}};
ghost use Rattle.fc_board.specs.{Boards.{IsWellFormed}, Games.{game_of}};
ghost use Rattle.fc_board.specs.Passages.{Carries, Passage};
ghost use Rattle.{fc_canon.specs.{Equivalent}, fc_text.specs.Bytes.{line_feed}};
ghost use Rattle.fc_record.specs.Grammar.{Accepted, Contents, Heading, reading_of, Refused};
ghost use Rattle.fc_record.specs.Printing.{name_of, passage_words, refusal_line};
ghost use Rattle.fc_record.specs.RecordTexts.{RecordText};
ghost use Rattle.fc_record.specs.declared.record.RecordFault.{RecordFault};
ghost use Rattle.fc_collect.specs.{Groups.{Member, members_among}, Runs.{passage_to, same_output}};

/// A passage is printed exactly where the record is of the game of the first one and their boards
/// are equivalent; it leads from the board of the first record to that of the other.
pub fn passages_lead_from_the_first()
    ensures leads { (first member : Member) (passage : Passage)
        → IsWellFormed (game_of first.heading.variant) first.contents.board
        → IsWellFormed (game_of member.heading.variant) member.contents.board
        → passage_to first member ≡ Some passage
        → Carries (game_of first.heading.variant) passage
        first.contents.board member.contents.board }
    ensures apart { (first member : Member)
        → IsWellFormed (game_of first.heading.variant) first.contents.board
        → IsWellFormed (game_of member.heading.variant) member.contents.board
        → (passage_to first member ≡ None) ↔ ¬ ((first.heading.variant ≡ member.heading.variant)
        × Equivalent (game_of first.heading.variant)
        first.contents.board member.contents.board) }
{}

/// For one more record `same` prints, after what it printed for those before: nothing where it is
/// the first that is accepted; else its name and a passage that carries the first board to its own,
/// exactly where there is one in the first one's game, or that it is apart.
pub fn one_more_record_is_led_to_or_apart()
    ensures first { (variant : Variant) (records : List RecordText) (text : RecordText)
        (heading : Heading) (contents : Contents)
        → members_among variant records ≡ []
        → reading_of variant text.bytes ≡ Accepted heading contents
        → same_output variant (records ++ text ∷ []) ≡ same_output variant records }
    ensures led_to { (variant : Variant) (records : List RecordText) (text : RecordText)
        (heading : Heading) (contents : Contents) (first : Member) (others : List Member)
        → members_among variant records ≡ first ∷ others
        → reading_of variant text.bytes ≡ Accepted heading contents
        → first.heading.variant ≡ heading.variant
        → Equivalent (game_of first.heading.variant) first.contents.board contents.board
        → (passage : Passage)
        × Carries (game_of first.heading.variant) passage first.contents.board contents.board
        × (same_output variant (records ++ text ∷ []) ≡ same_output variant records
        ++ name_of text.number heading.name ++ passage_words passage) }
    ensures apart { (variant : Variant) (records : List RecordText) (text : RecordText)
        (heading : Heading) (contents : Contents) (first : Member) (others : List Member)
        → members_among variant records ≡ first ∷ others
        → reading_of variant text.bytes ≡ Accepted heading contents
        → ¬ ((first.heading.variant ≡ heading.variant)
        × Equivalent (game_of first.heading.variant) first.contents.board contents.board)
        → same_output variant (records ++ text ∷ []) ≡ same_output variant records
        ++ name_of text.number heading.name ++ codes " apart" ++ line_feed ∷ [] }
    ensures refused { (variant : Variant) (records : List RecordText) (text : RecordText)
        (name : Option Text) (fault : RecordFault)
        → reading_of variant text.bytes ≡ Refused name fault
        → same_output variant (records ++ text ∷ []) ≡ same_output variant records
        ++ refusal_line text name fault }
{}
