//! Laws of the lines of a table.
ghost use Rattle.std.specs.{Fmt.{decimal}, List.{All, Contains, slice_split}, Prelude.{◌++◌, ◌+◌}};
ghost use Rattle.std.specs.Prelude.{◌<◌, ◌==◌, ◌↔◌, ◌∷◌, ◌≡◌, ◌≢◌, [], codes, drop, length, None};
ghost use Rattle.std.specs.Prelude.{slice_get, slice_index_or, Some, take, true, ℕ};
ghost use Rattle.{fc_board.specs.declared.rule.Variant.{Variant}, fc_card.specs.Types.{Text}};
ghost use Rattle.fc_board.specs.{Boards.{IsWellFormed}, Games.{game_of, renamings_of}};
ghost use Rattle.fc_board.specs.{Moves.{MoveList}, Play.{Wins}};
ghost use Rattle.{fc_canon.specs.{chosen_passage}, fc_text.specs.Bytes.{IsLess, line_feed, tab}};
ghost use Rattle.fc_record.specs.Grammar.{Contents, Heading};
ghost use Rattle.fc_record.specs.Printing.{header_text, name_of, passage_line};
ghost use Rattle.fc_record.specs.Tables.{json_object, json_string, table_fields, table_header};
ghost use Rattle.fc_record.specs.Tables.{table_line, table_object};
ghost use Rattle.fc_collect.specs.Groups.{belong_together, canonical_text, Member, members_among};
ghost use Rattle.fc_collect.specs.Records.{records_of};
ghost use Rattle.fc_laws.specs.CollectionExamples.{seventh_refused, signs_with};

/// Two accepted records belong together exactly if the second and third columns of their lines, the
/// game and the board, are equal; and boards are ordered there as their canonical texts are.
pub fn boards_are_known_by_their_columns()
    ensures together { (member other : Member)
        → IsWellFormed (game_of member.heading.variant) member.contents.board
        → IsWellFormed (game_of other.heading.variant) other.contents.board
        → (belong_together member other ≡ true)
        ↔ (take 2 (drop 1 (table_fields member.number member.heading member.contents))
        ≡ take 2 (drop 1 (table_fields other.number other.heading other.contents))) }
    ensures ordered { (member other : Member)
        → IsWellFormed (game_of member.heading.variant) member.contents.board
        → IsWellFormed (game_of other.heading.variant) other.contents.board
        → IsLess (canonical_text member) (canonical_text other)
        ↔ IsLess (slice_index_or (table_fields member.number member.heading member.contents) 2 [])
        (slice_index_or (table_fields other.number other.heading other.contents) 2 []) }
{}

/// The line of an accepted record, cut at its tabs, has the eight fields and no line feed within.
/// The header is cut into their names.
pub fn lines_have_eight_columns()
    ensures header { (line : Text) × (table_header ≡ line ++ line_feed ∷ [])
        × (slice_split (λ byte. byte == tab) line ≡ codes "name" ∷ codes "variant" ∷ codes "board"
        ∷ codes "renaming" ∷ codes "columns" ∷ codes "cells" ∷ codes "lists" ∷ codes "win" ∷ []) }
    ensures fields { (variant : Variant) (collection : Text) (member : Member)
        → Contains (members_among variant (records_of collection)) member
        → (line : Text) × All (λ byte. byte ≢ line_feed) line
        × (table_line member.number member.heading member.contents ≡ line ++ line_feed ∷ [])
        × (slice_split (λ byte. byte == tab) line
        ≡ table_fields member.number member.heading member.contents)
        × (length (table_fields member.number member.heading member.contents) ≡ 8) }
{}

/// The last column of an accepted record is a dash exactly if none of its lists wins; else it is
/// the number of the first that does, counted from 1. The column before it has how many there are.
pub fn the_first_win_is_named()
    ensures none { (variant : Variant) (collection : Text) (member : Member)
        → Contains (members_among variant (records_of collection)) member
        → slice_index_or (table_fields member.number member.heading member.contents) 7 []
        ≡ codes "-"
        ↔ ((list : MoveList) → Contains member.contents.lists list
        → ¬ Wins (game_of member.heading.variant) member.contents.board list) }
    ensures first { (variant : Variant) (collection : Text) (member : Member)
        (place : ℕ) (list : MoveList)
        → Contains (members_among variant (records_of collection)) member
        → slice_get member.contents.lists place ≡ Some list
        → Wins (game_of member.heading.variant) member.contents.board list
        → ((earlier : ℕ) (other : MoveList) → earlier < place
        → slice_get member.contents.lists earlier ≡ Some other
        → ¬ Wins (game_of member.heading.variant) member.contents.board other)
        → slice_index_or (table_fields member.number member.heading member.contents) 7 []
        ≡ decimal (place + 1) }
    ensures lists { (member : Member)
        → slice_index_or (table_fields member.number member.heading member.contents) 6 []
        ≡ decimal (length member.contents.lists) }
{}

/// The columns hold what other commands print: the two words of a header, and the three of the
/// passage of `canon`.
pub fn columns_hold_what_others_print()
    ensures header { (number : ℕ) (heading : Heading) (contents : Contents)
        → header_text heading.variant (name_of number heading.name)
        ≡ codes "@ " ++ slice_index_or (table_fields number heading contents) 1 []
        ++ codes " " ++ slice_index_or (table_fields number heading contents) 0 []
        ++ line_feed ∷ [] }
    ensures passage { (number : ℕ) (heading : Heading) (contents : Contents)
        → passage_line (chosen_passage (renamings_of heading.variant) contents.board)
        ≡ codes "# renaming " ++ slice_index_or (table_fields number heading contents) 3 []
        ++ codes " columns " ++ slice_index_or (table_fields number heading contents) 4 []
        ++ codes " cells " ++ slice_index_or (table_fields number heading contents) 5 []
        ++ line_feed ∷ [] }
{}

/// The object of a record has the fields of its line in their order: texts as strings, which keep
/// them apart, the number of lists, and the number of the first that wins, or null in place of the
/// dash.
pub fn objects_hold_the_columns()
    ensures none { (number : ℕ) (heading : Heading) (contents : Contents)
        (name variant board renaming columns cells lists : Text)
        → table_fields number heading contents ≡ name ∷ variant ∷ board ∷ renaming ∷ columns ∷ cells
        ∷ lists ∷ codes "-" ∷ []
        → table_object number heading contents ≡ json_object ((codes "name", json_string name)
        ∷ (codes "variant", json_string variant) ∷ (codes "board", json_string board)
        ∷ (codes "renaming", json_string renaming) ∷ (codes "columns", json_string columns)
        ∷ (codes "cells", json_string cells) ∷ (codes "lists", lists)
        ∷ (codes "win", codes "null") ∷ []) }
    ensures first { (number : ℕ) (heading : Heading) (contents : Contents)
        (name variant board renaming columns cells lists win : Text)
        → table_fields number heading contents ≡ name ∷ variant ∷ board ∷ renaming ∷ columns ∷ cells
        ∷ lists ∷ win ∷ [] → win ≢ codes "-"
        → table_object number heading contents ≡ json_object ((codes "name", json_string name)
        ∷ (codes "variant", json_string variant) ∷ (codes "board", json_string board)
        ∷ (codes "renaming", json_string renaming) ∷ (codes "columns", json_string columns)
        ∷ (codes "cells", json_string cells) ∷ (codes "lists", lists) ∷ (codes "win", win) ∷ []) }
    ensures apart { (text other rest more : Text)
        → json_string text ++ rest ≡ json_string other ++ more → text ≡ other }
{}

/// So has that of a refused record its name or its number as a string, the place of its fault in
/// the collection, and the reason: here of names with all their signs, of which a quote and a
/// backslash alone have a backslash before them.
pub fn refusals_have_their_objects()
    ensures named { seventh_refused (Some (signs_with (34 ∷ []) (92 ∷ [])))
        ≡ codes "{\"refused\":\"" ++ signs_with (92 ∷ 34 ∷ []) (92 ∷ 92 ∷ [])
        ++ codes "\",\"place\":111,\"reason\":\"bad header\"}\n" }
    ensures unnamed { seventh_refused None
        ≡ codes "{\"refused\":\"7\",\"place\":111,\"reason\":\"bad header\"}\n" }
{}
