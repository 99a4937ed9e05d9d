//! Laws of the records of a collection, and of what is printed for them.
ghost use Rattle.std.specs.{List.{All, count_by, flat_map}, Prelude.{◌++◌, ◌+◌, ◌-◌, ◌^◌, ◌↔◌}};
ghost use Rattle.std.specs.Prelude.{◌∷◌, ◌≡◌, ◌≤◌, [], Bool, drop, if◌then◌else◌, length, List};
ghost use Rattle.std.specs.Prelude.{map, Ok, Some, true};
ghost use Rattle.{fc_board.specs.declared.rule.Variant.{Variant}, fc_card.specs.Types.{Text}};
ghost use Rattle.fc_board.specs.{Games.{game_of}, Moves.{list_image}};
ghost use Rattle.fc_board.specs.Passages.{carried, identity_passage};
ghost use Rattle.fc_record.specs.Grammar.{Accepted, reading_of, with_header};
ghost use Rattle.fc_record.specs.Printing.{canon_lines, heading_line, image_line, passage_line};
ghost use Rattle.fc_record.specs.Printing.{printed, show_lines};
ghost use Rattle.fc_record.specs.RecordTexts.{ends_line, header_mark, RecordText};
ghost use Rattle.fc_collect.specs.Groups.{canonical_text, members_among, name_of_member};
ghost use Rattle.fc_collect.specs.Groups.{passage_of};
ghost use Rattle.fc_collect.specs.Limits.{AreCountable, largest, most_countable, standard};
ghost use Rattle.fc_collect.specs.Pieces.{header_starts, IsPiece, outputs_of_pieces, placed_after};
ghost use Rattle.fc_collect.specs.{Promises.{Begins, IsWithinLimits}, Records.{cut, finished_from}};
ghost use Rattle.fc_collect.specs.Records.{finished_output, finished_records, limits_after};
ghost use Rattle.fc_collect.specs.Records.{nothing, output_of_records, records_from, records_of};
ghost use Rattle.fc_collect.specs.Records.{whole_output};
ghost use Rattle.fc_collect.specs.Runs.{ending_of_kind, output_of_kind, TransfersWithin};
ghost use Rattle.fc_collect.specs.declared.commands.RunKind.{RunKind, TheVariants.{Show}};
ghost use Rattle.fc_collect.specs.declared.streams.faults.Summary.{Summary};
ghost use Rattle.fc_collect.specs.declared.streams.limits.Limits.{Limits as LimitsValue};

use fc_collect::Limits;

/// The texts that a collection is cut into are its bytes, each where it is, and the records
/// among them are numbered from 1 without a gap.
pub fn texts_are_the_collection()
    ensures bytes { (collection : Text)
        → flat_map (λ text. text.bytes) (cut nothing collection) ≡ collection }
    ensures starts { (collection : Text) (before after : List RecordText) (text : RecordText)
        → cut nothing collection ≡ before ++ text ∷ after
        → text.start ≡ length (flat_map (λ text. text.bytes) before) }
    ensures numbers { (collection : Text) (before after : List RecordText) (text : RecordText)
        → records_of collection ≡ before ++ text ∷ after → text.number ≡ length before + 1 }
{}

/// A collection is cut before each of its lines that begins with `@`, and nowhere else.
pub fn texts_begin_at_headers()
    ensures starts { (collection : Text)
        → map (λ text. text.start) (cut nothing collection) ≡ 0 ∷ header_starts collection }
    ensures first { (collection : Text) (text : RecordText) (rest : List RecordText)
        → cut nothing collection ≡ text ∷ rest → header_starts text.bytes ≡ [] }
    ensures others { (collection : Text) (text : RecordText) (rest : List RecordText)
        → cut nothing collection ≡ text ∷ rest
        → All (λ other. header_starts other.bytes ≡ 0 ∷ []) rest }
{}

/// Two collections one after the other, where the second begins with a header and the first is
/// empty or ends with a line feed, have the records of both.
pub fn records_are_joined()
    ensures texts { (x y : Text) → ends_line x ≡ true
        → cut nothing (x ++ header_mark ∷ y) ≡ cut nothing x
        ++ map (placed_after (length (records_of x)) (length x))
        (drop 1 (cut nothing (header_mark ∷ y))) }
    ensures records { (x y : Text) → ends_line x ≡ true
        → records_of (x ++ header_mark ∷ y) ≡ records_of x
        ++ map (placed_after (length (records_of x)) (length x))
        (records_of (header_mark ∷ y)) }
{}

/// A run that is handed no limits reads a whole collection of at most 16,777,216 bytes and 65,536
/// records. The largest limits are ones that a run can count up to.
pub fn limits_are_numbers()
    ensures records { (collection : Text)
        → records_from standard collection ≡ records_of collection }
    ensures finished { (collection : Text)
        → finished_from standard collection ≡ finished_records collection }
    ensures within { (collection : Text) → IsWithinLimits standard collection
        ↔ (length collection ≤ 16777216 × All (λ text. length text.bytes ≤ 65536
        × text.number ≤ 65536) (cut nothing collection)) }
    ensures reads { standard.reads ≡ 1048576 }
    ensures countable { AreCountable largest }
{}

/// The largest limits are those of a whole collection: of at most 2^60 bytes and as many records,
/// in as many reads. No limits that a run can count up to are larger.
pub fn no_limits_are_larger_than_the_largest()
    ensures records { (collection : Text)
        → records_from largest collection ≡ records_of collection }
    ensures within { (collection : Text) → IsWithinLimits largest collection
        ↔ (length collection ≤ 2 ^ 60 × All (λ text. length text.bytes ≤ 65536
        × text.number ≤ 2 ^ 60) (cut nothing collection)) }
    ensures reads { largest.reads ≡ 2 ^ 60 }
    ensures most { (limits : LimitsValue) → AreCountable limits
        → (limits.records ≤ largest.records) × (limits.bytes ≤ largest.bytes)
        × (limits.reads ≤ largest.reads) }
{}

/// The records of what a run reads are those of these bytes by themselves, numbered and placed from
/// the number and the place that the limits give. No limit is passed exactly if no text has more
/// than 65,536 bytes, none has a number above the greatest, and the bytes end at the greatest place
/// at the latest.
pub fn pieces_are_placed()
    ensures records { (limits : Limits) (read : Text) → 1 ≤ limits.number
        → records_from limits read
        ≡ map (placed_after (limits.number - 1) limits.place) (records_of read) }
    ensures finished { (limits : Limits) (read : Text) → 1 ≤ limits.number
        → finished_from limits read
        ≡ map (placed_after (limits.number - 1) limits.place) (finished_records read) }
    ensures within { (limits : Limits) (read : Text) → 1 ≤ limits.number
        → IsWithinLimits limits read ↔ (limits.place + length read ≤ limits.bytes
        × All (λ text. length text.bytes ≤ 65536
        × limits.number - 1 + text.number ≤ limits.records) (cut nothing read)) }
{}

/// What a run reads may be a piece of a collection, which is handed the number and the place at
/// which it begins: then the records of pieces that begin with headers, and after which a line has
/// ended, are those of the whole, also their counts; and the whole passes no limit exactly where
/// none of the pieces does.
pub fn pieces_are_joined()
    ensures records { (limits : Limits) (x : Text) → ends_line x ≡ true → (y : Text)
        → records_from limits (x ++ header_mark ∷ y)
        ≡ records_from limits x ++ records_from (limits_after limits x) (header_mark ∷ y) }
    ensures counts { (limits : Limits) (x : Text) → ends_line x ≡ true
        → (refuses : RecordText → Bool) (y : Text)
        → count_by refuses (records_from limits (x ++ header_mark ∷ y))
        ≡ count_by refuses (records_from limits x)
        + count_by refuses (records_from (limits_after limits x) (header_mark ∷ y)) }
    ensures within { (limits : Limits) (x : Text) → ends_line x ≡ true → (y : Text)
        → IsWithinLimits limits (x ++ header_mark ∷ y) ↔ (IsWithinLimits limits x
        × IsWithinLimits (limits_after limits x) (header_mark ∷ y)) }
{}

/// So what `show`, `canon`, `check`, `expand`, `symmetries` and `table` print for the pieces is
/// joined to what they print for the whole.
pub fn outputs_of_pieces_are_joined()
    ensures two { (limits : Limits) (x : Text) → ends_line x ≡ true
        → (output_of : RecordText → Text) (y : Text)
        → flat_map output_of (records_from limits (x ++ header_mark ∷ y))
        ≡ flat_map output_of (records_from limits x)
        ++ flat_map output_of (records_from (limits_after limits x) (header_mark ∷ y)) }
    ensures many { (output_of : RecordText → Text) (limits : Limits) (x : Text)
        (pieces : List Text) → ends_line x ≡ true → All IsPiece pieces
        → flat_map output_of (records_from limits (x ++ flat_map (λ piece. piece) pieces))
        ≡ outputs_of_pieces output_of limits (x ∷ pieces) }
{}

/// What is printed for the records of a front is printed first, and what has been printed where a
/// read fails is all that is printed for what comes before the last header; it begins what is
/// printed for all that might have come, with what is printed at the end.
pub fn output_is_joined()
    ensures joined { (output_of : RecordText → Text) (x y : Text) → ends_line x ≡ true
        → Begins (output_of_records output_of x)
        (output_of_records output_of (x ++ header_mark ∷ y)) }
    ensures finished { (output_of : RecordText → Text) (x y : Text)
        → Begins (finished_output output_of x) (finished_output output_of (x ++ y)) }
    ensures begun { (output_of : RecordText → Text) (x y : Text)
        → Begins (finished_output output_of x) (output_of_records output_of (x ++ y)) }
    ensures whole { (output_of : RecordText → Text) (ending : List RecordText → Text)
        (x y : Text)
        → Begins (finished_output output_of x) (whole_output output_of ending (x ++ y)) }
    ensures failed { (output_of : RecordText → Text) (x y : Text) → ends_line x ≡ true
        → header_starts (header_mark ∷ y) ≡ 0 ∷ []
        → finished_output output_of (x ++ header_mark ∷ y) ≡ output_of_records output_of x }
    ensures failed_early { (output_of : RecordText → Text) (x : Text)
        → header_starts x ≡ [] → finished_output output_of x ≡ [] }
{}

/// The records of what `show` prints are the accepted records of the collection, each with its
/// board and its lists, under the name that it was printed with where it had a header; none is
/// refused. So `show` prints of its own output what it printed, but no line of a refused record.
pub fn what_show_prints_is_read_again()
    ensures records { (variant : Variant) (collection : Text)
        → All (λ text. text.number ≤ most_countable) (records_of collection)
        → map (λ text. reading_of variant text.bytes)
        (records_of (output_of_records (printed show_lines variant) collection))
        ≡ map (λ member. Accepted (if member.heading.has_header
        then with_header member.heading.variant (Some (name_of_member member))
        else member.heading) member.contents) (members_among variant (records_of collection)) }
    ensures bytes { (variant : Variant) (collection : Text)
        → All (λ text. text.number ≤ most_countable) (records_of collection)
        → output_of_records (printed show_lines variant)
        (output_of_records (printed show_lines variant) collection)
        ≡ flat_map (λ member. show_lines member.number member.heading member.contents)
        (members_among variant (records_of collection)) }
{}

/// The records of what `canon` prints are the accepted records of the collection, each with its
/// canonical board and the images of its lists after the passage that is printed; none is refused.
pub fn what_canon_prints_is_read_again()
    ensures { (variant : Variant) (collection : Text)
        → All (λ text. text.number ≤ most_countable) (records_of collection)
        → map (λ text. reading_of variant text.bytes)
        (records_of (output_of_records (printed canon_lines variant) collection))
        ≡ map (λ member. Accepted (if member.heading.has_header
        then with_header member.heading.variant (Some (name_of_member member))
        else member.heading) (record {
          board = carried (passage_of member) member.contents.board;
          lists = map (list_image (passage_of member)) member.contents.lists;
        })) (members_among variant (records_of collection)) }
{}

/// What `canon` prints of its own output is the same headers, canonical boards and images, each
/// with the passage that changes nothing, and no line of a refused record.
pub fn canonical_collections_stay()
    ensures { (variant : Variant) (collection : Text)
        → All (λ text. text.number ≤ most_countable) (records_of collection)
        → output_of_records (printed canon_lines variant)
        (output_of_records (printed canon_lines variant) collection)
        ≡ flat_map (λ member. heading_line member.number member.heading ++ canonical_text member
        ++ passage_line (identity_passage (game_of member.heading.variant))
        ++ flat_map (image_line (passage_of member)) member.contents.lists)
        (members_among variant (records_of collection)) }
{}

/// Where a run succeeds and its output is as it was, nothing was due: no record and no end of the
/// collection has output. So a run of `show` that succeeds and writes nothing has read no record.
pub fn an_unmoved_output_was_due_nothing()
    ensures due { (limits : LimitsValue) (kind : RunKind) (variant : Variant)
        (read held : Text) (summary : Summary)
        → TransfersWithin limits kind variant
        (record { input = Some read; left = Some []; before = Some held; after = Some held })
        (Ok summary)
        → output_of_kind kind variant (records_from limits read)
        ++ ending_of_kind kind variant (records_from limits read) ≡ [] }
    ensures show { (limits : LimitsValue) (variant : Variant)
        (read held : Text) (summary : Summary)
        → TransfersWithin limits Show variant
        (record { input = Some read; left = Some []; before = Some held; after = Some held })
        (Ok summary)
        → records_from limits read ≡ [] }
{}

/// What a run that succeeds has written, and its counts, are those that are due to the bytes that
/// it has read, and no others: so the output of another input does not fit where it differs. Where
/// two runs of `show` write the same, the accepted records of both collections are the same, in
/// their boards, lists and games, and in the names that they are printed with.
pub fn the_output_of_another_input_does_not_fit()
    ensures one { (limits : LimitsValue) (kind : RunKind) (variant : Variant)
        (read held after other : Text) (summary counts : Summary)
        → TransfersWithin limits kind variant
        (record { input = Some read; left = Some []; before = Some held; after = Some after })
        (Ok summary)
        → TransfersWithin limits kind variant
        (record { input = Some read; left = Some []; before = Some held; after = Some other })
        (Ok counts)
        → (after ≡ other) × (summary ≡ counts) }
    ensures show { (variant : Variant) (read another held after : Text)
        (summary counts : Summary)
        → TransfersWithin standard Show variant
        (record { input = Some read; left = Some []; before = Some held; after = Some after })
        (Ok summary)
        → TransfersWithin standard Show variant
        (record { input = Some another; left = Some []; before = Some held; after = Some after })
        (Ok counts)
        → map (λ member. Accepted (if member.heading.has_header
        then with_header member.heading.variant (Some (name_of_member member))
        else member.heading) member.contents) (members_among variant (records_of read))
        ≡ map (λ member. Accepted (if member.heading.has_header
        then with_header member.heading.variant (Some (name_of_member member))
        else member.heading) member.contents) (members_among variant (records_of another)) }
{}
