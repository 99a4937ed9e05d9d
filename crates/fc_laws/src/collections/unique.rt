//! Laws of what `unique` prints.
ghost use Rattle.std.specs.{List.{All, flat_map}, Prelude.{◌++◌, ◌∷◌, ◌≡◌, [], false, List, true}};
ghost use Rattle.{fc_board.specs.declared.rule.Variant.{Variant}, fc_card.specs.Types.{Text}};
ghost use Rattle.fc_record.specs.Printing.{is_refused, show_lines};
ghost use Rattle.fc_record.specs.RecordTexts.{ends_line, header_mark, RecordText};
ghost use Rattle.fc_collect.specs.Groups.{leaders_after, members_among, unique_output};
ghost use Rattle.fc_collect.specs.{Pieces.{header_starts}, Promises.{Begins}};
ghost use Rattle.fc_collect.specs.Records.{finished_records, outputs_after, records_of};

/// What is printed for records is printed for each by those before it; where it goes by none of
/// them, it is what each record alone gets.
pub fn outputs_follow_one_another()
    ensures one { (output_of : List RecordText → RecordText → Text) (earlier : List RecordText)
        (text : RecordText) → outputs_after output_of earlier (text ∷ []) ≡ output_of earlier text }
    ensures more { (output_of : List RecordText → RecordText → Text)
        (earlier texts more : List RecordText)
        → outputs_after output_of earlier (texts ++ more) ≡ outputs_after output_of earlier texts
        ++ outputs_after output_of (earlier ++ texts) more }
    ensures alone { (output_of : RecordText → Text) (texts : List RecordText)
        → outputs_after (λ earlier. output_of) [] texts ≡ flat_map output_of texts }
{}

/// What is printed for the records of a front is printed first, also where it goes by the records
/// before; and what has been printed where a read fails is all that is printed for what comes
/// before the last header, and begins what is printed for all that might have come.
pub fn outputs_are_joined()
    ensures joined { (output_of : List RecordText → RecordText → Text) (x y : Text)
        → ends_line x ≡ true → Begins (outputs_after output_of [] (records_of x))
        (outputs_after output_of [] (records_of (x ++ header_mark ∷ y))) }
    ensures finished { (output_of : List RecordText → RecordText → Text) (x y : Text)
        → Begins (outputs_after output_of [] (finished_records x))
        (outputs_after output_of [] (finished_records (x ++ y))) }
    ensures begun { (output_of : List RecordText → RecordText → Text) (x y : Text)
        → Begins (outputs_after output_of [] (finished_records x))
        (outputs_after output_of [] (records_of (x ++ y))) }
    ensures failed { (output_of : List RecordText → RecordText → Text) (x y : Text)
        → ends_line x ≡ true → header_starts (header_mark ∷ y) ≡ 0 ∷ []
        → outputs_after output_of [] (finished_records (x ++ header_mark ∷ y))
        ≡ outputs_after output_of [] (records_of x) }
    ensures failed_early { (output_of : List RecordText → RecordText → Text) (x : Text)
        → header_starts x ≡ [] → outputs_after output_of [] (finished_records x) ≡ [] }
{}

/// Where none of the records is refused, `unique` prints those that lead the groups as `show`
/// prints them.
pub fn unique_prints_the_leaders()
    ensures { (variant : Variant) (records : List RecordText)
        → All (λ text. is_refused variant text ≡ false) records
        → unique_output variant records
        ≡ flat_map (λ member. show_lines member.number member.heading member.contents)
        (leaders_after [] (members_among variant records)) }
{}
