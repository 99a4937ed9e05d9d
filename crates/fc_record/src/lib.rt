//! A record of a collection: what it says, and what is printed for it alone.
#![tactic(auto)]

mod printing;
mod record;

pub use printing::{
    CanonLines, CheckLines, ExpandLines, PrintsRecord, PrintsRefusal, RefusalLine, RefusalObject,
    ShowLines, SymmetryLines, TABLE_HEADER, TableLines, TableObjects, push_header, push_image,
    push_json_string, push_list, push_name, push_number, push_passage_words,
};
pub use record::{
    Contents, Heading, MoveList, RecordFault, RecordFaultKind, RecordText, Unread, begins_line,
    is_name, read_contents, read_heading,
};
