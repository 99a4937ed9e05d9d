//! What answers mean, in words.
ghost use Rattle.std.specs.Prelude.{◌≡◌};
ghost use Rattle.{fc_bytes.specs.{padded}, fcanon_c.specs.{answer_words}};

/// The words of the answers from 0 on; no call here has one of the answers from 10 to 15.
#[rattlefmt::skip]
static CALLS: [[u8; 20]; 22] = [
    *b"done\0\0\0\0\0\0\0\0\0\0\0\0\0\0\0\0",
    *b"no such game\0\0\0\0\0\0\0\0",
    *b"no passage\0\0\0\0\0\0\0\0\0\0",
    *b"no move\0\0\0\0\0\0\0\0\0\0\0\0\0",
    *b"no board\0\0\0\0\0\0\0\0\0\0\0\0",
    *b"no other board\0\0\0\0\0\0",
    *b"not equivalent\0\0\0\0\0\0",
    *b"no such deal\0\0\0\0\0\0\0\0",
    *b"no such column\0\0\0\0\0\0",
    *b"too little room\0\0\0\0\0",
    *b"no such answer\0\0\0\0\0\0",
    *b"no such answer\0\0\0\0\0\0",
    *b"no such answer\0\0\0\0\0\0",
    *b"no such answer\0\0\0\0\0\0",
    *b"no such answer\0\0\0\0\0\0",
    *b"no such answer\0\0\0\0\0\0",
    *b"not canonical\0\0\0\0\0\0\0",
    *b"not ascending\0\0\0\0\0\0\0",
    *b"won\0\0\0\0\0\0\0\0\0\0\0\0\0\0\0\0\0",
    *b"open\0\0\0\0\0\0\0\0\0\0\0\0\0\0\0\0",
    *b"not closed\0\0\0\0\0\0\0\0\0\0",
    *b"not among the keys\0\0",
];

/// Those of the reasons against a move, from 32 on.
#[rattlefmt::skip]
static REASONS: [[u8; 20]; 9] = [
    *b"same pile\0\0\0\0\0\0\0\0\0\0\0",
    *b"empty source\0\0\0\0\0\0\0\0",
    *b"target taken\0\0\0\0\0\0\0\0",
    *b"kings only\0\0\0\0\0\0\0\0\0\0",
    *b"not building\0\0\0\0\0\0\0\0",
    *b"not next\0\0\0\0\0\0\0\0\0\0\0\0",
    *b"no run\0\0\0\0\0\0\0\0\0\0\0\0\0\0",
    *b"over capacity\0\0\0\0\0\0\0",
    *b"wrong count\0\0\0\0\0\0\0\0\0",
];

/// Those of the faults of a text, from 64 on.
#[rattlefmt::skip]
static FAULTS: [[u8; 20]; 6] = [
    *b"repeated line\0\0\0\0\0\0\0",
    *b"too many columns\0\0\0\0",
    *b"too many cells\0\0\0\0\0\0",
    *b"bad card\0\0\0\0\0\0\0\0\0\0\0\0",
    *b"bad foundation\0\0\0\0\0\0",
    *b"repeated card\0\0\0\0\0\0\0",
];

/// Those of a missing card, from 128 on.
static MISSING: [u8; 20] = *b"missing card\0\0\0\0\0\0\0\0";

static NO_ANSWER: [u8; 20] = *b"no such answer\0\0\0\0\0\0";

/// Where the words of the answer are, with 0 after them.
#[unsafe(no_mangle)]
pub extern "C" fn fcanon_find_answer_text(answer: u32, text: &mut &'static [u8; 20])
    ensures { text.new.now ≡ padded 20 (answer_words answer) }
{
    *text = text_of(answer);
}

fn text_of(answer: u32) -> &'static [u8; 20]
    ensures { result.now ≡ padded 20 (answer_words answer) }
{
    match answer {
        0..=21 => &CALLS[answer as usize],
        32..=40 => &REASONS[answer as usize - 32],
        64..=69 => &FAULTS[answer as usize - 64],
        128..=179 => &MISSING,
        _ => &NO_ANSWER,
    }
}
