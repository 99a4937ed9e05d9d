//! Canonical boards of published rows, their passages and symmetries.
use fc_board::{BakersGame, EightOff, FreeCell, Rule};
use fc_canon::{Canon, Passage, canon, same, symmetries};
use fc_card::Suit::{self, C, D, H, S};
use fc_card::{Order, Renaming};
use fc_text::{read_board, write_board};

const ALL_HOME: &[u8] =
    b"Foundations: H-K C-K D-K S-K\nFreecells: - - - -\n:\n:\n:\n:\n:\n:\n:\n:\n";

const CLUBS_AND_DIAMONDS: &[u8] = b"Foundations: H-K C-Q D-Q S-K\n: KC\n: KD\n";

const CLUBS_AND_SPADES: &[u8] = b"Foundations: H-K C-Q D-K S-Q\n: KC\n: KS\n";

const TWO_COLOURS: &[u8] =
    b"Foundations: H-K C-K D-Q S-Q\nFreecells: - - - -\n:\n:\n:\n:\n:\n:\n: KD\n: KS\n";

const EIGHT_OFF_SEVEN: &[u8] = b"Foundations: H-K C-K D-K S-J\nFreecells: QS - - - - - - KS\n";

// Texts of boards of a game, with the canonical text of each and the passage to it: the images of C
// D H S, the columns by their numbers from 1 on and the cells by their letters.
static FREECELL: [(&[u8], &[u8], [&[u8]; 3]); 9] = [
    (
        b": JD KD 2S 4C 3S 6D 6S\n: 2D KC KS 5C TD 8S 9C\n: 9H 9S 9D TS 4S 8D 2H\n: JC 5S QD QH TH QS 6H\n: 5D AD JS 4H 8H 6C\n: 7H QC AS AC 2C 3D\n: 7C KH AH 4D JH 8C\n: 5H 3H 3C 7S 7D TC\n",
        b"Foundations: H-0 C-0 D-0 S-0\nFreecells: - - - -\n: 2C KD KH 5D TC 8H 9D\n: 5C AC JH 4S 8S 6D\n: 5S 3S 3D 7H 7C TD\n: 7D KS AS 4C JS 8D\n: 7S QD AH AD 2D 3C\n: 9S 9H 9C TH 4H 8C 2S\n: JC KC 2H 4D 3H 6C 6H\n: JD 5H QC QS TS QH 6S\n",
        [b"DCSH", b"25876314", b"abcd"],
    ),
    (
        b"Foundations: H-K C-Q D-K S-K\nFreecells: - - - -\n:\n:\n: KC\n",
        b"Foundations: H-K C-K D-K S-Q\nFreecells: - - - -\n:\n:\n:\n:\n:\n:\n:\n: KS\n",
        [b"SDHC", b"12456783", b"abcd"],
    ),
    (ALL_HOME, ALL_HOME, [b"CDHS", b"12345678", b"abcd"]),
    (
        CLUBS_AND_DIAMONDS,
        TWO_COLOURS,
        [b"DSCH", b"34567812", b"abcd"],
    ),
    (
        CLUBS_AND_SPADES,
        b"Foundations: H-K C-Q D-K S-Q\nFreecells: - - - -\n:\n:\n:\n:\n:\n:\n: KC\n: KS\n",
        [b"CDHS", b"34567812", b"abcd"],
    ),
    (
        b": 7D TD TH KD 4C 4S JD\n: AD 7S QC 5H QS TS KS\n: 5C QD 3H 9S 9C 2H KC\n: 3S AC 9D 3C 9H 5D 4H\n: 5S 6D 6S 8S 7C JC\n: 8C 8H 8D 7H 6H 6C\n: 2D AS 3D 4D 2C JH\n: AH KH TC JS 2S QH\n",
        b"Foundations: H-0 C-0 D-0 S-0\nFreecells: - - - -\n: 2C AD 3C 4C 2H JS\n: 3D AH 9C 3H 9S 5C 4S\n: 5D 6C 6D 8D 7H JH\n: 5H QC 3S 9D 9H 2S KH\n: 7C TC TS KC 4H 4D JC\n: 8H 8S 8C 7S 6S 6H\n: AC 7D QH 5S QD TD KD\n: AS KS TH JD 2D QS\n",
        [b"HCSD", b"74531628", b"abcd"],
    ),
    (
        b"KC\nQC\n\nJC\nFound: H-K C-T D-K S-K\n",
        b"Foundations: H-K C-K D-K S-T\nFreecells: - - - -\n:\n:\n:\n:\n:\n: JS\n: KS\n: QS\n",
        [b"SDHC", b"35678412", b"abcd"],
    ),
    (
        b": AC AD AH AS 2C 2D 2H 2S 3C 3D 3H 3S 4C 4D 4H 4S 5C 5D 5H 5S 6C 6D 6H 6S 7C 7D 7H 7S 8C 8D 8H 8S 9C 9D 9H 9S TC TD TH TS JC JD JH JS QC QD QH QS KC KD KH KS\n",
        b"Foundations: H-0 C-0 D-0 S-0\nFreecells: - - - -\n:\n:\n:\n:\n:\n:\n:\n: AC AD AH AS 2C 2D 2H 2S 3C 3D 3H 3S 4C 4D 4H 4S 5C 5D 5H 5S 6C 6D 6H 6S 7C 7D 7H 7S 8C 8D 8H 8S 9C 9D 9H 9S TC TD TH TS JC JD JH JS QC QD QH QS KC KD KH KS\n",
        [b"CDHS", b"23456781", b"abcd"],
    ),
    (TWO_COLOURS, TWO_COLOURS, [b"CDHS", b"12345678", b"abcd"]),
];

static BAKERS_GAME: [(&[u8], &[u8], [&[u8]; 3]); 2] = [
    (
        CLUBS_AND_DIAMONDS,
        TWO_COLOURS,
        [b"DSCH", b"34567812", b"abcd"],
    ),
    (
        CLUBS_AND_SPADES,
        TWO_COLOURS,
        [b"DCHS", b"34567812", b"abcd"],
    ),
];

static EIGHT_OFF: [(&[u8], &[u8], [&[u8]; 3]); 1] = [(
    EIGHT_OFF_SEVEN,
    b"Foundations: H-J C-K D-K S-K\nFreecells: - - - - - - KH QH\n:\n:\n:\n:\n:\n:\n:\n:\n",
    [b"CDSH", b"12345678", b"bcdefgka"],
)];

// The images of C D H S by their letters.
fn letters(renaming: Renaming) -> [u8; 4] {
    [
        renaming.apply(C).letter(),
        renaming.apply(D).letter(),
        renaming.apply(H).letter(),
        renaming.apply(S).letter(),
    ]
}

// Whether the order has these places, each of which goes by its letter.
fn are_places(order: &Order, places: &[u8], letters: &[u8]) -> bool {
    for place in 0..order.len() {
        if places.get(place) != letters.get(order.at(place)) {
            return false;
        }
    }
    places.len() == order.len()
}

// Whether the canonical board and the passage to it are written so.
fn is_written<R: Rule>(
    found: &Canon<R>,
    text: &[u8],
    [images, columns, cells]: [&[u8]; 3],
) -> bool {
    found.text.as_slice() == text
        && write_board(&found.board).as_slice() == text
        && letters(found.passage.renaming()).as_slice() == images
        && are_places(found.passage.columns(), columns, b"12345678")
        && are_places(found.passage.cells(), cells, b"abcdefgk")
}

// Whether the board of each text has its canonical text, by its passage.
fn are_canonical<R: Rule>(rows: &[(&[u8], &[u8], [&[u8]; 3])]) -> bool {
    for &(text, canonical, passage) in rows {
        match read_board::<R>(text) {
            Ok(board) if is_written(&canon(&board), canonical, passage) => (),
            _ => return false,
        }
    }
    true
}

#[test]
fn canonical_boards(rt: HostRuntime) {
    assert!(rt; are_canonical::<FreeCell>(&FREECELL));
    assert!(rt; are_canonical::<BakersGame>(&BAKERS_GAME));
    assert!(rt; are_canonical::<EightOff>(&EIGHT_OFF));
}

// Whether the board of the text has these symmetries, by their words.
fn has_symmetries<R: Rule>(text: &[u8], words: &[&[u8]]) -> bool {
    let Ok(board) = read_board::<R>(text) else {
        return false;
    };
    let found = symmetries(&board);
    for (place, renaming) in found.as_slice().iter().enumerate() {
        if words.get(place).copied() != Some(letters(*renaming).as_slice()) {
            return false;
        }
    }
    found.len() == words.len()
}

#[test]
fn symmetries_of_two_kings(rt: HostRuntime) {
    assert!(rt; has_symmetries::<FreeCell>(CLUBS_AND_DIAMONDS, &[b"CDHS", b"DCSH"]));
    assert!(rt;
        has_symmetries::<FreeCell>(CLUBS_AND_SPADES, &[b"CDHS", b"CHDS", b"SDHC", b"SHDC"])
    );
    assert!(rt;
        has_symmetries::<BakersGame>(CLUBS_AND_DIAMONDS, &[b"CDHS", b"CDSH", b"DCHS", b"DCSH"])
    );
    assert!(rt;
        has_symmetries::<EightOff>(
            EIGHT_OFF_SEVEN,
            &[b"CDHS", b"CHDS", b"DCHS", b"DHCS", b"HCDS", b"HDCS"]
        )
    );
}

// Whether the passage between the equivalent boards of the two texts carries the one onto the other;
// `None` where they are not equivalent.
fn are_same<R: Rule>(text: &[u8], other: &[u8]) -> Option<bool> {
    match (read_board::<R>(text), read_board::<R>(other)) {
        (Ok(board), Ok(other)) => {
            let image = same(&board, &other)?.carry(&board);
            Some(write_board(&image) == write_board(&other))
        }
        _ => Some(false),
    }
}

#[test]
fn two_kings_in_two_games(rt: HostRuntime) {
    assert!(rt; are_same::<FreeCell>(CLUBS_AND_DIAMONDS, CLUBS_AND_SPADES).is_none());
    assert!(rt; are_same::<BakersGame>(CLUBS_AND_DIAMONDS, CLUBS_AND_SPADES) == Some(true));
    assert!(rt; are_same::<FreeCell>(CLUBS_AND_DIAMONDS, TWO_COLOURS) == Some(true));
}

static EIGHT: [u8; 8] = [7, 6, 5, 4, 3, 2, 1, 0];

static FOUR: [u8; 4] = [1, 0, 3, 2];

fn is_passage<R: Rule>(images: [Suit; 4], columns: &[u8], cells: &[u8]) -> bool {
    match (
        Renaming::new(images),
        Order::new(columns),
        Order::new(cells),
    ) {
        (Some(renaming), Some(columns), Some(cells)) => {
            Passage::<R>::new(renaming, columns, cells).is_some()
        }
        _ => false,
    }
}

#[test]
fn parts_of_passages(rt: HostRuntime) {
    assert!(rt; is_passage::<FreeCell>([D, C, S, H], &EIGHT, &FOUR));
    assert!(rt; !is_passage::<FreeCell>([C, D, S, H], &EIGHT, &FOUR));
    assert!(rt; is_passage::<BakersGame>([C, D, S, H], &EIGHT, &FOUR));
    assert!(rt; !is_passage::<FreeCell>([D, C, S, H], &EIGHT[4..], &FOUR));
    assert!(rt; !is_passage::<FreeCell>([D, C, S, H], &EIGHT, &EIGHT));
    assert!(rt; is_passage::<EightOff>([D, C, S, H], &EIGHT, &EIGHT));
}
