// Which characters beyond ASCII are letters, numbers or white space: a lookup among ranges.
ghost use Rattle.std.specs.Prelude.{◌≡◌, true};
ghost use Rattle.letters.specs.Class.{inside, rises, is_letter, is_blank, LetterIf};

use crate::table::{BLANKS, PART_1, PART_2, PART_3, PART_4};

// Whether v lies in one of the ranges, which rise. A number that is no end of a range has an odd place among the ends just
// where it lies within one.
fn in_ranges(t: &[u32], v: u32) -> bool
    requires { rises 127 t.now ≡ true }
    ensures { result ≡ inside v t.now }
{
    match t.binary_search(&v) {
        Ok(_) => true,
        Err(i) => i % 2 == 1,
    }
}

// Whether v is of a long range of Latin, Greek, Cyrillic, Han or Hangul letters: most letters are, and are told without a table.
fn is_common(v: u32) -> bool
    ensures { LetterIf result v }
{
    matches!(
        v,
        216..=246
            | 248..=705
            | 910..=929
            | 931..=1013
            | 1015..=1153
            | 19968..=42124
            | 44032..=55203
    )
}

// Whether the character beyond ASCII is a letter or a number; one that is not common is looked for in the part of the table that
// it can stand in.
pub fn is_letter(v: u32) -> bool
    ensures { result ≡ is_letter v }
{
    if is_common(v) {
        return true;
    }
    match v {
        0..2048 => in_ranges(&PART_1, v),
        2048..8192 => in_ranges(&PART_2, v),
        8192..65536 => in_ranges(&PART_3, v),
        _ => in_ranges(&PART_4, v),
    }
}

// Whether the character beyond ASCII is white space.
pub fn is_blank(v: u32) -> bool
    ensures { result ≡ is_blank v }
{
    in_ranges(&BLANKS, v)
}
