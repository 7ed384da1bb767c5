// Writers into a lent buffer. Each returns the place after what it wrote, so that they stand one after the other.
ghost use Rattle.std.specs.Prelude.{◌≡◌, ◌∷◌, [], ◌+◌, ◌≤◌, ◌<◌, length};
ghost use Rattle.text.specs.Put.{put, text, answer, left};

use crate::Written;
use crate::refusal::NO_ROOM;

// Writes one byte.
pub fn write_byte(out: &mut [u8], at: usize, b: u8) -> usize
    requires { at < length out.old }
    ensures value { result ≡ at + 1 }
    ensures out_after { out.new ≡ put out.old at (b ∷ []) }
{
    out[at] = b;
    at + 1
}

// Copies `src` to out[at..].
pub fn write_text(out: &mut [u8], at: usize, src: &[u8]) -> usize
    requires { at + length src.now ≤ length out.old }
    ensures value { result ≡ at + length src.now }
    ensures out_after { out.new ≡ put out.old at src.now }
{
    for i in 0..src.len() {
        out[at + i] = src[i];
    }
    at + src.len()
}

// Writes `src` from byte 0 on, or refuses where `out` has too little room.
pub fn give(out: &mut [u8], src: &[u8]) -> Written
    ensures value { result ≡ answer (text src.now) (length out.old) }
    ensures out_after { out.new ≡ left (text src.now) out.old }
{
    if out.len() < src.len() {
        return Written {
            refusal: NO_ROOM,
            length: 0,
        };
    }
    let n = write_text(out, 0, src);
    Written {
        refusal: 0,
        length: n as u64,
    }
}
