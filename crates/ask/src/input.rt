// What the program askpath prints of what one read brings after another, and of the last line.
ghost use Rattle.std.specs.Prelude.{◌≡◌, ◌+◌, ◌-◌, ◌*◌, ◌≤◌, ◌<◌, eqb, length, take, get_or};
ghost use Rattle.text.specs.Put.{Wrote};
ghost use Rattle.ask.specs.Answer.{extra};
ghost use Rattle.ask.specs.Input.{stretch, last_answer, answer_at, line_after, Stepped};

use crate::answer_line;

// How much is held at the front of the input, and how many bytes of answers stand in the output.
#[derive(Clone, Copy)]
pub struct Step {
    pub held: usize,
    pub used: usize,
}

// Where the line that has not ended starts, and the place after the answers.
#[derive(Clone, Copy)]
struct Spot {
    start: usize,
    used: usize,
}

// Takes byte i, and answers the line from `start` on where the byte ends it.
fn answer_byte(input: &[u8], start: usize, i: usize, out: &mut [u8], used: usize, why: bool) -> Spot
    requires start_le_i { (start ≤ i) × (i < length input.now) }
    requires input_in_bounds { used + length (answer_at why (eqb (get_or input.now i 0) 10) (stretch start i input.now)) ≤ length out.old }
    ensures start_bound { result.start ≤ i + 1 }
    ensures input_value { stretch result.start (i + 1) input.now ≡ line_after (get_or input.now i 0) (stretch start i input.now) }
    ensures wrote { Wrote out.old used (answer_at why (eqb (get_or input.now i 0) 10) (stretch start i input.now)) result.used out.new }
{
    if input[i] != b'\n' {
        return Spot { start, used };
    }
    let after = answer_line(out, used, &input[start..i], why);
    Spot {
        start: i + 1,
        used: after,
    }
}

// Moves what stands from `start` to `end` to the front, at most 4,097 bytes of it, and answers how many those are.
fn keep(input: &mut [u8], start: usize, end: usize) -> usize
    requires { (start ≤ end) × (end ≤ length input.old) }
    ensures { Wrote input.old 0 (take 4097 (stretch start end input.old)) result input.new }
{
    let n = (end - start).min(4097);
    input.copy_within(start..start + n, 0);
    n
}

// One read: `from` bytes are held at the front of the input, and those up to `end` are new. Writes the answers to the lines
// that end in them, and leaves the line that has not ended at the front.
pub fn answer_lines(input: &mut [u8], from: usize, end: usize, out: &mut [u8], why: bool) -> Step
    requires from_le_end { (from ≤ end) × (end ≤ length input.old) }
    requires from_in_bounds { 2 * end + extra why (end - from) ≤ length out.old }
    ensures { Stepped why input.old out.old from end result.held result.used input.new out.new }
{
    let mut spot = Spot { start: 0, used: 0 };
    for i in from..end {
        spot = answer_byte(input, spot.start, i, out, spot.used, why);
    }
    let used = spot.used;
    let held = keep(input, spot.start, end);
    Step { held, used }
}

// The last line, if it is not empty.
pub fn answer_last(line: &[u8], out: &mut [u8], why: bool) -> usize
    requires { 2 * (length line.now + 1) + extra why 1 ≤ length out.old }
    ensures { Wrote out.old 0 (last_answer why line.now) result out.new }
{
    if line.is_empty() {
        return 0;
    }
    answer_line(out, 0, line, why)
}
