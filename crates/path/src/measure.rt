// How long the rendering of a path is.
ghost use Rattle.std.specs.Prelude.{◌≡◌, ◌+◌, ◌^◌, ◌≤◌, ◌<◌};
ghost use Rattle.text.specs.Number.{width};
ghost use Rattle.path.specs.Kinds.{carried};
ghost use Rattle.path.specs.Read.{parts_of};
ghost use Rattle.path.specs.Length.{render_length, fixed, name_count, number_count, first_of};

// What a kind has: the bytes of its words, slashes and dashes, how many identifiers, and how many numbers.
#[derive(Clone, Copy)]
struct Sizes {
    fixed: u8,
    names: u8,
    numbers: u8,
}

// The same three numbers of each kind, kind 1 first.
const SIZES: [(u8, u8, u8); 19] = [
    (18, 0, 0),
    (22, 0, 0),
    (19, 0, 0),
    (20, 1, 0),
    (26, 1, 2),
    (40, 1, 2),
    (42, 1, 2),
    (20, 1, 0),
    (12, 1, 0),
    (6, 1, 0),
    (28, 2, 0),
    (33, 2, 0),
    (33, 2, 0),
    (32, 2, 0),
    (39, 2, 1),
    (32, 2, 1),
    (36, 2, 1),
    (16, 1, 1),
    (19, 1, 1),
];

fn sizes_of(kind: u8) -> Sizes
    requires { (1 ≤ kind) × (kind ≤ 19) }
    ensures fixed { result.fixed ≡ fixed (parts_of kind) }
    ensures names { result.names ≡ name_count (parts_of kind) }
    ensures numbers { result.numbers ≡ number_count (parts_of kind) }
{
    let (fixed, names, numbers) = SIZES[(kind - 1) as usize];
    Sizes {
        fixed,
        names,
        numbers,
    }
}

// The bytes of the first n of two identifiers.
fn name_bytes(n: u8, first: usize, second: usize) -> usize
    requires { first + second < 2 ^ 63 }
    ensures value { result ≡ first_of n first second }
    ensures upper_bound { result ≤ first + second }
{
    match n {
        0 => 0,
        1 => first,
        _ => first + second,
    }
}

// How many digits the first n of two numbers have.
fn digits(n: u8, a: u64, b: u64) -> usize
    ensures value { result ≡ first_of n (width a) (width b) }
    ensures upper_bound { result ≤ 40 }
{
    match n {
        0 => 0,
        1 => text::number_width(a),
        _ => text::number_width(a) + text::number_width(b),
    }
}

// The length of the rendering by kind, with identifiers of these lengths. What the kind lacks has no influence.
pub fn render_length(kind: u8, first: usize, second: usize, a: u64, b: u64) -> usize
    requires { (1 ≤ kind) × (kind ≤ 19) × (first + second < 2 ^ 63) }
    ensures { result ≡ render_length (parts_of kind) (carried first second a b) }
{
    let sizes = sizes_of(kind);
    let names = name_bytes(sizes.names, first, second);
    sizes.fixed as usize + names + digits(sizes.numbers, a, b)
}
