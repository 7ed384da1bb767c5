// The 64-bit FNV-1a value of a text.
ghost use Rattle.std.specs.Prelude.{◌≡◌, ◌*◌, ◌%◌, ◌^◌, ◌<◌, ◌∷◌};
ghost use Rattle.book_table.specs.Hash.{joined, fnv};
ghost use Rattle.book_table.specs.Table.{home};

// h times 2^40 + 2^8 + 2^7 + 2^5 + 2^4 + 2 + 1, modulo 2^64.
fn wrapping_mul_prime(h: u64) -> u64
    ensures { result ≡ (h * 1099511628211) % 2 ^ 64 }
{
    let a = (h << 40).wrapping_add(h << 8);
    let b = a.wrapping_add(h << 7);
    let c = b.wrapping_add(h << 5);
    let d = c.wrapping_add(h << 4);
    let e = d.wrapping_add(h << 1);
    e.wrapping_add(h)
}

fn join(h: u64, b: u8) -> u64
    ensures { result ≡ joined h b }
{
    wrapping_mul_prime(h ^ u64::from(b))
}

// Of a text with a byte ahead of it.
fn fnv1a(first: u8, s: &[u8]) -> u64
    ensures { result ≡ fnv (first ∷ s.now) }
{
    let mut h = join(14695981039346656037, first);
    for &b in s {
        h = join(h, b);
    }
    h
}

// The bucket at which the walk for an owner's key starts.
pub(crate) fn home(owner: u8, key: &[u8]) -> usize
    ensures { (result ≡ home (owner ∷ key.now)) × (result < 512) }
{
    (fnv1a(owner, key) % 512) as usize
}
