// Blocks of iteration keys: the check, and the two scans.
ghost use Rattle.std.specs.Prelude.{◌≡◌, true};
ghost use Rattle.iteration.specs.Block.{block_of, follows, is_block, first_above, last_below, scanned};
ghost use Rattle.iteration.specs.Key.{revision_of};
ghost use Rattle.iteration.specs.Search.{passed, Placed};

use crate::{key_at, revision_at};
use path::{Revision, is_below};
use text::refusal::{ABSENT, BAD_BLOCK};

// Whether `key` is above the last one, if there was one.
pub(crate) fn is_next(last: Option<Revision>, key: Revision) -> bool
    ensures { result ≡ follows (revision_of last) key }
{
    last.is_none_or(|p| is_below(p, key))
}

// Whether the bytes are a block: keys one after the other, each above the one before it. The first has none before it.
pub(crate) fn check_block(block: &[u8]) -> bool
    ensures { result ≡ is_block (block_of block.now) }
{
    if block.len() % 38 != 0 {
        return false;
    }
    let mut last = None;
    for i in 0..block.len() / 38 {
        let Some(key) = key_at(block, 38 * i) else {
            return false;
        };
        if !is_next(last, key) {
            return false;
        }
        last = Some(key);
    }
    true
}

// Whether `key` is below the pair, or, where `equal` says so, below or equal.
pub(crate) fn passes(equal: bool, pair: Revision, key: Revision) -> bool
    ensures { result ≡ passed equal pair key }
{
    if equal {
        return !is_below(pair, key);
    }
    is_below(key, pair)
}

// How many keys of a block pass, by halving.
pub(crate) fn place(block: &[u8], pair: Revision, equal: bool) -> usize
    requires { is_block (block_of block.now) ≡ true }
    ensures { Placed (passed equal pair) block.now result }
{
    let mut lo = 0;
    let mut hi = block.len() / 38;
    while lo < hi {
        let mid = lo + (hi - lo) / 2;
        if passes(equal, pair, revision_at(block, 38 * mid)) {
            lo = mid + 1;
        } else {
            hi = mid;
        }
    }
    lo
}

// The first key of a block above the pair: 16, 12.
pub fn first_above(block: &[u8], pair: Revision) -> Result<Revision, u8>
    ensures { result ≡ scanned (first_above pair) (block_of block.now) }
{
    if !check_block(block) {
        return Err(BAD_BLOCK);
    }
    let p = place(block, pair, true);
    if p == block.len() / 38 {
        return Err(ABSENT);
    }
    Ok(revision_at(block, 38 * p))
}

// The last key of a block below the pair: 16, 12.
pub fn last_below(block: &[u8], pair: Revision) -> Result<Revision, u8>
    ensures { result ≡ scanned (last_below pair) (block_of block.now) }
{
    if !check_block(block) {
        return Err(BAD_BLOCK);
    }
    let p = place(block, pair, false);
    if p == 0 {
        return Err(ABSENT);
    }
    Ok(revision_at(block, 38 * (p - 1)))
}
