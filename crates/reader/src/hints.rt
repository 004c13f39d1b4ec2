// Hints for the look-up: which record may be at the place with a key. Hints only guess, and no corner byte is looked at for a guess. The reader believes a
// guess only if that record has the key, and else it searches. So nothing need be known of what stands in the hints, and nothing is promised of it. There are
// 8,192 hints, which are four pages (see docs/ARCHITECTURE.md, "Beside the proofs", for why not more), or 1,024, which are sooner cleared.
//
// A hint is the number of a record plus 8,192 times a tag of three bits, by which most hints for other keys are passed over.
ghost use Rattle.std.specs.Prelude.{◌≡◌, true, ◌<◌, ◌≤◌, length, IfSome};
ghost use Rattle.rules.specs.Outputs.{corner_limit, rising};
ghost use Rattle.records.specs.Keys.{places_of, record_at};

// What stands for a free hint.
pub const FREE: u16 = 65535;

// A key with its digits mixed. Any number serves; the factors spread the corners of an octree over the table.
fn mixed(key: u64) -> u64 {
    key % 65536 * 12243079 + key / 65536 % 65536 * 52777471 + key / 4294967296 * 11112915
}

// A number brought into the range of so many hints. Where they are a power of two it is the remainder by that, which a mask makes without a branch; else it is the
// remainder by 1,024 or 8,192, since the mask would leave few places.
fn within(at: u64, hints: usize) -> usize
    requires { 1024 ≤ hints }
    ensures { result < hints }
{
    let mask = hints - 1;
    if hints & mask == 0 {
        return at as usize & mask;
    }
    if hints < 8192 {
        return (at % 1024) as usize;
    }
    (at % 8192) as usize
}

// The tag of a key, by the mixed key: digits that say nothing of where its hints are, so that few keys with hints there have the same tag.
fn tag(mix: u64) -> u16
    ensures { result < 8 }
{
    (mix / 67108864 % 8) as u16
}

// Enters record `k` at the first free one of the few hints for its key, which is mixed; nowhere if none is free.
fn enter(hints: &mut [u16], mix: u64, k: u16)
    requires { (1024 ≤ length hints.old) × (k < 8192) }
{
    for step in 0..8 {
        let at = within(mix / 8192 + step, hints.len());
        if hints[at] == FREE {
            hints[at] = k + 8192 * tag(mix);
            return;
        }
    }
}

// Enters every record of a corner table as a hint. There are as many hints as before: no more need be known of them.
pub fn fill(corners: &[u8], hints: &mut [u16])
    requires { (length corners.now ≤ corner_limit) × (1024 ≤ length hints.old) }
    ensures { length hints.new ≡ length hints.old }
{
    let count = crate::count_of(corners);
    for k in 0..count {
        enter(hints, mixed(records::key_at(corners, k)), k as u16);
    }
}

// The record that the hints guess to be at the place with this key: that of the first of the few hints for the key which has its tag. A free hint ends the
// search, since `enter` would have taken it.
pub fn guess(hints: &[u16], key: u64) -> Option<usize>
    requires { 1024 ≤ length hints.now }
    ensures { IfSome result (λ k. k < 8192) }
{
    let mix = mixed(key);
    let sought = tag(mix);
    for step in 0..8 {
        let hint = hints[within(mix / 8192 + step, hints.len())];
        if hint == FREE {
            return None;
        }
        if hint / 8192 == sought {
            return Some(usize::from(hint % 8192));
        }
    }
    None
}

// The look-up with hints: the number of the corner record at the place with this key, or the number of records where there is none.
pub fn find(corners: &[u8], hints: &[u16], key: u64) -> usize
    requires corners_value { rising (places_of corners.now) ≡ true }
    requires in_bounds { 1024 ≤ length hints.now }
    ensures { result ≡ record_at corners.now key }
{
    crate::find_near(corners, key, guess(hints, key))
}
