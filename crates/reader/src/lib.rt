// Corner look-up through one small reader laid over the lent corner bytes: every look-up of a corner by its place, guessed or not, goes through the reader.
// Uses records.
#![tactic(auto)]

ghost use Rattle.std.specs.Prelude.{◌≡◌, true, ℕ, ◌+◌, ◌*◌, ◌≤◌, ◌<◌, ◌/◌};
ghost use Rattle.rules.specs.Survey.{record_count, corner_record, place_of};
ghost use Rattle.rules.specs.Outputs.{rising};
ghost use Rattle.records.specs.Keys.{key_of, places_of, record_at};

pub mod hints;

// The lent bytes of a corner table and the number of its records.
#[derive(Clone, Copy)]
pub struct Reader<'a> {
    pub bytes: &'a [u8],
    pub count: usize,
    ghost counted: { count ≡ record_count bytes.now },
}

// How many records there are.
pub fn count_of(bytes: &[u8]) -> usize
    ensures { result ≡ record_count bytes.now }
{
    bytes.len() / records::SIZE
}

// 1 if there is a record `at` and its key is smaller, else 0.
fn is_below(corners: &[u8], count: usize, key: u64, at: usize) -> usize
    requires { count ≡ record_count corners.now }
    ensures upper_bound { result ≤ 1 }
    ensures smaller { 1 ≤ result → (at < count) × (key_of (place_of (corner_record corners.now at)) < key) }
    ensures no_smaller { result < 1 → at < count → key ≤ key_of (place_of (corner_record corners.now at)) }
{
    usize::from(at < count && records::key_at(corners, at) < key)
}

// One round of `find_in`. From `low` on stand four parts of `size` records, with one record between a part and the next. The result is where the part begins
// in which the search goes on. The three records between are all looked at and counted: a processor can't foretell a branch on a key.
fn narrowed(corners: &[u8], count: usize, key: u64, low: usize, size: usize) -> usize
    requires ordered { (count ≡ record_count corners.now) × (rising (places_of corners.now) ≡ true) }
    requires within { (low ≤ count) × (size ≤ count) }
    ensures upper_bound { result ≤ count }
    ensures smaller { (j : ℕ) → low ≤ j → j < result → key_of (place_of (corner_record corners.now j)) < key }
    ensures no_smaller { (j : ℕ) → result + size ≤ j → j < low + 4 * size + 3 → j < count → key ≤ key_of (place_of (corner_record corners.now j)) }
{
    let step = size + 1;
    let first = low + size;
    let smaller = is_below(corners, count, key, first)
        + is_below(corners, count, key, first + step)
        + is_below(corners, count, key, first + 2 * step);
    low + smaller * step
}

// The look-up on slice and number, which document 01 asks for below the reader: the number of the corner record at the place with this key; `count` where there
// is none. The caller may guess the record. A guess is believed only if that record has the key; else the search is by quartering. So any may be guessed.
fn find_in(corners: &[u8], count: usize, key: u64, guess: Option<usize>) -> usize
    requires { (count ≡ record_count corners.now) × (rising (places_of corners.now) ≡ true) }
    ensures { result ≡ record_at corners.now key }
{
    if let Some(guess) = guess {
        if guess < count && records::key_at(corners, guess) == key {
            return guess;
        }
    }
    let mut low = 0;
    let mut size = count;
    while size > 0 {
        size /= 4;
        low = narrowed(corners, count, key, low, size);
    }
    if low < count && records::key_at(corners, low) == key {
        return low;
    }
    count
}

impl<'a> Reader<'a> {
    // The reader over some bytes.
    pub fn laid(bytes: &'a [u8]) -> Reader<'a>
        ensures { (result.bytes ≡ bytes.entry) × (result.count ≡ record_count bytes.now) }
    {
        Reader {
            bytes,
            count: count_of(bytes),
        }
    }

    // The look-up, by the reader.
    pub fn look_up(self, key: u64, guess: Option<usize>) -> usize
        requires { rising (places_of self.bytes.now) ≡ true }
        ensures { result ≡ record_at self.entry.bytes.now key }
    {
        find_in(self.bytes, self.count, key, guess)
    }
}

// The look-up in plain bytes, through a reader laid over them, with or without a guess at the record.
pub fn find_near(corners: &[u8], key: u64, guess: Option<usize>) -> usize
    requires { rising (places_of corners.now) ≡ true }
    ensures { result ≡ record_at corners.now key }
{
    Reader::laid(corners).look_up(key, guess)
}

// The same without a guess.
pub fn find(corners: &[u8], key: u64) -> usize
    requires { rising (places_of corners.now) ≡ true }
    ensures { result ≡ record_at corners.now key }
{
    find_near(corners, key, None)
}
