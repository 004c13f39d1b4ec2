// The search for ways over the corners of a survey: document 02, request 8. It reads a table of six links for each corner, and knows nothing of cells or
// soundings. A corner's rank is its fewest steps plus one, from where a search begins; 0 while it has none. Uses base and rules.
#![tactic(auto)]

ghost use Rattle.std.specs.Prelude.{◌≡◌, ◌&&◌, cond, ◌++◌, ◌+◌, ◌≤◌, ◌<◌, eqb, ltb, length, get_or, take, drop, replicate};
ghost use Rattle.base.specs.Lists.{bit};
ghost use Rattle.rules.specs.Ways.{fewest_steps};
ghost use Rattle.graph.specs.Table.{Within, graph_in, reached, visited, lowest_link, followed};

// No corner: what stands in the place of a link that is not there. It is above every record number, and has two equal bytes, so that a table of it is filled by
// the C library's memset.
pub const NONE: u16 = 0x1313;

// How many places the table of links has: six for each of as many corners as there can be.
pub const LINKS: usize = 29232;

// How many ranks a search keeps: for each corner, and up to NONE, so that a link that is not there can be looked up as any other.
const RANKS: usize = 4884;

// The rank of what is past the corners: any but 0, so that it is never new, and of two equal bytes likewise.
const PAST: u16 = 0x0101;

// How many places the queue has: one for each corner, and six more, which `visit` asks for before it knows whether any link leads to a new corner.
const QUEUE: usize = 4878;

// The first elements, set to 0.
pub fn clear(found: &mut [u16], count: usize)
    requires { count ≤ length found.old }
    ensures { found.new ≡ replicate count 0 ++ drop count found.old }
{
    found[..count].fill(0);
}

// The rank of a corner that is looked at: this one, if it had none.
fn ranked(old: u16, rank: u16) -> u16
    ensures { result ≡ cond (eqb old 0) rank old }
{
    if old == 0 {
        return rank;
    }
    old
}

// How many corners are new, of one with this rank before.
fn newly(old: u16) -> usize
    ensures { result ≡ bit (eqb old 0) }
{
    usize::from(old == 0)
}

// Looks at corner j: if it has no rank yet it gets this one, and the place at the queue's end that it is put into counts. How many are in the queue then.
// Both choices are meant to compile without a jump: whether a corner is new can't be foretold, and a wrong guess would cost more than all the rest.
fn reach(found: &mut [u16], queue: &mut [u16], tail: usize, j: usize, rank: u16) -> usize
    requires { (j < length found.old) × (j < 65536) × (tail < length queue.old) }
    ensures { record { tail = result; found = found.new; queue = queue.new }
        ≡ reached rank j (record { tail = tail; found = found.old; queue = queue.old }) }
{
    let old = found[j];
    queue[tail] = j as u16;
    found[j] = ranked(old, rank);
    tail + newly(old)
}

// The lower record number of the best corner so far and corner j, which counts only if it has this rank.
fn better(back: &[u16], best: usize, j: usize, rank: u16) -> usize
    requires { best ≤ length back.now }
    ensures { result ≡ cond (ltb j best && eqb (get_or back.now j 0) rank) j best }
{
    if j >= best {
        return best;
    }
    if back[j] != rank {
        return best;
    }
    j
}

// The table of links, of which the first `count` corners are in use.
#[derive(Clone, Copy)]
struct LinkTable<'a> {
    links: &'a [u16],
    count: usize,
    ghost room: { length links.now ≡ 29232 },
    ghost within: { Within links.now },
    ghost few: { count ≤ 4872 },
}

impl LinkTable<'_> {
    // Follows the six links of corner k. How many are in the queue then.
    fn visit(self, k: usize, rank: u16, found: &mut [u16], queue: &mut [u16], tail: usize) -> usize
        requires corner { k < 4872 }
        requires found_len { (length found.old ≡ 4884) × (tail + 6 ≤ length queue.old) }
        ensures { record { tail = result; found = found.new; queue = queue.new }
            ≡ visited self.entry.links.now rank k 6 (record { tail = tail; found = found.old; queue = queue.old }) }
    {
        let mut end = tail;
        for link in &self.links[6 * k..6 * k + 6] {
            end = reach(found, queue, end, usize::from(*link), rank);
        }
        end
    }

    // The fewest steps from a corner to each that can be reached from it, plus one, and 0 for the others: breadth first. All ranks are PAST before, so that
    // what is past the corners is never new.
    fn explore(self, start: usize, found: &mut [u16], queue: &mut [u16])
        requires start_bound { start < self.count }
        requires found_value { (found.old ≡ replicate 4884 257) × (length queue.old ≡ 4878) }
        ensures { found.new ≡ fewest_steps (graph_in self.entry.links.now self.entry.count) start ++ drop self.entry.count found.old }
    {
        clear(found, self.count);
        found[start] = 1;
        queue[0] = start as u16;
        let mut head: usize = 0;
        let mut tail: usize = 1;
        while head < tail {
            let k = usize::from(queue[head]);
            let rank = found[k] + 1;
            tail = self.visit(k, rank, found, queue, tail);
            head += 1;
        }
    }

    // The corner of lowest record number that is joined to corner k and has this rank, or 0 if none has.
    fn lowest(self, back: &[u16], k: usize, rank: u16) -> usize
        requires { (k < self.count) × (self.count ≤ length back.now) }
        ensures value { result ≡ lowest_link self.entry.links.now back.now self.entry.count k rank }
        ensures upper_bound { result < self.entry.count }
    {
        let mut best = self.count;
        for link in &self.links[6 * k..6 * k + 6] {
            best = better(back, best, usize::from(*link), rank);
        }
        if best == self.count {
            return 0;
        }
        best
    }

    // Writes n corners from the start on: always that of lowest record number that is joined to the one before and has a rank lower by one.
    fn follow(self, back: &[u16], start: usize, n: usize, way: &mut [u16])
        requires start_bound { (start < self.count) × (self.count ≤ length back.now) }
        requires n_in_bounds { (n ≤ length way.old) × (n ≤ 4872) }
        ensures { way.new ≡ followed self.entry.links.now back.now self.entry.count n start ++ drop n way.old }
    {
        let mut k = start;
        for i in 0..n {
            way[i] = k as u16;
            k = self.lowest(back, k, (n - i - 1) as u16);
        }
    }
}

// Gives each corner its rank: its fewest steps from the start plus one, or 0 if it is out of reach.
pub fn rank_corners(links: &[u16], count: usize, start: usize, ranks: &mut [u16])
    requires { (length links.now ≡ 29232) × Within links.now × (count ≤ 4872) × (start < count) × (count ≤ length ranks.old) }
    ensures { ranks.new ≡ fewest_steps (graph_in links.now count) start ++ drop count ranks.old }
{
    let mut queue = [0u16; QUEUE];
    let mut found = [PAST; RANKS];
    LinkTable { links, count }.explore(start, &mut found, &mut queue);
    ranks[..count].copy_from_slice(&found[..count]);
}

// Writes a way of n corners: from the start on, always to the corner of lowest record number that is joined and one step nearer to the end, by the ranks from
// there.
pub fn write_way(links: &[u16], count: usize, start: usize, end: usize, n: usize, way: &mut [u16])
    requires links_len { (length links.now ≡ 29232) × Within links.now × (count ≤ 4872) × (start < count) × (end < count) }
    requires n_in_bounds { (n ≤ length way.old) × (n ≤ 4872) }
    ensures { way.new
        ≡ followed links.now (fewest_steps (graph_in links.now count) end) count n start ++ drop n way.old }
{
    let mut queue = [0u16; QUEUE];
    let mut back = [PAST; RANKS];
    let table = LinkTable { links, count };
    table.explore(end, &mut back, &mut queue);
    table.follow(&back, start, n, way);
}
