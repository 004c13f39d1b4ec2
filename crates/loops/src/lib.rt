// The loops of a leaf, each from its lowest point on, and their triangles, written into what is lent. Uses trace.
#![tactic(auto)]

ghost use Rattle.std.specs.Prelude.{◌≡◌, [], ◌∷◌, ℕ, ◌+◌, ◌*◌, ◌<◌, length, set, unwrap_or};
ghost use Rattle.std.proofs.lemmas.List.Edits.{sets};
ghost use Rattle.trace.specs.Trace.{met_at, met_count};
ghost use Rattle.loops.specs.Loops.{Loaded, Draws};
ghost use Rattle.loops.specs.Sweep.{on_of, Follows, clear_at, Stepped, lower_of, lowest_of, point_of, Lowest, progress, Ready, Passes};

// The state of a walk round a loop: the point at hand and the one before it.
#[derive(Clone, Copy)]
pub struct Walk {
    pub before: u16,
    pub at: u16,
}

impl Walk {
    // One step on: along the face step that leaves the point, and to its twin where none does, which the table tells by 65,535: it is of fixed memory.
    pub fn next(self, trace: &[u16], twins: &[u16]) -> Walk
        requires { (3 * self.at + 1 < length trace.now) × (self.at < length twins.now) }
        ensures value { result ≡ on_of trace.now twins.now self }
        ensures follows { Follows trace.now twins.now self.at result.at }
    {
        let at = usize::from(self.at);
        let end = trace[3 * at + 1];
        if end == 65535 {
            return Walk {
                before: self.at,
                at: twins[at],
            };
        }
        Walk {
            before: self.at,
            at: end,
        }
    }

    // One step on, and the point left is taken out of the trace.
    fn step(self, trace: &mut [u16], twins: &[u16]) -> Walk
        requires { (3 * self.at + 2 < length trace.old) × (self.at < length twins.now) }
        ensures { Stepped twins.now self result trace.old trace.new }
    {
        let further = self.next(trace, twins);
        clear(trace, self.at);
        further
    }
}

// Takes a point out of the trace.
fn clear(trace: &mut [u16], v: u16)
    requires { 3 * v + 2 < length trace.old }
    ensures { trace.new ≡ clear_at trace.old v }
{
    let at = 3 * usize::from(v);
    trace[at + 1] = 65535;
    trace[at + 2] = 65535;
}

// One number, where the slice goes that far.
fn put(out: &mut [u32], at: usize, x: u16)
    ensures { out.new ≡ set out.old at x }
{
    if at < out.len() {
        out[at] = u32::from(x);
    }
}

// The triangle with number k, as far as the slice goes.
fn put_triangle(out: &mut [u32], k: u32, a: u16, b: u16, c: u16)
    ensures { out.new ≡ sets out.old (3 * k) (a ∷ b ∷ c ∷ []) }
{
    let at = 3 * (k as usize);
    put(out, at, a);
    put(out, at + 1, b);
    put(out, at + 2, c);
}

// The loop whose lowest point is `v`: its triangles, with numbers from `count` on; how many triangles there are then.
fn draw_loop(trace: &mut [u16], twins: &[u16], v: u16, out: &mut [u32], count: u32) -> u32
    requires { Ready twins.now v (progress trace.old out.old count) }
    ensures { Passes twins.now v
        (progress trace.old out.old count)
        (progress trace.new out.new result) }
{
    let second = Walk { before: v, at: v }.step(trace, twins);
    if second.at == v {
        return count;
    }
    let mut w = second.step(trace, twins);
    let mut k = count;
    while w.at != v {
        put_triangle(out, k, v, w.before, w.at);
        k += 1;
        w = w.step(trace, twins);
    }
    k
}

// The lower of a number and a point, which counts only where it is still marked.
fn lower(trace: &[u16], v: u16, lowest: u16) -> u16
    requires { 3 * v + 2 < length trace.now }
    ensures { result ≡ lower_of trace.now v lowest }
{
    if trace[3 * usize::from(v) + 2] != 1 {
        return lowest;
    }
    v.min(lowest)
}

// The lowest point of the list that is still marked, if one is. The scan has a number for none, the highest, which no point has: an Option there is
// a branch more at each point, and took the drawing of the leaves 6 % more instructions.
fn lowest_met(trace: &[u16]) -> Option<u16>
    requires trace_in_bounds { 3 * met_count trace.now < length trace.now }
    requires by_index { (i : ℕ) → i < met_count trace.now → 3 * met_at trace.now i + 2 < length trace.now }
    ensures value { result ≡ point_of (lowest_of trace.now (met_count trace.now)) }
    ensures lowest { Lowest trace.now (met_count trace.now) (unwrap_or result 65535) }
{
    let mut lowest = u16::MAX;
    for i in 0..usize::from(trace[0]) {
        lowest = lower(trace, trace[3 * i + 3], lowest);
    }
    if lowest == u16::MAX {
        None
    } else {
        Some(lowest)
    }
}

// The loops of a leaf, by their lowest points: their triangles, written into the lent slice as far as it goes; how many there are. The trace is
// empty again afterwards. Each loop costs a scan of the leaf's list of points.
pub fn draw_loops(trace: &mut [u16], twins: &[u16], out: &mut [u32]) -> u32
    requires { Loaded twins.now trace.old }
    ensures { Draws twins.now trace.old out.old out.new result trace.new }
{
    let mut count: u32 = 0;
    while let Some(v) = lowest_met(trace) {
        count = draw_loop(trace, twins, v, out, count);
    }
    trace[0] = 0;
    count
}
