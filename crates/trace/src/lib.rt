// The scratch of one leaf, in one table: where the face steps lead from each point, which points they meet, and a list of these. Uses rules.
#![tactic(auto)]

ghost use Rattle.std.specs.Prelude.{◌≡◌, ◌+◌, ◌*◌, ◌≤◌, ◌<◌, length};
ghost use Rattle.trace.specs.Trace.{leave_at, meet_at, record_one};

// A step leaves `from`: its end is kept unless one left there before. Here and in `meet` 65,535 stands for none: it is a number in a table of fixed memory.
fn leave(trace: &mut [u16], from: u16, to: u16)
    requires { 3 * from + 1 < length trace.old }
    ensures { trace.new ≡ leave_at trace.old from to }
{
    let at = 3 * usize::from(from) + 1;
    if trace[at] == 65535 {
        trace[at] = to;
    }
}

// A step meets `v`: it is marked, and listed, unless one met it before.
fn meet(trace: &mut [u16], v: u16)
    requires { (3 * v + 2 < length trace.old) × (length trace.old ≤ 43849) }
    ensures { trace.new ≡ meet_at trace.old v }
{
    let at = 3 * usize::from(v) + 2;
    if trace[at] != 65535 {
        return;
    }
    let count = trace[0];
    let end = 3 * usize::from(count) + 3;
    if end >= trace.len() {
        return;
    }
    trace[at] = 1;
    trace[end] = v;
    trace[0] = count + 1;
}

// Records one face step, after those that the table holds.
pub fn record_step(trace: &mut [u16], from: u16, to: u16)
    requires { (3 * from + 2 < length trace.old) × (3 * to + 2 < length trace.old) × (length trace.old ≤ 43849) }
    ensures { trace.new ≡ record_one (from, to) trace.old }
{
    leave(trace, from, to);
    meet(trace, from);
    meet(trace, to);
}
