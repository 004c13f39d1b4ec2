// The listing of a drawing, as bytes written to a lent slice, line by line. Uses base and rules.
#![tactic(auto)]

ghost use Rattle.std.specs.Prelude.{◌≡◌, [], ◌∷◌, ◌+◌, ◌*◌, ◌<◌, ◌≤◌, length};
ghost use Rattle.std.specs.Float.{binary32};
ghost use Rattle.std.specs.Float.Ieee.{to_bits};
ghost use Rattle.text.specs.Text.{digit, hex, decimal, hex_field, number_field};
ghost use Rattle.text.specs.Text.{count_line, point_line, triangle_line, refusal, point_lines, triangle_lines, listing};
ghost use Rattle.text.specs.Writing.{Wrote, Writes, Room};

use rules::Drawn;

// The bit pattern of a float, and 0x7fc00000 for a NaN, at which `to_bits` is undefined.
pub fn bits_of(x: f32) -> u32
    ensures { result ≡ to_bits binary32 x }
{
    if x.is_nan() {
        return 0x7fc0_0000;
    }
    x.to_bits()
}

// A digit, for a number below 16.
fn digit_of(n: u32) -> u8
    requires { n < 16 }
    ensures { result ≡ digit n }
{
    if n < 10 {
        return b'0' + n as u8;
    }
    b'a' + (n - 10) as u8
}

// A slice that a text is written to, and where the text ends.
#[derive(Drop)]
pub struct Writer<'a> {
    pub line: &'a mut [u8],
    pub at: usize,
}

impl Writer<'_> {
    // A byte.
    fn byte(&mut self, b: u8)
        requires { self.old.at + 1 ≤ length self.old.line.now }
        ensures { Writes (b ∷ []) 1 self.old self.new }
    {
        self.line[self.at] = b;
        self.at += 1;
    }

    // Bytes that stand elsewhere.
    fn bytes(&mut self, text: &[u8])
        requires { self.old.at + length text.now ≤ length self.old.line.now }
        ensures { Writes text.now (length text.now) self.old self.new }
    {
        let end = self.at + text.len();
        self.line[self.at..end].copy_from_slice(text);
        self.at = end;
    }

    // Eight hexadecimal digits.
    pub fn hex(&mut self, v: u32)
        requires { self.old.at + 8 ≤ length self.old.line.now }
        ensures { Writes (hex v) 8 self.old self.new }
    {
        for shift in [28u32, 24, 20, 16, 12, 8, 4, 0] {
            self.byte(digit_of((v >> shift) % 16));
        }
    }

    // A number in base ten, without leading zeros.
    pub fn decimal(&mut self, v: u32)
        requires { self.old.at + 10 ≤ length self.old.line.now }
        ensures { Writes (decimal v) 10 self.old self.new }
    {
        if v < 10 {
            self.byte(digit_of(v));
            return;
        }
        self.decimal(v / 10);
        self.byte(digit_of(v % 10));
    }

    // A space and the bits of a float.
    fn float(&mut self, x: f32)
        requires { self.old.at + 9 ≤ length self.old.line.now }
        ensures { Writes (hex_field x) 9 self.old self.new }
    {
        self.byte(b' ');
        self.hex(bits_of(x));
    }

    // A space and a number.
    fn number(&mut self, v: u32)
        requires { self.old.at + 11 ≤ length self.old.line.now }
        ensures { Writes (number_field v) 11 self.old self.new }
    {
        self.byte(b' ');
        self.decimal(v);
    }

    // The first line: points, triangles.
    pub fn counts(&mut self, points: u32, triangles: u32)
        requires { self.old.at + 22 ≤ length self.old.line.now }
        ensures { Writes (count_line points triangles) 22 self.old self.new }
    {
        self.decimal(points);
        self.number(triangles);
        self.byte(b'\n');
    }

    // The line of a point.
    pub fn point(&mut self, x: f32, y: f32, z: f32)
        requires { self.old.at + 29 ≤ length self.old.line.now }
        ensures { Writes (point_line x y z) 29 self.old self.new }
    {
        self.byte(b'v');
        self.float(x);
        self.float(y);
        self.float(z);
        self.byte(b'\n');
    }

    // The line of a triangle. It shares no generic form with that of a point: letter, fields, width and definition all differ.
    pub fn triangle(&mut self, a: u32, b: u32, c: u32)
        requires { self.old.at + 35 ≤ length self.old.line.now }
        ensures { Writes (triangle_line a b c) 35 self.old self.new }
    {
        self.byte(b't');
        self.number(a);
        self.number(b);
        self.number(c);
        self.byte(b'\n');
    }

    // The one line of a refusal.
    pub fn refusal(&mut self, number: u32)
        requires { self.old.at + 19 ≤ length self.old.line.now }
        ensures { Writes (refusal number) 19 self.old self.new }
    {
        self.bytes(b"refused");
        self.number(number);
        self.byte(b'\n');
    }

    // The lines of the first n points of a slice.
    fn points(&mut self, points: &[f32], n: usize)
        requires { (3 * n ≤ length points.now) × (self.old.at + 29 * n ≤ length self.old.line.now) }
        ensures { Writes (point_lines n points.now) (29 * n) self.old self.new }
    {
        for i in 0..n {
            self.point(points[3 * i], points[3 * i + 1], points[3 * i + 2]);
        }
    }

    // The lines of the first n triangles of a slice.
    fn triangles(&mut self, triangles: &[u32], n: usize)
        requires { (3 * n ≤ length triangles.now) × (self.old.at + 35 * n ≤ length self.old.line.now) }
        ensures { Writes (triangle_lines n triangles.now) (35 * n) self.old self.new }
    {
        for i in 0..n {
            self.triangle(triangles[3 * i], triangles[3 * i + 1], triangles[3 * i + 2]);
        }
    }

    // The whole listing of what drawing returned and of what then stands in the slices, from the front of the slice on.
    pub fn listing(&mut self, d: Drawn, points: &[f32], triangles: &[u32])
        requires front { self.old.at ≡ 0 }
        requires room { Room d (length self.old.line.now) (length points.now) (length triangles.now) }
        ensures { Writes (listing d points.now triangles.now) (22 + 29 * d.points + 35 * d.triangles) self.old self.new }
    {
        if d.number != 0 {
            self.refusal(d.number);
            return;
        }
        self.counts(d.points, d.triangles);
        self.points(points, d.points as usize);
        self.triangles(triangles, d.triangles as usize);
    }
}

// The same in a slice; returns where the listing ends.
pub fn put_listing(line: &mut [u8], d: Drawn, points: &[f32], triangles: &[u32]) -> usize
    requires { Room d (length line.old) (length points.now) (length triangles.now) }
    ensures { Wrote (listing d points.now triangles.now) (22 + 29 * d.points + 35 * d.triangles) 0 line.old
        line.new result }
{
    let mut out = Writer { line, at: 0 };
    out.listing(d, points, triangles);
    out.at
}
