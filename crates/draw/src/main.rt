// The drawing program: reads the files `cells`, `corners`, `amendments` and `clearance` of its working directory, draws with room for 2,048 points and 4,096
// triangles, and prints the listing. A missing file counts as empty. Uses drawing, records and text.
#![tactic(auto)]

ghost use Rattle.std.specs.Prelude.{◌≡◌, ◌≤◌, length, take, OnOk};
ghost use Rattle.std.specs.Io.KnownBytes.{Appends, Consumes};
ghost use Rattle.text.specs.Writing.{Wrote};
ghost use Rattle.draw.specs.Printed.{clearance_of, printed};

use std::io::{ErrorKind, Read, Write};
use std::rt::Files;
use std::{fs, io};

// The clearance in the bytes of its file: four of binary32. Another length gives no number, which check 8 refuses.
fn clearance_of(bytes: &[u8]) -> f32
    ensures { result ≡ clearance_of bytes.now }
{
    if bytes.len() != 4 {
        return records::float_of(0x7fc0_0000);
    }
    records::float_of(records::read32(bytes, 0))
}

// What is printed of a survey, as amended, at a clearance, written to the front of a slice; where it ends.
fn list(cells: &[u8], corners: &[u8], amendments: &[u8], clearance: f32, line: &mut [u8]) -> usize
    requires { length line.old ≡ 202774 }
    ensures { Wrote (printed cells.now corners.now amendments.now clearance) 202774 0
        line.old line.new result }
{
    let mut points = [0f32; 6144];
    let mut triangles = [0u32; 12288];
    let d = drawing::draw(
        cells,
        corners,
        amendments,
        clearance,
        &mut points,
        &mut triangles,
    );
    text::put_listing(line, d, &points, &triangles)
}

// The start of what a reader gives, as much as a slice holds, up to its end or to a read that fails. How many bytes there are; they are the reader's next ones.
fn fill<R: Read>(from: &mut R, buf: &mut [u8]) -> usize
    ensures within { result ≤ length buf.new }
    ensures bytes { Consumes (R.remaining from.old) (R.remaining from.new) (take result buf.new) }
{
    let mut done = 0;
    while done < buf.len() {
        match from.read(&mut buf[done..]) {
            Ok(0) | Err(_) => break,
            Ok(n) => done += n,
        }
    }
    done
}

// The start of a file, as much as a slice holds; nothing where there is no such file. How many bytes there are.
fn load(rt: &impl Files, path: &str, buf: &mut [u8]) -> usize
    ensures { result ≤ length buf.new }
{
    match fs::open(rt, path) {
        Ok(mut file) => fill(&mut file, buf),
        Err(_) => 0,
    }
}

// The file of the amendments; nothing where there is none. One that is there and can't be read to its end counts as a single byte, which is no record: to draw
// without amendments that there are would be wrong, so check 14 refuses.
fn load_amendments(rt: &impl Files, buf: &mut [u8]) -> usize
    requires { 1 ≤ length buf.old }
    ensures { result ≤ length buf.new }
{
    let mut file = match fs::open(rt, "amendments") {
        Ok(file) => file,
        Err(e) if e.kind() == ErrorKind::NotFound => return 0,
        Err(_) => return 1,
    };
    let n = fill(&mut file, buf);
    let mut past = [0u8; 1];
    match file.read(&mut past) {
        Ok(0) => n,
        _ => 1,
    }
}

// Draws what the files hold, and writes to a writer what is printed, whole where no write fails.
fn show<W: Write>(
    out: &mut W,
    cells: &[u8],
    corners: &[u8],
    amendments: &[u8],
    clearance: f32,
) -> io::Result<()>
    ensures { OnOk result (Appends (W.contents out.old) (W.contents out.new)
        (printed cells.now corners.now amendments.now clearance)) }
{
    let mut line = [0u8; 202774];
    let end = list(cells, corners, amendments, clearance, &mut line);
    out.write_all(&line[..end])
}

fn main(rt: HostRuntime) -> io::Result<()> {
    let mut cells = [0u8; 8197];
    let mut corners = [0u8; 58465];
    let mut amendments = [0u8; 12001];
    let mut bytes = [0u8; 5];
    let n = load(&rt, "cells", &mut cells);
    let k = load(&rt, "corners", &mut corners);
    let a = load_amendments(&rt, &mut amendments);
    let m = load(&rt, "clearance", &mut bytes);
    show(
        &mut io::writer(&rt),
        &cells[..n],
        &corners[..k],
        &amendments[..a],
        clearance_of(&bytes[..m]),
    )
}
