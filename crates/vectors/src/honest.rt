// The table of 03 §6. A line: the request and its buffers; the answers of the steps; status and len; the first data bytes;
// what changed.
use crate::guest::{Kind, WRITE};
use crate::host::{self, Host};
use std::ops::Range;
use std::{fmt, io};

// Bytes r and w; whether the disk is read-only; how many data bytes to show.
struct Request {
    kind: Kind,
    sector: usize,
    r: usize,
    w: u16,
    read_only: bool,
    shown: u16,
}

#[rattlefmt::skip]
const ROWS: [Request; 16] = [
    Request { kind: Kind::In, sector: 63, r: 16, w: 513, read_only: false, shown: 4 },
    Request { kind: Kind::In, sector: 64, r: 16, w: 513, read_only: false, shown: 4 },
    Request { kind: Kind::In, sector: 64, r: 16, w: 1, read_only: false, shown: 0 },
    Request { kind: Kind::In, sector: 65, r: 16, w: 1, read_only: false, shown: 0 },
    Request { kind: Kind::In, sector: 0xffff_ffff_ffff_ffff, r: 16, w: 1025, read_only: false, shown: 4 },
    Request { kind: Kind::Out, sector: 7, r: 528, w: 1, read_only: true, shown: 0 },
    Request { kind: Kind::GetId, sector: 0, r: 16, w: 21, read_only: false, shown: 20 },
    Request { kind: Kind::GetId, sector: 0, r: 16, w: 20, read_only: false, shown: 4 },
    Request { kind: Kind::Flush, sector: 0, r: 16, w: 1, read_only: false, shown: 0 },
    Request { kind: Kind::Flush, sector: 0, r: 16, w: 2, read_only: false, shown: 1 },
    Request { kind: Kind::Two, sector: 0, r: 16, w: 1, read_only: false, shown: 0 },
    Request { kind: Kind::In, sector: 0, r: 15, w: 1, read_only: false, shown: 0 },
    Request { kind: Kind::Out, sector: 0, r: 15, w: 1, read_only: false, shown: 0 },
    Request { kind: Kind::Two, sector: 0, r: 15, w: 1, read_only: false, shown: 0 },
    Request { kind: Kind::Flush, sector: 0, r: 15, w: 1, read_only: false, shown: 0 },
    Request { kind: Kind::GetId, sector: 0, r: 15, w: 1, read_only: false, shown: 0 },
];

impl fmt::Display for Request {
    fn fmt<W: fmt::Write>(&self, f: &mut fmt::Formatter<W>) -> fmt::Result {
        let disk = if self.read_only {
            ", read-only disk"
        } else {
            ""
        };
        let (kind, sector) = (self.kind, self.sector);
        write!(
            f,
            "{kind}, sector {sector}{disk}: {} r, {} w",
            self.r, self.w
        )
    }
}

// What was laid is served by a fresh device. Says the answers, the status byte at this place, and the length in the used ring.
fn serve(
    rt: &impl Print,
    host: &mut Host,
    read_only: bool,
    status: Range<usize>,
) -> io::Result<()> {
    host.serve(rt, &mut host::device(read_only, 0))?;
    let len = wire::get::<4>(&host.mem.0, 0x3008);
    print!(rt; ", status {}, len {len}", host.mem.hex(status))
}

// The writable bytes are the w from 0x80005000 on.
fn row(rt: &impl Print, host: &mut Host, q: &Request) -> io::Result<()> {
    let end = 0x5000 + usize::from(q.w);
    host.mem.joined(q.kind, q.sector, q.r, usize::from(q.w));
    let before = host.mem;
    print!(rt; "{q}: ")?;
    serve(rt, host, q.read_only, end - 1..end)?;
    if 0 < q.shown {
        print!(rt;
            ", data {}",
            host.mem.hex(0x5000..0x5000 + usize::from(q.shown))
        )?;
    }
    host.mem.settle(rt, &before, &(0x5000..end))
}

pub fn rows(rt: &impl Print, host: &mut Host) -> io::Result<()> {
    for q in &ROWS {
        row(rt, host, q)?;
    }
    Ok(())
}

pub fn three(rt: &impl Print, host: &mut Host) -> io::Result<()> {
    host.mem.v1();
    let before = host.mem;
    print!(rt; "IN, sector 3: 16 r, 512 w, 1 w: ")?;
    serve(rt, host, false, 0x6000..0x6001)?;
    print!(rt; ", data {}", host.mem.hex(0x5000..0x5008))?;
    host.mem.settle(rt, &before, &(0x5000..0x6001))
}

// Of each of the six buffers of 512 the first four bytes.
pub fn seven(rt: &impl Print, host: &mut Host) -> io::Result<()> {
    host.mem.eight(WRITE);
    let before = host.mem;
    print!(rt; "IN, sector 0: 16 r and writable 512, 512, 512, 512, 512, 512, 1: ")?;
    serve(rt, host, false, 0x6800..0x6801)?;
    print!(rt; ", data")?;
    for i in 0..6 {
        let at = 0x5000 + 0x400 * i;
        print!(rt; " | {}", host.mem.hex(at..at + 4))?;
    }
    host.mem.settle(rt, &before, &(0x5000..0x6801))
}
