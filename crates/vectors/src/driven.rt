// The honest requests of 03 §6 again, each laid, shown to the device and read by the driver. A line: the request; the answers of the steps;
// what the driver reads: head, length, status, and the first data bytes. The last rows are requests that the driver doesn't lay.
use crate::guest::{Bytes, Kind};
use crate::host::{self, AVAIL, DESC, Host, USED};
use crate::say::Hex;
use driver::{Ask, Driver};
use model::Refusal;
use std::io;

const MAP: [usize; 3] = [0x8000_0000, 65536, 0];

// The buffers are two words each, the first `reads` of them readable.
struct Row {
    name: &'static str,
    kind: Kind,
    sector: usize,
    reads: usize,
    bufs: &'static [usize],
    read_only: bool,
}

#[rattlefmt::skip]
const ROWS: [Row; 18] = [
    Row {
        name: "IN by the driver, sector 3: 16 r, 512 w, 1 w",
        kind: Kind::In, sector: 3, reads: 1, bufs: &[0x8000_4000, 16, 0x8000_5000, 512, 0x8000_6000, 1], read_only: false,
    },
    Row {
        name: "IN by the driver, sector 63: 16 r, 513 w",
        kind: Kind::In, sector: 63, reads: 1, bufs: &[0x8000_4000, 16, 0x8000_5000, 513], read_only: false,
    },
    Row {
        name: "IN by the driver, sector 64: 16 r, 513 w",
        kind: Kind::In, sector: 64, reads: 1, bufs: &[0x8000_4000, 16, 0x8000_5000, 513], read_only: false,
    },
    Row {
        name: "IN by the driver, sector 64: 16 r, 1 w",
        kind: Kind::In, sector: 64, reads: 1, bufs: &[0x8000_4000, 16, 0x8000_5000, 1], read_only: false,
    },
    Row {
        name: "IN by the driver, sector 65: 16 r, 1 w",
        kind: Kind::In, sector: 65, reads: 1, bufs: &[0x8000_4000, 16, 0x8000_5000, 1], read_only: false,
    },
    Row {
        name: "IN by the driver, sector 18446744073709551615: 16 r, 1025 w",
        kind: Kind::In, sector: 0xffff_ffff_ffff_ffff, reads: 1, bufs: &[0x8000_4000, 16, 0x8000_5000, 1025], read_only: false,
    },
    Row {
        name: "GET_ID by the driver, sector 0: 16 r, 21 w",
        kind: Kind::GetId, sector: 0, reads: 1, bufs: &[0x8000_4000, 16, 0x8000_5000, 21], read_only: false,
    },
    Row {
        name: "FLUSH by the driver, sector 0: 16 r, 1 w",
        kind: Kind::Flush, sector: 0, reads: 1, bufs: &[0x8000_4000, 16, 0x8000_5000, 1], read_only: false,
    },
    Row {
        name: "IN by the driver, sector 0: 16 r and writable 512, 512, 512, 512, 512, 512, 1",
        kind: Kind::In, sector: 0, reads: 1, bufs: &SEVEN, read_only: false,
    },
    // A write, cut after the header's tenth byte; the same sector read back; and a write to a read-only disk.
    Row {
        name: "OUT by the driver, sector 5: 10 r, 518 r, 1 w",
        kind: Kind::Out, sector: 5, reads: 2, bufs: &[0x8000_4000, 10, 0x8000_4100, 518, 0x8000_6000, 1], read_only: false,
    },
    Row {
        name: "IN by the driver, sector 5: 16 r, 513 w",
        kind: Kind::In, sector: 5, reads: 1, bufs: &[0x8000_4000, 16, 0x8000_5000, 513], read_only: false,
    },
    Row {
        name: "OUT by the driver, sector 7, read-only disk: 528 r, 1 w",
        kind: Kind::Out, sector: 7, reads: 1, bufs: &[0x8000_4000, 528, 0x8000_6000, 1], read_only: true,
    },
    // Requests that no disk accepts, buffers that overlap each other or a ring, buffers that aren't in memory.
    Row {
        name: "GET_ID by the driver, sector 0: 16 r, 20 w",
        kind: Kind::GetId, sector: 0, reads: 1, bufs: &[0x8000_4000, 16, 0x8000_5000, 20], read_only: false,
    },
    Row {
        name: "FLUSH by the driver, sector 0: 16 r, 2 w",
        kind: Kind::Flush, sector: 0, reads: 1, bufs: &[0x8000_4000, 16, 0x8000_5000, 2], read_only: false,
    },
    Row {
        name: "type 2 by the driver, sector 0: 16 r, 1 w",
        kind: Kind::Two, sector: 0, reads: 1, bufs: &[0x8000_4000, 16, 0x8000_5000, 1], read_only: false,
    },
    Row {
        name: "IN by the driver, a buffer over the header",
        kind: Kind::In, sector: 0, reads: 1, bufs: &[0x8000_4000, 16, 0x8000_400f, 513], read_only: false,
    },
    Row {
        name: "IN by the driver, a buffer over the used ring",
        kind: Kind::In, sector: 0, reads: 1, bufs: &[0x8000_4000, 16, 0x8000_3000, 513], read_only: false,
    },
    Row {
        name: "IN by the driver, a buffer past the region",
        kind: Kind::In, sector: 0, reads: 1, bufs: &[0x8000_4000, 16, 0x8000_fe00, 513], read_only: false,
    },
];

#[rattlefmt::skip]
const SEVEN: [usize; 16] = [
    0x8000_4000, 16,
    0x8000_5000, 512, 0x8000_5400, 512, 0x8000_5800, 512, 0x8000_5c00, 512, 0x8000_6000, 512, 0x8000_6400, 512,
    0x8000_6800, 1,
];

// 01 §6: q = 8, the areas at their places.
fn attach() -> Result<Driver, Refusal> {
    driver::laying::attach(&MAP, 65536, 8, DESC, AVAIL, USED, 0)
}

// What the driver reads of the next answer.
fn answer(rt: &impl Print, d: Driver, own: &mut [usize], mem: &Bytes) -> io::Result<()> {
    let idx = driver::reading::used_idx(d, &mem.0);
    match driver::reading::take(d, own, &mem.0, idx) {
        Ok(None) => print!(rt; ", no answer"),
        Err(e) => print!(rt; ", strange: {}", e.number()),
        Ok(Some(a)) => print!(rt; ", head {}, len {}", a.head, a.len),
    }
}

// The status byte, and the first data bytes.
fn data(rt: &impl Print, row: &Row, spots: &[usize], mem: &Bytes) -> io::Result<()> {
    let e = row.bufs.len() / 2;
    let mut out = [0; 8];
    match driver::reading::status(&mem.0, spots, row.reads, e) {
        None => print!(rt; " no status")?,
        Some(n) => print!(rt; ", status {n}")?,
    }
    driver::reading::read(&mem.0, spots, row.reads, e, &mut out);
    print!(rt; ", writable bytes {}", Hex(&out))
}

// What was laid is shown to a fresh device, and its answer read.
fn served(
    rt: &impl Print,
    host: &mut Host,
    d: Driver,
    own: &mut [usize],
    row: &Row,
    spots: &[usize],
) -> io::Result<()> {
    // What was laid can be published.
    let _ = driver::laying::publish(d, &mut host.mem.0);
    host.serve(rt, &mut host::device(row.read_only, 0))?;
    answer(rt, d, own, &host.mem)?;
    data(rt, row, spots, &host.mem)
}

// The first 16 bytes of the message become the header; the message of a write is longer.
fn request(rt: &impl Print, host: &mut Host, d: Driver, row: &Row) -> io::Result<()> {
    let mut own = [0; 8];
    let mut spots = [0; 24];
    let mut nums = [0; 8];
    let mut message = [0x5a; 528];
    let len = if row.kind == Kind::Out { 528 } else { 16 };
    let ask = Ask {
        kind: row.kind as usize,
        sector: row.sector,
        reads: row.reads,
    };
    let laid = driver::laying::lay(
        d,
        &mut own,
        &MAP,
        &mut host.mem.0,
        ask,
        &mut message[..len],
        row.bufs,
        &mut spots,
        &mut nums,
    );
    match laid {
        Err(e) => print!(rt; "not laid, {}", e.number()),
        Ok(laid) => served(rt, host, laid.driver, &mut own, row, &spots),
    }
}

pub fn rows(rt: &impl Print, host: &mut Host) -> io::Result<()> {
    let Ok(d) = attach() else {
        return Ok(());
    };
    for row in &ROWS {
        // The rings as they are when a queue is enabled: both idx are 0.
        host.mem.put(0x2000, 4, 0);
        host.mem.put(0x3000, 4, 0);
        print!(rt; "{}: ", row.name)?;
        request(rt, host, d, row)?;
        println!(rt; "")?;
        host.mem.clear(&(0x4000..0x7000));
    }
    Ok(())
}
