// The table of 01 §6: changes to V1 with data and status in one writable buffer of 513 bytes, each alone.
// A line: the answers of the steps; broken, why and where, or the used ring's first 12 bytes; what changed.
use crate::guest::{Kind, NEXT, WRITE};
use crate::host::{self, Host};
use std::io;
use std::ops::Range;

// The changes are of place, number of bytes and value; the row's data may go to these places.
struct Row {
    name: &'static str,
    changes: &'static [(usize, usize, usize)],
    data: Range<usize>,
}

const DATA: Range<usize> = 0x5000..0x5201;

// Places: idx, and entry 0 of the available ring; what descriptors 0 and 1 say.
const IDX: usize = 0x2002;

const ENTRY: usize = 0x2004;

const FLAGS_0: usize = 0x100c;

const NEXT_0: usize = 0x100e;

const ADDR: usize = 0x1010;

const LEN: usize = 0x1018;

const FLAGS: usize = 0x101c;

const NEXT_1: usize = 0x101e;

#[rattlefmt::skip]
const ROWS: [Row; 17] = [
    Row { name: "idx 9", changes: &[(IDX, 2, 9)], data: DATA },
    Row { name: "idx 8, all entries 0", changes: &[(IDX, 2, 8)], data: DATA },
    Row { name: "entry 8", changes: &[(ENTRY, 2, 8)], data: DATA },
    Row { name: "descriptor 0: next 8", changes: &[(NEXT_0, 2, 8)], data: DATA },
    Row { name: "descriptor 0: next 0", changes: &[(NEXT_0, 2, 0)], data: DATA },
    Row { name: "descriptor 1: NEXT and WRITE, next 1", changes: &[(FLAGS, 2, NEXT | WRITE), (NEXT_1, 2, 1)], data: DATA },
    Row { name: "descriptor 0: flags 5", changes: &[(FLAGS_0, 2, 5)], data: DATA },
    Row { name: "descriptor 0: flags 9", changes: &[(FLAGS_0, 2, 9)], data: DATA },
    Row { name: "descriptor 1: len 0", changes: &[(LEN, 4, 0)], data: DATA },
    Row { name: "descriptor 1 at 0x8000fdff", changes: &[(ADDR, 8, 0x8000_fdff)], data: 0xfdff..0x10000 },
    Row { name: "descriptor 1 at 0x8000fe00", changes: &[(ADDR, 8, 0x8000_fe00)], data: DATA },
    Row { name: "descriptor 1 at 0x7fffffff", changes: &[(ADDR, 8, 0x7fff_ffff)], data: DATA },
    Row { name: "descriptor 1 at 2^64 - 1", changes: &[(ADDR, 8, 0xffff_ffff_ffff_ffff)], data: DATA },
    Row {
        name: "descriptor 1 at 0x80000000 with len 2^32 - 1",
        changes: &[(ADDR, 8, 0x8000_0000), (LEN, 4, 0xffff_ffff)],
        data: DATA,
    },
    Row {
        name: "a writable buffer first, the header after it",
        changes: &[(ENTRY, 2, 1), (FLAGS, 2, NEXT | WRITE), (NEXT_1, 2, 0)],
        data: DATA,
    },
    Row { name: "descriptor 0 without NEXT", changes: &[(FLAGS_0, 2, 0)], data: DATA },
    Row { name: "descriptor 1 at 0x80003000, the used ring", changes: &[(ADDR, 8, 0x8000_3000)], data: 0x3046..0x3201 },
];

pub fn rows(rt: &impl Print, host: &mut Host) -> io::Result<()> {
    for row in &ROWS {
        host.mem.joined(Kind::In, 3, 16, 513);
        for (at, n, v) in row.changes {
            host.mem.put(*at, *n, *v);
        }
        print!(rt; "{}: ", row.name)?;
        host.play(rt, &mut host::device(false, 0), &row.data)?;
    }
    Ok(())
}

pub fn eights(rt: &impl Print, host: &mut Host) -> io::Result<()> {
    let rows = [
        ("a chain of exactly 8 descriptors", WRITE),
        ("the same with NEXT on the eighth", NEXT | WRITE),
    ];
    for (name, flags) in rows {
        host.mem.eight(flags);
        print!(rt; "{name}: ")?;
        host.play(rt, &mut host::device(false, 0), &(0x5000..0x6801))?;
    }
    Ok(())
}
