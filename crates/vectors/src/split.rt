// The split OUT of 03 §6, step by step: descriptors 3, 6 and 4, the header cut after its tenth byte. Data byte j is
// (3 j + 2) modulo 256, which is never what stood in sector 5.
use crate::guest::{Bytes, NEXT, WRITE};
use crate::host::{self, Host};
use crate::say::Words;
use std::io;

fn lay(mem: &mut Bytes) {
    mem.descriptor(3, 0x8000_4000, 10, NEXT, 6);
    mem.descriptor(6, 0x8000_4100, 518, NEXT, 4);
    mem.descriptor(4, 0x8000_6000, 1, WRITE, 0);
    mem.put(0x4000, 8, 1);
    mem.put(0x4008, 2, 5);
    mem.put(0x4100, 4, 0);
    mem.put(0x4104, 2, 0);
    mem.offer(3);
    for (j, byte) in mem.0[0x4106..0x4306].iter_mut().enumerate() {
        *byte = ((3 * j + 2) % 256) as u8;
    }
}

fn laid(rt: &impl Print, mem: &Bytes) -> io::Result<()> {
    println!(rt; "OUT, sector 5: descriptor 3: {}", mem.hex(0x1030..0x1040))?;
    println!(rt; "OUT, sector 5: descriptor 6: {}", mem.hex(0x1060..0x1070))?;
    println!(rt; "OUT, sector 5: descriptor 4: {}", mem.hex(0x1040..0x1050))?;
    println!(rt;
        "OUT, sector 5: header: {} | {}",
        mem.hex(0x4000..0x400a),
        mem.hex(0x4100..0x4106)
    )
}

fn sector(rt: &impl Print, backing: &Bytes) -> io::Result<()> {
    let first = backing.hex(3584..3592);
    let last = backing.hex(4092..4096);
    println!(rt; "OUT, sector 5: the disk's sector 5 {first} .. {last}")
}

// Of the sector; of the disk before it and behind it; of the backing slice before the disk and behind it.
fn changed(rt: &impl Print, backing: &Bytes, disk: &Bytes) -> io::Result<()> {
    let sector = backing.differ(disk, &(3584..4096));
    let sectors = backing.changed(disk, &[1024..3584, 4096..33792]);
    let others = backing.changed(disk, &[0..1024, 33792..65536]);
    print!(rt; "OUT, sector 5: changed of the sector: {sector}")?;
    print!(rt; "; of the disk's other sectors:{}", Words(&sectors))?;
    println!(rt; "; of the backing slice's other bytes:{}", Words(&others))
}

// The same with len 0 in its third descriptor, which is number 4 of the table.
pub fn refused(rt: &impl Print, host: &mut Host) -> io::Result<()> {
    lay(&mut host.mem);
    host.mem.put(0x1048, 4, 0);
    print!(rt; "OUT, sector 5, len 0 in descriptor 4: ")?;
    host.play(rt, &mut host::device(false, 0), &(0x4100..0x6001))
}

// disk is what stood in the backing slice at the beginning.
pub fn out(rt: &impl Print, host: &mut Host, disk: &Bytes) -> io::Result<()> {
    lay(&mut host.mem);
    laid(rt, &host.mem)?;
    let before = host.mem;
    host.trace(rt, &mut host::device(false, 0))?;
    let status = host.mem.hex(0x6000..0x6001);
    let used = host.mem.hex(0x3000..0x300c);
    print!(rt; "OUT, sector 5: status {status}, used ring {used}")?;
    host.mem.settle(rt, &before, &(0x4100..0x6001))?;
    sector(rt, &host.backing)?;
    changed(rt, &host.backing, disk)
}
