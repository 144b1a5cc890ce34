// What set-up refuses, from 20 to 30 and from 42 to 46: a line for each, named by the call and what is wrong.
use crate::host::{self, AVAIL, DESC, STAGE_BYTES, State, USED};
use std::io;

pub fn memory(rt: &impl Print) -> io::Result<()> {
    let rows: [(&str, &[usize]); 8] = [
        ("no region", &[]),
        ("33 regions", &[0; 99]),
        ("four words", &[4096, 16, 0, 8192]),
        ("the region of 01 §6", &[0x8000_0000, 65536, 0]),
        ("length 0", &[0x8000_0000, 0, 0]),
        ("a byte past the slice", &[0x8000_0000, 65536, 1]),
        ("up to 2^64", &[0xffff_ffff_ffff_0000, 65536, 0]),
        ("one address in common", &[4096, 16, 0, 4111, 16, 16]),
    ];
    for (name, map) in rows {
        let mut state = [0; hostiledisk::STATE_WORDS];
        let answer = hostiledisk::hd_memory(&mut state, map, 65536);
        println!(rt; "hd_memory, {name}: {answer}")?;
    }
    Ok(())
}

// Where the disk begins, its sectors, and its identity, on a backing slice of 65,536 bytes.
pub fn disks(rt: &impl Print) -> io::Result<()> {
    let id = [0; 21];
    let rows = [
        ("to the last byte", 65024, 1, &id[..20]),
        ("an identity of 19 bytes", 65025, 0, &id[..19]),
        ("an identity of 21 bytes", 65025, 0, &id[..21]),
        ("no sector", 65025, 0, &id[..20]),
        ("2^32 + 1 sectors", 0, 0x1_0000_0001, &id[..20]),
        ("a byte past the backing slice", 65025, 1, &id[..20]),
        ("a sum that would wrap", 0xffff_ffff_ffff_ff00, 1, &id[..20]),
    ];
    for (name, start, sectors, id) in rows {
        let mut state = [0; hostiledisk::STATE_WORDS];
        host::set_memory(&mut state, 65536);
        let answer = hostiledisk::hd_disk(&mut state, start, sectors, 0, id, 65536);
        println!(rt; "hd_disk, {name}: {answer}")?;
    }
    Ok(())
}

// A device with memory and disk of 01 §6.
fn described() -> State {
    let mut state = [0; hostiledisk::STATE_WORDS];
    host::set_memory(&mut state, 65536);
    host::set_disk(&mut state, false, 65536);
    state
}

// Size of a queue, descriptors, available ring, used ring.
#[rattlefmt::skip]
const QUEUES: [(&str, usize, usize, usize, usize); 13] = [
    ("the queue of 01 §6", 8, DESC, AVAIL, USED),
    ("size 0", 0, DESC, AVAIL, USED),
    ("size 3", 3, DESC, AVAIL, USED),
    ("size 2048", 2048, DESC, AVAIL, USED),
    ("descriptors misaligned", 8, 0x8000_1008, AVAIL, USED),
    ("available ring misaligned", 8, DESC, 0x8000_2001, USED),
    ("used ring misaligned", 8, DESC, AVAIL, 0x8000_3002),
    ("descriptors to the last byte", 8, 0x8000_ff80, AVAIL, USED),
    ("descriptors past it", 8, 0x8000_ff90, AVAIL, USED),
    ("used ring behind available ring", 8, DESC, AVAIL, 0x8000_2018),
    ("used ring on its end", 8, DESC, AVAIL, 0x8000_2014),
    ("used ring behind descriptors", 8, DESC, AVAIL, 0x8000_1080),
    ("used ring on their end", 8, DESC, AVAIL, 0x8000_107c),
];

pub fn queues(rt: &impl Print) -> io::Result<()> {
    for (name, size, desc, avail, used) in QUEUES {
        let mut state = described();
        let answer = hostiledisk::hd_enable(&mut state, size, desc, avail, used, 16, STAGE_BYTES);
        println!(rt; "hd_enable, {name}: {answer}")?;
    }
    Ok(())
}

// Words of chain memory, bytes of staging memory, and where the counters start.
pub fn rooms(rt: &impl Print) -> io::Result<()> {
    let rows = [
        ("15 words of chain memory", 15, 0, 65536),
        ("a byte too few to stage", 16, STAGE_BYTES - 1, 65536),
        ("start 65536", 16, STAGE_BYTES, 65536),
        ("start 65535", 16, STAGE_BYTES, 65535),
    ];
    for (name, chain, stage, start) in rows {
        let mut state = described();
        let answer = host::set_queue(&mut state, chain, stage, start);
        println!(rt; "hd_enable_at, {name}: {answer}")?;
    }
    Ok(())
}
