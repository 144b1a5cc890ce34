// DEV-13: a queue of 1,024 and a chain of as many descriptors. On the memory of 01 §6: descriptors at 0x80008000, available ring at
// 0x8000c000, used ring at 0x8000d000. The chain reads sectors 0 to 15: 16 r, 1,022 times 8 w, then 17 w, the writable bytes side by
// side from 0x80005000 on.
ghost use Rattle.std.specs.Prelude.{◌≡◌};
ghost use Rattle.vectors.specs.Blank.{cleared};

use crate::guest::{Bytes, Kind, NEXT, WRITE};
use crate::host::{self, Broken, Host, STAGE_BYTES};
use crate::say::Words;
use std::io;
use std::ops::Range;

// Descriptors, available ring, used ring, header, data and status, and all other memory.
const AREAS: [Range<usize>; 8] = [
    0x8000..0xc000,
    0xc000..0xd000,
    0xd000..0xd00c,
    0x4000..0x5000,
    0x5000..0x7001,
    0..0x4000,
    0x7001..0x8000,
    0xd00c..0x10000,
];

fn enable(state: &mut [usize], chain: usize) -> usize {
    host::set_memory(state, 65536);
    host::set_disk(state, false, 65536);
    let (desc, avail, used) = (0x8000_8000, 0x8000_c000, 0x8000_d000);
    hostiledisk::hd_enable(state, 1024, desc, avail, used, chain, STAGE_BYTES)
}

// What its chain memory must be.
pub fn lent(rt: &impl Print) -> io::Result<()> {
    for size in [1024, 2048] {
        println!(rt;
            "hd_chain_words of {size}: {}",
            hostiledisk::hd_chain_words(size)
        )?;
    }
    println!(rt; "hd_state_words: {}", hostiledisk::hd_state_words())?;
    let mut state = [0; hostiledisk::STATE_WORDS];
    for chain in [2047, 2048] {
        let answer = enable(&mut state, chain);
        println!(rt; "hd_enable, size 1024, {chain} words of chain memory: {answer}")?;
    }
    Ok(())
}

// The last descriptor has these flags.
fn lay(mem: &mut Bytes, flags: usize) {
    mem.header(Kind::In, 0);
    mem.write(0x8000, 0x8000_4000, 16, NEXT, 1);
    for i in 1..1023 {
        mem.write(0x8000 + 16 * i, 0x8000_4ff8 + 8 * i, 8, NEXT | WRITE, i + 1);
    }
    mem.write(0xbff0, 0x8000_6ff0, 17, flags, 0);
    mem.put(0xc000, 4, 0x10000);
    mem.put(0xc004, 2, 0);
    mem.put(0xd000, 4, 0);
}

// No more than where a row lays or may write: what earlier rows wrote elsewhere is counted at the program's end.
#[tactic(auto, unfolding(crate::specs::Blank::cleared))]
fn clear(mem: &mut Bytes)
    ensures { mem.new.0 ≡ cleared mem.old.0 }
{
    mem.blank(&(0x4000..0x4010));
    mem.blank(&(0x5000..0x7001));
    mem.blank(&(0x8000..0xc006));
    mem.blank(&(0xd000..0xd00c));
}

fn play(rt: &impl Print, host: &mut Host, flags: usize) -> io::Result<()> {
    lay(&mut host.mem, flags);
    let before = host.mem;
    let mut state = [0; hostiledisk::STATE_WORDS];
    enable(&mut state, 2048);
    // The longest chain takes 1,030 steps.
    let (steps, last) = host.run(&mut state, &mut [0; 2048], 1100, |_, _| Ok(()))?;
    print!(rt; "{steps} steps, the last one {last}")?;
    match Broken::of(&state) {
        Some(why) => print!(rt; ", {why}")?,
        None => answered(rt, host)?,
    }
    println!(rt; ", changed{}", Words(&host.mem.changed(&before, &AREAS)))?;
    clear(&mut host.mem);
    Ok(())
}

fn answered(rt: &impl Print, host: &Host) -> io::Result<()> {
    let used = host.mem.hex(0xd000..0xd00c);
    let status = host.mem.hex(0x7000..0x7001);
    let data = host.mem.at(0x5000..0x7000);
    let wrong = data
        .iter()
        .zip(host.backing.at(1024..9216))
        .filter(|(a, b)| a != b)
        .count();
    print!(rt; ", used ring {used}, status {status}, wrong bytes of 8192: {wrong}")
}

pub fn chains(rt: &impl Print, host: &mut Host) -> io::Result<()> {
    print!(rt; "a chain of exactly 1024 descriptors on a queue of 1024: ")?;
    play(rt, host, WRITE)?;
    print!(rt; "the same with NEXT on the last: ")?;
    play(rt, host, NEXT | WRITE)
}
