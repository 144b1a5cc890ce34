// 01 §6: V1 and the wrap, step by step. A line for each step: its answer, and what hd_status says after it.
use crate::guest::{Bytes, Kind};
use crate::host::{self, Host};
use crate::say::Words;
use std::io;

fn laid(rt: &impl Print, mem: &Bytes) -> io::Result<()> {
    let rows = [
        ("descriptor 0", 0x1000, 0x1010),
        ("descriptor 1", 0x1010, 0x1020),
        ("descriptor 2", 0x1020, 0x1030),
        ("header", 0x4000, 0x4010),
        ("available ring", 0x2000, 0x2006),
    ];
    for (name, from, to) in rows {
        println!(rt; "V1: {name}: {}", mem.hex(from..to))?;
    }
    Ok(())
}

fn answer(rt: &impl Print, mem: &Bytes) -> io::Result<()> {
    let data = mem.hex(0x5000..0x5008);
    let last = mem.hex(0x51ff..0x5200);
    let status = mem.hex(0x6000..0x6001);
    let used = mem.hex(0x3000..0x300c);
    println!(rt; "V1: data {data} .. last {last}, status {status}, used ring {used}")
}

// Of data, status and used ring, and of everything before, between and behind them.
fn changed(rt: &impl Print, mem: &Bytes, before: &Bytes) -> io::Result<()> {
    let written = [0x3000..0x300c, 0x5000..0x5200, 0x6000..0x6001];
    let others = [0..0x3000, 0x300c..0x5000, 0x5200..0x6000, 0x6001..0x10000];
    let written = mem.changed(before, &written);
    let others = mem.changed(before, &others);
    print!(rt;
        "V1: changed of used ring, data, status:{}",
        Words(&written)
    )?;
    println!(rt; "; of all other memory:{}", Words(&others))
}

pub fn v1(rt: &impl Print, host: &mut Host) -> io::Result<()> {
    host.mem.v1();
    laid(rt, &host.mem)?;
    let before = host.mem;
    let mut state = host::device(false, 0);
    host.trace(rt, &mut state)?;
    answer(rt, &host.mem)?;
    changed(rt, &host.mem, &before)?;
    host.mem.clear(&(0x5000..0x6001));
    Ok(())
}

// A flush, offered at place 7 by an idx of 0 after 65,535; place 0 has an entry that would break the queue.
fn lay_wrap(mem: &mut Bytes) {
    mem.joined(Kind::Flush, 0, 16, 1);
    mem.put(0x2002, 2, 0);
    mem.put(0x2004, 2, 8);
    mem.put(0x3002, 2, 65535);
}

pub fn wrap(rt: &impl Print, host: &mut Host) -> io::Result<()> {
    lay_wrap(&mut host.mem);
    println!(rt; "Wrap: taken = answered = 65535, idx 0")?;
    let before = host.mem;
    let mut state = host::device(false, 65535);
    host.trace(rt, &mut state)?;
    let mem = &host.mem;
    let idx = mem.hex(0x3002..0x3004);
    let entry = mem.hex(0x303c..0x3044);
    let status = mem.hex(0x5000..0x5001);
    print!(rt; "Wrap: used idx {idx}, place 7 at 0x8000303c {entry}, status {status}")?;
    host.mem.settle(rt, &before, &(0x5000..0x5001))
}
