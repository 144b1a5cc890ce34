// Numbers in bytes, lowest byte first, and the one copy.
use crate::say::Hex;
use std::io;

pub fn numbers16(rt: &impl Print) -> io::Result<()> {
    let mut m = [0xee; 10];
    wire::put::<2>(&mut m, 1, 0x0102);
    println!(rt; "put16 0x0102 at 1: {}", Hex(&m))?;
    println!(rt; "get16 at 1: {}", wire::get::<2>(&m, 1))?;
    wire::put::<2>(&mut m, 8, 65536 + 7);
    println!(rt; "put16 65536 + 7 at 8, the last place: {}", Hex(&m))
}

pub fn numbers32(rt: &impl Print) -> io::Result<()> {
    let mut m = [0xee; 10];
    wire::put::<4>(&mut m, 1, 0x0102_0304);
    println!(rt; "put32 0x01020304 at 1: {}", Hex(&m))?;
    println!(rt; "get32 at 1: {}", wire::get::<4>(&m, 1))?;
    println!(rt; "get32 at 2: {}", wire::get::<4>(&m, 2))
}

pub fn numbers64(rt: &impl Print) -> io::Result<()> {
    let mut m = [0xee; 10];
    wire::put::<8>(&mut m, 1, 0x0102_0304_0506_0708);
    println!(rt; "put64 0x0102030405060708 at 1: {}", Hex(&m))?;
    println!(rt; "get64 at 1: {}", wire::get::<8>(&m, 1))?;
    wire::put::<8>(&mut m, 1, 0xffff_ffff_ffff_ffff);
    println!(rt; "put64 2^64 - 1 at 1: {}", Hex(&m))?;
    println!(rt; "get64 at 1: {}", wire::get::<8>(&m, 1))
}

pub fn copies(rt: &impl Print) -> io::Result<()> {
    let src = b"abcdefgh";
    let mut dst = [b'.'; 8];
    moves::copy(src, 2, &mut dst, 3, 4);
    println!(rt; "copy 4 from 2 to 3: {}", Hex(&dst))?;
    moves::copy(src, 7, &mut dst, 7, 1);
    println!(rt; "copy 1 from 7 to 7, the last byte: {}", Hex(&dst))?;
    moves::copy(src, 8, &mut dst, 8, 0);
    println!(rt; "copy 0 from 8 to 8, past the last byte: {}", Hex(&dst))?;
    moves::copy(src, 0, &mut dst, 0, 8);
    println!(rt; "copy 8 from 0 to 0, all: {}", Hex(&dst))
}

pub fn eights(rt: &impl Print) -> io::Result<()> {
    let src = b"abcdefghijklmnopqrstuvwxyz";
    let mut dst = [b'.'; 26];
    moves::copy(src, 1, &mut dst, 2, 23);
    println!(rt;
        "copy 23 from 1 to 2, two eights and a tail of 7: {}",
        Hex(&dst)
    )?;
    moves::copy(src, 10, &mut dst, 0, 16);
    println!(rt; "copy 16 from 10 to 0, two eights: {}", Hex(&dst))
}
