// What set-up answers to a map: 0, or its refusal from 20 to 24.
use crate::say::Words;
use std::{fmt, io};

// Three words to a region: guest address, length, offset in the slice.
#[derive(Clone, Copy)]
struct Map<'a>(&'a [usize]);

impl fmt::Display for Map<'_> {
    fn fmt<W: fmt::Write>(&self, f: &mut fmt::Formatter<W>) -> fmt::Result {
        for region in self.0.chunks(3) {
            write!(f, " |{}", Words(region))?;
        }
        Ok(())
    }
}

fn ask(rt: &impl Print, name: &str, m: usize, map: &[usize]) -> io::Result<()> {
    let answer = match regions::check_map(m, map) {
        Ok(()) => 0,
        Err(e) => e.number(),
    };
    println!(rt; "{name}: slice of {m}, regions{}: {answer}", Map(map))
}

// The slice's length; a region's address, length and offset.
pub fn regions_alone(rt: &impl Print) -> io::Result<()> {
    let guest = 0x8000_0000;
    let rows = [
        ("exactly the slice", 65536, guest, 65536, 0),
        ("one byte past the slice", 65535, guest, 65536, 0),
        ("one place too far", 65536, guest, 65536, 1),
        (
            "an offset whose sum would wrap",
            65536,
            guest,
            16,
            0xffff_ffff_ffff_fff8,
        ),
        ("empty", 65536, guest, 0, 70000),
        ("ends at 2^64 - 1", 16, 0xffff_ffff_ffff_ffef, 16, 0),
        ("ends at 2^64", 16, 0xffff_ffff_ffff_fff0, 16, 0),
        ("22 before 23", 65536, 0xffff_ffff_ffff_ffff, 65537, 0),
    ];
    for (name, m, addr, len, offset) in rows {
        ask(rt, name, m, &[addr, len, offset])?;
    }
    Ok(())
}

pub fn regions_together(rt: &impl Print) -> io::Result<()> {
    let rows = [
        ("touching", 8192, [4096, 4096, 0, 8192, 4096, 4096]),
        (
            "one address in common",
            8192,
            [4096, 4096, 0, 8191, 4096, 4096],
        ),
        (
            "one address in common, swapped",
            8192,
            [8191, 4096, 0, 4096, 4096, 4096],
        ),
        (
            "the same slice bytes",
            4096,
            [4096, 4096, 0, 16384, 4096, 0],
        ),
        (
            "the first region's refusal first",
            16,
            [0xffff_ffff_ffff_ffff, 16, 0, 0, 0, 0],
        ),
    ];
    for (name, m, map) in &rows {
        ask(rt, name, *m, map)?;
    }
    Ok(())
}

// Regions of one byte, no two at one address, all at the slice's start.
pub fn how_many(rt: &impl Print) -> io::Result<()> {
    let mut map = [1; 99];
    for (i, region) in map.chunks_exact_mut(3).enumerate() {
        region[0] = 3 * i;
        region[2] = 0;
    }
    let rows = [
        ("none", &map[..0]),
        ("four words", &map[..4]),
        ("thirty-two", &map[..96]),
        ("thirty-three", &map[..99]),
    ];
    for (name, map) in rows {
        ask(rt, name, 1, map)?;
    }
    Ok(())
}

pub fn kept(rt: &impl Print) -> io::Result<()> {
    let mut held = [9; 6];
    regions::keep(&mut held, 0, &[4096, 16, 0]);
    println!(rt; "three words kept at the front of six:{}", Map(&held))
}
