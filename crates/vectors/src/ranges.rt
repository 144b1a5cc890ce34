// Where a range of guest bytes lies in the slice.
use regions::Map;
use std::io;

fn ask(rt: &impl Print, name: &str, map: &[usize], m: usize, a: usize, n: usize) -> io::Result<()> {
    print!(rt; "{name}: locate {a} + {n}: ")?;
    // A `Map` holds regions that are sound.
    if !regions::all_sound(m, map) {
        return println!(rt; "unsound");
    }
    let map = Map { words: map, len: m };
    match map.locate(a, n) {
        Some(x) => println!(rt; "at {x}"),
        None => println!(rt; "nowhere"),
    }
}

// The region of 01 §6: guest 0x80000000, 65,536 bytes, at the slice's start.
pub fn one_region(rt: &impl Print) -> io::Result<()> {
    let map = [0x8000_0000, 65536, 0];
    let rows = [
        ("a sum that would wrap", 0xffff_ffff_ffff_ffff, 513),
        ("ends at the last byte", 0x8000_fdff, 513),
        ("ends one byte later", 0x8000_fe00, 513),
        ("the first byte", 0x8000_0000, 1),
        ("begins one byte before", 0x7fff_ffff, 513),
        ("the whole region", 0x8000_0000, 65536),
        ("longer than the region", 0x8000_0000, 0xffff_ffff),
        ("no bytes", 0x8000_0000, 0),
    ];
    for (name, a, n) in rows {
        ask(rt, name, &map, 65536, a, n)?;
    }
    ask(
        rt,
        "a map that leaves its slice",
        &map,
        65535,
        0x8000_0000,
        1,
    )
}

// Two regions that adjoin, in the slice too: addresses 4096 to 8191 at 0, and 8192 to 12287 at 4096. Then two at the same slice bytes.
pub fn two_regions(rt: &impl Print) -> io::Result<()> {
    let map = [4096, 4096, 0, 8192, 4096, 4096];
    ask(rt, "spans two adjoining regions", &map, 8192, 8000, 400)?;
    ask(rt, "its part in the first", &map, 8192, 8000, 192)?;
    ask(rt, "its part in the second", &map, 8192, 8192, 208)?;
    let shared = [4096, 4096, 0, 16384, 4096, 0];
    ask(rt, "a slice byte", &shared, 4096, 4100, 1)?;
    ask(rt, "the same by another address", &shared, 4096, 16388, 1)
}
