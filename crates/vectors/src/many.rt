// DEV-13: the memory of 01 §6 as 32 regions of 2,048 bytes that adjoin. V1's data and status are one buffer of 513 bytes in the last
// region, or begin in the last but one.
use crate::guest::{Kind, WRITE};
use crate::host::{self, Host, STAGE_BYTES, State};
use std::io;

// Three words to a region: guest address, length (2,048 in each), offset in the slice.
fn map() -> [usize; 96] {
    let mut words = [2048; 96];
    for (i, region) in words.chunks_exact_mut(3).enumerate() {
        region[0] = 0x8000_0000 + 2048 * i;
        region[2] = 2048 * i;
    }
    words
}

fn device() -> State {
    let mut state = [0; hostiledisk::STATE_WORDS];
    hostiledisk::hd_memory(&mut state, &map(), 65536);
    host::set_disk(&mut state, false, 65536);
    host::set_queue(&mut state, 16, STAGE_BYTES, 0);
    state
}

pub fn rows(rt: &impl Print, host: &mut Host) -> io::Result<()> {
    let rows = [
        ("in the last", 0xf800..0xfa01),
        ("over the border of two", 0xf7ff..0xfa00),
    ];
    for (name, data) in &rows {
        host.mem.ask(Kind::In, 3, 16);
        host.mem
            .descriptor(1, 0x8000_0000 + data.start, 513, WRITE, 0);
        print!(rt; "32 regions, data and status {name}: ")?;
        host.play(rt, &mut device(), data)?;
    }
    Ok(())
}
