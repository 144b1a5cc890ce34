// The host of 01 §6 and 03 §6: a disk of 64 sectors from byte 1,024 of its backing slice on, whose other bytes hold 0xee;
// a queue of 8; and the loop that steps the device.
use crate::guest::Bytes;
use crate::say::Words;
use std::ops::Range;
use std::{fmt, io};

pub const STAGE_BYTES: usize = 1048576;

// Where descriptors, available ring and used ring of 01 §6 lie.
pub const DESC: usize = 0x8000_1000;

pub const AVAIL: usize = 0x8000_2000;

pub const USED: usize = 0x8000_3000;

pub type State = [usize; hostiledisk::STATE_WORDS];

// What the host lends to a device, beside its state and its chain memory.
#[derive(Drop)]
pub struct Host {
    pub mem: Bytes,
    pub backing: Bytes,
    pub stage: [u8; STAGE_BYTES],
}

// A slice with a disk in it, whose byte i holds (7 i + i / 512) modulo 256.
pub fn disk() -> Bytes {
    let mut backing = Bytes::new();
    for (i, byte) in backing.0[1024..33792].iter_mut().enumerate() {
        *byte = ((7 * i + i / 512) % 256) as u8;
    }
    backing
}

pub fn set_memory(state: &mut [usize], len: usize) {
    hostiledisk::hd_memory(state, &[0x8000_0000, 65536, 0], len);
}

pub fn set_disk(state: &mut [usize], read_only: bool, len: usize) {
    let id = b"SCRATCH-0007\0\0\0\0\0\0\0\0";
    hostiledisk::hd_disk(state, 1024, 64, usize::from(read_only), id, len);
}

pub fn set_queue(state: &mut [usize], chain: usize, stage: usize, start: usize) -> usize {
    hostiledisk::hd_enable_at(state, 8, DESC, AVAIL, USED, chain, stage, start)
}

// A device with both counters at start.
pub fn device(read_only: bool, start: usize) -> State {
    let mut state = [0; hostiledisk::STATE_WORDS];
    set_memory(&mut state, 65536);
    set_disk(&mut state, read_only, 65536);
    set_queue(&mut state, 16, STAGE_BYTES, start);
    state
}

// The words of hd_status.
pub fn status(state: &[usize]) -> [usize; 10] {
    let mut out = [9; 10];
    hostiledisk::hd_status(state, &mut out);
    out
}

// Why a queue is broken, at which descriptor, as which of its chain, and how many the last complete chain had: words of hd_status, as C has
// them.
#[derive(Clone, Copy)]
pub struct Broken {
    reason: usize,
    at: usize,
    number: usize,
    last: usize,
}

impl Broken {
    // None where the queue is not broken.
    pub fn of(state: &[usize]) -> Option<Self> {
        let [_, reason, _, _, _, _, number, _, at, last] = status(state);
        if reason == 0 {
            return None;
        }
        Some(Broken {
            reason,
            at,
            number,
            last,
        })
    }
}

impl fmt::Display for Broken {
    fn fmt<W: fmt::Write>(&self, f: &mut fmt::Formatter<W>) -> fmt::Result {
        let Broken {
            reason,
            at,
            number,
            last,
        } = self;
        write!(
            f,
            "broken {reason} at descriptor {at}, number {number} of its chain, last chain {last}"
        )
    }
}

// Does the host stop stepping after this answer?
fn stops(answer: usize) -> bool {
    !matches!(answer, 1 | 2)
}

impl Host {
    pub fn step(&mut self, state: &mut [usize], chain: &mut [usize]) -> usize {
        let Host {
            mem,
            backing,
            stage,
        } = self;
        hostiledisk::hd_step(state, &mut mem.0, &mut backing.0, chain, stage)
    }

    // Steps until nothing is left to do or the queue is broken, at most this many times; `tell` is told each answer. How many steps there
    // were, and what the last one answered.
    pub fn run<F: FnMut(usize, &[usize]) -> io::Result<()>>(
        &mut self,
        state: &mut [usize],
        chain: &mut [usize],
        most: usize,
        mut tell: F,
    ) -> io::Result<(usize, usize)>
        requires { F.IsAlwaysCallable tell }
    {
        let mut answer = 1;
        for i in 0..most {
            answer = self.step(state, chain);
            tell(answer, state)?;
            if stops(answer) {
                return Ok((i + 1, answer));
            }
        }
        Ok((most, answer))
    }

    // Says the answers, side by side.
    pub fn serve(&mut self, rt: &impl Print, state: &mut [usize]) -> io::Result<()> {
        self.run(state, &mut [0; 16], 64, |answer, _| print!(rt; "{answer}"))?;
        Ok(())
    }

    // Says each answer on a line, with the words of hd_status.
    pub fn trace(&mut self, rt: &impl Print, state: &mut [usize]) -> io::Result<()> {
        let tell = |answer: usize, state: &[usize]| println!(rt;
            "{answer} |{}",
            Words(&status(state))
        );
        self.run(state, &mut [0; 16], 64, tell)?;
        Ok(())
    }

    // What was laid is served, and its data may go to these places. Says the answers; why the queue is broken, or the used ring's first
    // 12 bytes; and what changed.
    pub fn play(
        &mut self,
        rt: &impl Print,
        state: &mut [usize],
        places: &Range<usize>,
    ) -> io::Result<()> {
        let before = self.mem;
        self.serve(rt, state)?;
        match Broken::of(state) {
            Some(why) => print!(rt; ", {why}")?,
            None => print!(rt; ", used ring {}", self.mem.hex(0x3000..0x300c))?,
        }
        self.mem.settle(rt, &before, places)
    }
}
