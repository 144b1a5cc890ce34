// A round trip through the compiled code: a disk and a queue are set up, both counters at 65,535, and a driver writes a sector in cut buffers and
// reads it back. Prints what set-up answered, the two status values, and how many of the bytes came back.
#![tactic(auto)]

use driver::Driver;
use std::io;
use trip::{NotDone, Trip};

const MAP: [usize; 3] = [0x8000_0000, 65536, 0];

// Where descriptors, available ring and used ring lie, and where both counters start.
const DESC: usize = 0x8000_1000;

const AVAIL: usize = 0x8000_2000;

const USED: usize = 0x8000_3000;

const START: usize = 65535;

const STAGE_BYTES: usize = 1048576;

// Each byte that is written.
const WRITTEN: u8 = 0x5a;

// What the host lends to the device.
#[derive(Drop)]
struct Host {
    state: [usize; hostiledisk::STATE_WORDS],
    mem: [u8; 65536],
    backing: [u8; 65536],
    chain: [usize; 16],
    stage: [u8; STAGE_BYTES],
}

impl Host {
    // The device of 03 §6, from byte 1,024 of its backing slice on. Says what each call answers.
    fn set_up(&mut self, rt: &impl Print) -> io::Result<()> {
        let id = b"SCRATCH-0007\0\0\0\0\0\0\0\0";
        let state = &mut self.state;
        let memory = hostiledisk::hd_memory(state, &MAP, 65536);
        let disk = hostiledisk::hd_disk(state, 1024, 64, 0, id, 65536);
        let queue = hostiledisk::hd_enable_at(state, 8, DESC, AVAIL, USED, 16, STAGE_BYTES, START);
        println!(rt; "set-up: {memory} {disk} {queue}")
    }

    // Sector 5, the header cut after its tenth byte; read back into buffers of 100, 412 and 1 bytes. Each request is served by at most 64 steps.
    fn round(&mut self, d: Driver, out: &mut [u8; 512]) -> Result<Trip, NotDone> {
        let Host {
            state,
            mem,
            backing,
            chain,
            stage,
        } = self;
        let mut own = [0; 8];
        let mut spots = [0; 24];
        let mut nums = [0; 8];
        let mut message = [WRITTEN; 528];
        let mut header = [0; 16];
        let bufs = [0x8000_4000, 10, 0x8000_4100, 518, 0x8000_6000, 1];
        let bufs2 = [
            0x8000_4000,
            16,
            0x8000_5000,
            100,
            0x8000_5800,
            412,
            0x8000_6000,
            1,
        ];
        trip::round_trip::round_trip(
            state,
            mem,
            backing,
            chain,
            stage,
            64,
            d,
            &mut own,
            &MAP,
            5,
            &mut message,
            &bufs,
            2,
            &mut header,
            &bufs2,
            1,
            out,
            &mut spots,
            &mut nums,
        )
    }
}

fn main(rt: HostRuntime) -> io::Result<()> {
    let mut host = Host {
        state: [0; hostiledisk::STATE_WORDS],
        mem: [0; 65536],
        backing: [0; 65536],
        chain: [0; 16],
        stage: [0; STAGE_BYTES],
    };
    host.set_up(&rt)?;
    let Ok(d) = driver::laying::attach(&MAP, 65536, 8, DESC, AVAIL, USED, START) else {
        return Ok(());
    };
    let mut out = [0; 512];
    match host.round(d, &mut out) {
        Err(e) => println!(rt; "failed: {}", e.number()),
        Ok(both) => {
            let (write, read) = (both.write, both.read);
            let back = out.iter().filter(|b| **b == WRITTEN).count();
            println!(rt;
                "written: status {write}; read: status {read}; bytes that came back: {back}"
            )
        }
    }
}
