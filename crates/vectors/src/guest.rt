// The guest of 01 §6: one region of 65,536 bytes at 0x80000000, the slice's start, and a driver that lays requests into it.
ghost use Rattle.std.specs.Prelude.{◌≡◌};
ghost use Rattle.vectors.specs.Blank.{blanked};

use crate::say::Hex;
use std::fmt;
use std::ops::Range;

// What a byte holds that nobody has laid.
pub const BLANK: u8 = 0xee;

// Flags of a descriptor.
pub const NEXT: usize = 1;

pub const WRITE: usize = 2;

// The type of a request; no document names a type 2.
#[derive(Clone, Copy, PartialEq, Eq)]
pub enum Kind {
    In = 0,
    Out = 1,
    Two = 2,
    Flush = 4,
    GetId = 8,
}

impl fmt::Display for Kind {
    fn fmt<W: fmt::Write>(&self, f: &mut fmt::Formatter<W>) -> fmt::Result {
        f.write_str(match self {
            Kind::In => "IN",
            Kind::Out => "OUT",
            Kind::Two => "type 2",
            Kind::Flush => "FLUSH",
            Kind::GetId => "GET_ID",
        })
    }
}

// A slice that the host lends: the guest's memory, or the one that the disk lies in.
#[derive(Clone, Copy)]
pub struct Bytes(pub [u8; 65536]);

impl Bytes {
    pub fn new() -> Self {
        Bytes([BLANK; 65536])
    }

    // What stands at these places; nothing where some are outside.
    pub fn at(&self, places: Range<usize>) -> &[u8] {
        self.0.get(places).unwrap_or(&[])
    }

    pub fn hex(&self, places: Range<usize>) -> Hex<'_> {
        Hex(self.at(places))
    }

    // How many of these places differ.
    pub fn differ(&self, other: &Bytes, places: &Range<usize>) -> usize {
        let here = self.at(places.start..places.end);
        let there = other.at(places.start..places.end);
        here.iter().zip(there).filter(|(a, b)| a != b).count()
    }

    // Nobody has laid these places.
    #[tactic(auto, using(model::proofs::Tests::tests), unfolding(crate::specs::Blank::blanked))]
    pub fn blank(&mut self, places: &Range<usize>)
        ensures { self.new.0 ≡ blanked places.now.start places.now.end self.old.0 }
    {
        let (from, to) = (places.start, places.end);
        if from <= to && to <= self.0.len() {
            self.0[from..to].fill(BLANK);
        }
    }

    // The n lowest bytes of v, 2, 4 or 8, from place k on, by the put that the lines then show; none for another n.
    pub fn put(&mut self, k: usize, n: usize, v: usize) {
        if 65528 < k {
            return;
        }
        match n {
            2 => wire::put::<2>(&mut self.0, k, v),
            4 => wire::put::<4>(&mut self.0, k, v),
            8 => wire::put::<8>(&mut self.0, k, v),
            _ => {}
        }
    }

    // A descriptor at place k.
    pub fn write(&mut self, k: usize, addr: usize, len: usize, flags: usize, next: usize) {
        for (at, n, v) in [(0, 8, addr), (8, 4, len), (12, 2, flags), (14, 2, next)] {
            self.put(k.wrapping_add(at), n, v);
        }
    }

    // Descriptor i of the queue.
    pub fn descriptor(&mut self, i: usize, addr: usize, len: usize, flags: usize, next: usize) {
        self.write(0x1000 + 16 * (i % 8), addr, len, flags, next);
    }

    pub fn header(&mut self, kind: Kind, sector: usize) {
        self.put(0x4000, 8, kind as usize);
        self.put(0x4008, 8, sector);
    }

    // The header at 0x80004000 in one readable buffer of r bytes, descriptor 0. One chain is offered: entry 0 is its head, and idx 1.
    pub fn ask(&mut self, kind: Kind, sector: usize, r: usize) {
        self.header(kind, sector);
        self.descriptor(0, 0x8000_4000, r, NEXT, 1);
        self.offer(0);
    }

    // Available ring 00 00 01 00, the head and seven entries of 0; used ring 00 00 00 00.
    pub fn offer(&mut self, head: usize) {
        self.put(0x2000, 4, 0x10000);
        self.put(0x2004, 8, head);
        self.put(0x200c, 8, 0);
        self.put(0x3000, 4, 0);
    }

    // V1: sector 3 is read, data and status in two buffers.
    pub fn v1(&mut self) {
        self.ask(Kind::In, 3, 16);
        self.descriptor(1, 0x8000_5000, 512, NEXT | WRITE, 2);
        self.descriptor(2, 0x8000_6000, 1, WRITE, 0);
    }

    // A request whose writable bytes are one buffer of w bytes at 0x80005000.
    pub fn joined(&mut self, kind: Kind, sector: usize, r: usize, w: usize) {
        self.ask(kind, sector, r);
        self.descriptor(1, 0x8000_5000, w, WRITE, 0);
    }

    // Sector 0 and the five after it: 16 r and writable 512, 512, 512, 512, 512, 512, 1. The eighth descriptor has these flags.
    pub fn eight(&mut self, flags: usize) {
        self.ask(Kind::In, 0, 16);
        for i in 1..7 {
            self.descriptor(i, 0x8000_4c00 + 0x400 * i, 512, NEXT | WRITE, i + 1);
        }
        self.descriptor(7, 0x8000_6800, 1, flags, 0);
    }
}
