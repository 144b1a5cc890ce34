// The types that the definitions and the code share, and how a buffer of the chain is read.
#![tactic(auto)]

ghost use Rattle.std.specs.Prelude.{◌≡◌, ◌+◌, ◌*◌, ◌^◌, ◌≤◌, ◌<◌, length, get_or};
ghost use Rattle.model.specs.SetUp.{number};
ghost use Rattle.model.specs.Step.{buffer, left};

// 01 §2: a queue's size, and the slice offsets of its descriptors, available ring and used ring.
#[derive(Clone, Copy)]
pub struct Queue {
    pub size: usize,
    pub desc: usize,
    pub avail: usize,
    pub used: usize,
}

// What set-up refuses: 01 §1 memory (20 to 24), 01 §2 enabling (25 to 28, and 42, 43, 46 of what is lent and begun with),
// 03 §1 a disk (29, 30).
#[derive(Clone, Copy, PartialEq, Eq)]
pub enum Refusal {
    RegionCount = 20,
    EmptyRegion = 21,
    LeavesSlice = 22,
    LeavesAddresses = 23,
    RegionsOverlap = 24,
    QueueSize = 25,
    Misaligned = 26,
    NotInMemory = 27,
    Entangled = 28,
    Capacity = 29,
    LeavesBacking = 30,
    ChainMemory = 42,
    StagingMemory = 43,
    StartCount = 46,
}

impl Refusal {
    // The number that C is answered.
    pub fn number(self) -> usize
        ensures { result ≡ number self }
    {
        self as usize
    }
}

// 01 §2: a descriptor, as fetched.
#[derive(Clone, Copy)]
pub struct Desc {
    pub addr: usize,
    pub len: usize,
    pub flags: usize,
    pub next: usize,
}

// 01 §3: what a descriptor's tests say. Broken with this reason; or its buffer lies at this offset, and it has NEXT or is the last.
// One enum for three outcomes: a Result would put the last two into an enum of its own and say no more.
#[derive(Clone, Copy)]
pub enum Tested {
    Bad(usize),
    Next(usize),
    Last(usize),
}

// The request at hand: its head, the descriptors held of it, how many of them are readable (the first ones),
// and the numbers r and w of readable and writable bytes (03 §2). It has no invariant, since it is read from words that anybody may have
// spoilt: `sane` says which are a chain's. That w is 1 or more holds of a complete chain alone.
#[derive(Clone, Copy)]
pub struct Walk {
    pub head: usize,
    pub count: usize,
    pub reads: usize,
    pub r: usize,
    pub w: usize,
}

// The next readable byte to fetch: in this buffer of the chain, after this many bytes of it. It has no invariant: the chain is elsewhere.
#[derive(Clone, Copy)]
pub struct Place {
    pub buf: usize,
    pub skip: usize,
}

// A range of a slice.
#[derive(Clone, Copy)]
pub struct Span {
    pub at: usize,
    pub len: usize,
}

// Buffer i of the private chain. The chain is memory that C lends, two words for each buffer: where it lies, and its length.
#[inline(always)]
pub fn buffer(chain: &[usize], i: usize) -> Span
    requires { 2 * i + 1 < length chain.now }
    ensures { result ≡ buffer chain.now i }
{
    Span {
        at: chain[2 * i],
        len: chain[2 * i + 1],
    }
}

// What is left of the buffer at a place.
#[inline(always)]
pub fn left(chain: &[usize], p: Place) -> Span
    requires buf_in_bounds { 2 * p.buf + 1 < length chain.now }
    requires skip_in { p.skip ≤ get_or chain.now (2 * p.buf + 1) 0 }
    requires at_bound { get_or chain.now (2 * p.buf) 0 + p.skip < 2 ^ 64 }
    ensures { result ≡ left chain.now p }
{
    let b = buffer(chain, p.buf);
    Span {
        at: b.at + p.skip,
        len: b.len - p.skip,
    }
}

// 03 §1: a disk's first byte in the backing slice, its sectors, and 0 unless it is read-only. The flag is a number:
// a word of the state may hold any, and `request::verdict` takes any.
#[derive(Clone, Copy)]
pub struct Disk {
    pub start: usize,
    pub sectors: usize,
    pub ro: usize,
}

// 03 §1: the 20 identity bytes as numbers, lowest byte first: the first eight, the next eight, the last four.
#[derive(Clone, Copy)]
pub struct Identity {
    pub first: usize,
    pub second: usize,
    pub last: usize,
}

// 03 §3: what becomes of a request. Failed is status 1, Unsupported status 2; the others have status 0.
#[derive(Clone, Copy)]
pub enum Job {
    Failed,
    Unsupported,
    Done,
    Read(usize),
    Write(usize),
    Identity,
}

// The step that comes next (S1 to S7), and what it needs to know. Broken: the reason, the head, the descriptors fetched,
// and the number of the one at which the chain was refused, 65,536 where none was (DEV-12).
// The reason stays a number: words that anybody may have spoilt hold any, and `sane` says which are reasons. So does the 65,536, which C is shown.
#[derive(Clone, Copy)]
pub enum Phase {
    Poll,
    Entry,
    Chain(Walk, usize),
    Header(Walk, Place, usize),
    Payload(Walk, Place, usize, usize),
    Answer(Walk, Job, usize),
    Publish(Walk, usize),
    Broken(usize, usize, usize, usize),
}

// What S3 answers: the step that comes next, and how many descriptors the last complete chain has (DEV-12).
#[derive(Clone, Copy)]
pub struct Linked {
    pub phase: Phase,
    pub descs: usize,
}
