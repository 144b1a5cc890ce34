// The driver's half (03 §7): lays requests into guest memory and reads their answers. For tests, and for guests that we write ourselves.
// No public function has a `requires`: what does not fit is refused, and nothing is written to guest memory.
//
// The caller lends, beside guest memory and its map (as for hd_memory):
//   own    a word for each descriptor, 0 at the beginning: 0, or 1 + the head of the request that has it
//   spots  two words for each buffer of a request and six more: where they lie in the slice. Read again with the answer. Flat words, as the
//          device's chain, which C lends: `chain::hold`, `sane::all_inside` and `answer::spread` take both.
//   nums   a word for each buffer of a request: scratch
#![tactic(auto)]

ghost use Rattle.std.specs.Prelude.{◌≡◌};
ghost use Rattle.driver.specs.Lay.{number};
ghost use Rattle.driver.specs.Take.{strange_number};

use model::Queue;

mod form;
pub mod laying;
mod plan;
pub mod reading;
mod room;
mod writes;

// A queue's areas, the next available idx, and the used idx up to which answers have been read.
#[derive(Clone, Copy)]
pub struct Driver {
    pub queue: Queue,
    pub next: usize,
    pub seen: usize,
}

// What is asked: type and sector of the header, and how many of the buffers, the first ones, are readable.
// The type is a number: a caller may ask for any, and laying refuses those that no disk accepts (63).
#[derive(Clone, Copy)]
pub struct Ask {
    pub kind: usize,
    pub sector: usize,
    pub reads: usize,
}

// A request was laid: the driver afterwards, and the head.
#[derive(Clone, Copy)]
pub struct Laid {
    pub driver: Driver,
    pub head: usize,
}

// Why a request isn't laid (D22).
#[derive(Clone, Copy, Debug, PartialEq, Eq)]
pub enum NotLaid {
    Memory = 60,
    Counts = 61,
    Outside = 62,
    Form = 63,
    Overlap = 64,
    TooFew = 65,
}

impl NotLaid {
    // What programs print of it.
    pub fn number(self) -> usize
        ensures { result ≡ number self }
    {
        self as usize
    }
}

// An answer was taken: the driver afterwards, head and length.
#[derive(Clone, Copy)]
pub struct Answer {
    pub driver: Driver,
    pub head: usize,
    pub len: usize,
}

// Why what the device wrote is no answer (D22).
#[derive(Clone, Copy, Debug, PartialEq, Eq)]
pub enum Strange {
    Memory = 60,
    Ahead = 66,
    Unknown = 67,
}

impl Strange {
    // What programs print of it.
    pub fn number(self) -> usize
        ensures { result ≡ strange_number self }
    {
        self as usize
    }
}
