// Which word of the lent state holds what (specs/Layout.antt says it of each). The regions come last: so no other word's place
// hangs on how many there may be, and none at all on the queue's size.
pub const LEVEL: usize = 0;

pub const MEM_LEN: usize = 1;

pub const REGIONS: usize = 2;

pub const START: usize = 3;

pub const SECTORS: usize = 4;

pub const RO: usize = 5;

pub const BACKING_LEN: usize = 6;

pub const ID0: usize = 7;

pub const ID1: usize = 8;

pub const ID2: usize = 9;

pub const SIZE: usize = 10;

pub const DESC: usize = 11;

pub const AVAIL: usize = 12;

pub const USED: usize = 13;

pub const CHAIN_LEN: usize = 14;

pub const STAGE_LEN: usize = 15;

pub const TAKEN: usize = 16;

pub const ANSWERED: usize = 17;

pub const TAG: usize = 18;

pub const HEAD: usize = 19;

pub const COUNT: usize = 20;

pub const READS: usize = 21;

pub const R: usize = 22;

pub const W: usize = 23;

pub const A: usize = 24;

pub const B: usize = 25;

pub const C: usize = 26;

pub const D: usize = 27;

pub const DESCS: usize = 28;

pub const MAP: usize = 29;

pub const STATE_WORDS: usize = MAP + 3 * regions::REGIONS_MAX;
