// The device: one call is one step, S1 to S7. A step copies the one range that it wants out of guest memory,
// decides from private values alone, and writes without a decision.
#![tactic(auto)]

ghost use Rattle.std.specs.Prelude.{◌≡◌, ◌+◌, ◌*◌, ◌%◌, ◌≤◌, ◌<◌, length};
ghost use Rattle.model.specs.Bytes.{put, word, bytes};
ghost use Rattle.model.specs.Memory.{regions};
ghost use Rattle.model.specs.Ring.{polled, headed, plus_one, size_max};
ghost use Rattle.model.specs.Chain.{desc_at, tested, described, descs_after, keeps};
ghost use Rattle.model.specs.Step.{code_after};
ghost use Rattle.device.specs.Outcome.{number};

use model::{Disk, Identity, Linked, Phase, Queue, Walk};
use regions::Map;

pub mod gather;

// What set-up has fixed, but for the memory map: the queue, the disk, its identity, and the slice's length.
#[derive(Clone, Copy)]
pub struct Config {
    pub queue: Queue,
    pub disk: Disk,
    pub id: Identity,
    pub m: usize,
}

// What a step answers.
#[derive(Clone, Copy)]
pub enum Outcome {
    Idle = 0,
    WentOn = 1,
    Answered = 2,
    Broken = 3,
    Refused = 4,
}

impl Outcome {
    // The number that C is answered.
    pub fn number(self) -> usize
        ensures { result ≡ number self }
    {
        self as usize
    }

    // A step that publishes nothing answers by the phase that comes next.
    #[tactic(auto, unfolding(model::specs::Step::code_after))]
    pub fn after(p: Phase) -> Outcome
        ensures { number result ≡ code_after p }
    {
        match p {
            Phase::Poll => Outcome::Idle,
            Phase::Broken(..) => Outcome::Broken,
            _ => Outcome::WentOn,
        }
    }
}

// S1: idx of the available ring is fetched, and nothing else.
pub fn poll(queue: Queue, taken: usize, mem: &[u8]) -> Phase
    requires avail_in_bounds { queue.avail + 4 ≤ length mem.now }
    requires taken_bound { taken < 65536 }
    ensures { result ≡ polled queue.size taken (word 2 (queue.avail + 2) mem.now) }
{
    let idx = ring::avail_idx(mem, queue.avail);
    ring::polled(queue.size, taken, idx)
}

// S2: the entry is fetched in a step of its own, since a driver writes it before idx.
pub fn entry(queue: Queue, taken: usize, mem: &[u8]) -> Phase
    requires le_size { 1 ≤ queue.size }
    requires size_in_bounds { queue.avail + (6 + 2 * queue.size) ≤ length mem.now }
    ensures { result ≡ headed queue.size (word 2 (queue.avail + (4 + 2 * (taken % queue.size))) mem.now) }
{
    let head = ring::avail_entry(mem, queue.avail, queue.size, taken);
    ring::headed(queue.size, head)
}

// S3: one descriptor. `n` is the number of descriptors of the last complete chain (DEV-12).
pub fn descriptor(
    queue: Queue,
    map: Map,
    k: Walk,
    cur: usize,
    n: usize,
    mem: &[u8],
    chain: &mut [usize],
) -> Linked
    requires size_le_size_max { queue.size ≤ size_max }
    requires size_in_bounds { queue.desc + 16 * queue.size ≤ length mem.now }
    requires size_in_bounds_2 { 2 * queue.size ≤ length chain.old }
    requires cur_lt_size { cur < queue.size }
    requires count_le_size { k.count ≤ queue.size }
    requires reads_le_count { k.reads ≤ k.count }
    requires r_bound { k.r ≤ 4294967295 * k.reads }
    requires w_bound { k.w ≤ 4294967295 * k.count }
    ensures phase_value { result.phase ≡ described k cur (desc_at (queue.desc + 16 * cur) mem.now) (tested (regions map.entry.words.now) queue.size k (desc_at (queue.desc + 16 * cur) mem.now)) }
    ensures descs_value { result.descs ≡ descs_after n k (tested (regions map.entry.words.now) queue.size k (desc_at (queue.desc + 16 * cur) mem.now)) }
    ensures chain_after { chain.new ≡ keeps chain.old k (desc_at (queue.desc + 16 * cur) mem.now) (tested (regions map.entry.words.now) queue.size k (desc_at (queue.desc + 16 * cur) mem.now)) }
{
    let d = chain::fetch(mem, queue.desc + 16 * cur);
    chain::described(map, queue.size, k, cur, d, n, chain)
}

// S7: idx of the used ring, alone.
pub fn publish(queue: Queue, answered: usize, mem: &mut [u8])
    requires used_in_bounds { queue.used + 4 ≤ length mem.old }
    requires answered_bound { answered < 65536 }
    ensures { mem.new ≡ put mem.old (queue.used + 2) (bytes 2 (plus_one answered)) }
{
    ring::used_idx(mem, queue.used, ring::one_more(answered));
}
