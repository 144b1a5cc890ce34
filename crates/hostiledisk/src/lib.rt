// The calls of the C interface, which `hostiledisk_c` exports. No function has a `requires`: whatever the numbers, lengths and
// contents are, the call returns, stays inside the slices and answers a code. A word is a `usize`, which is 64 bits: uint64_t in C.
#![tactic(auto)]

ghost use Rattle.std.specs.Prelude.{◌≡◌, true, ◌≤◌, length};
ghost use Rattle.hostiledisk.specs.Calls.{chain_words, hd_memory, hd_disk, hd_enable_at, hd_reset, hd_status, hd_step, StepIs};
ghost use Rattle.words.specs.Layout.{state_words};

use model::Refusal;
use words::{State, at};

pub mod arms;
pub mod set_up;
pub mod status;
pub mod stepping;

// What hd_status shows of a phase: the reason, the step that comes next, head, descriptors and bytes fetched,
// and the descriptor at which the chain was refused. All are numbers, as the words that C is shown.
#[derive(Clone, Copy, Default)]
pub struct Seen {
    pub reason: usize,
    pub step: usize,
    pub head: usize,
    pub count: usize,
    pub bytes: usize,
    pub at: usize,
}

// As many whatever the queue's size: a chain lies in memory of its own.
pub const STATE_WORDS: usize = at::STATE_WORDS;

// Words of state that the host lends for a device.
pub fn hd_state_words() -> usize
    ensures { result ≡ state_words }
{
    STATE_WORDS
}

// Words of chain memory for a queue of this size: two for each descriptor.
#[tactic(auto, using(model::proofs::Tests::tests, words::proofs::Laws::sizes), unfolding(crate::specs::Calls::chain_words))]
pub fn hd_chain_words(queue_size: usize) -> usize
    ensures { result ≡ chain_words queue_size }
{
    if ring::size_ok(queue_size) {
        return 2 * queue_size;
    }
    0
}

// Bytes of staging memory.
pub fn hd_stage_bytes() -> usize
    ensures { result ≡ 1048576 }
{
    1048576
}

// The calls answer numbers, 0 or a refusal's, and take read_only as one: the C interface.
#[tactic(auto, using(model::proofs::SetUp::refusals), unfolding(crate::specs::Calls::hd_memory))]
pub fn hd_memory(state: &mut [usize], map: &[usize], mem_len: usize) -> usize
    ensures value { result ≡ (hd_memory state.old map.now mem_len).code }
    ensures state_after { state.new ≡ (hd_memory state.old map.now mem_len).state }
{
    if state.len() < STATE_WORDS {
        return 40;
    }
    match regions::check_map(mem_len, map) {
        Ok(()) => {
            set_up::note_memory(state, map, mem_len);
            0
        }
        Err(e) => e.number(),
    }
}

#[tactic(auto, using(model::proofs::SetUp::refusals), unfolding(crate::specs::Calls::hd_disk))]
pub fn hd_disk(
    state: &mut [usize],
    start: usize,
    sectors: usize,
    read_only: usize,
    id: &[u8],
    backing_len: usize,
) -> usize
    ensures value { result ≡ (hd_disk state.old start sectors read_only id.now backing_len).code }
    ensures state_after { state.new ≡ (hd_disk state.old start sectors read_only id.now backing_len).state }
{
    if state.len() < STATE_WORDS {
        return 40;
    }
    let level = State { words: state }.level();
    if level < 1 {
        return 41;
    }
    if 2 < level {
        return 41;
    }
    if id.len() != 20 {
        return 44;
    }
    match disk::check_disk(start, sectors, backing_len) {
        Ok(()) => {
            set_up::note_disk(state, start, sectors, read_only, id, backing_len);
            0
        }
        Err(e) => e.number(),
    }
}

#[tactic(auto, using(model::proofs::SetUp::refusals), unfolding(crate::specs::Calls::hd_enable_at))]
pub fn hd_enable_at(
    state: &mut [usize],
    size: usize,
    desc: usize,
    avail: usize,
    used: usize,
    chain_len: usize,
    stage_len: usize,
    start: usize,
) -> usize
    ensures value { result ≡ (hd_enable_at state.old size desc avail used chain_len stage_len start).code }
    ensures state_after { state.new ≡ (hd_enable_at state.old size desc avail used chain_len stage_len start).state }
{
    if state.len() < STATE_WORDS {
        return 40;
    }
    let view = State { words: state };
    if view.level() != 2 {
        return 41;
    }
    let found = set_up::areas(view, size, desc, avail, used);
    match set_up::enable(
        state,
        chain_len,
        stage_len,
        start,
        found.map_err(Refusal::number),
    ) {
        Ok(()) => 0,
        Err(n) => n,
    }
}

pub fn hd_enable(
    state: &mut [usize],
    size: usize,
    desc: usize,
    avail: usize,
    used: usize,
    chain_len: usize,
    stage_len: usize,
) -> usize
    ensures value { result ≡ (hd_enable_at state.old size desc avail used chain_len stage_len 0).code }
    ensures state_after { state.new ≡ (hd_enable_at state.old size desc avail used chain_len stage_len 0).state }
{
    hd_enable_at(state, size, desc, avail, used, chain_len, stage_len, 0)
}

#[tactic(auto, using(model::proofs::Tests::tests), unfolding(crate::specs::Calls::hd_reset))]
pub fn hd_reset(state: &mut [usize]) -> usize
    ensures value { result ≡ (hd_reset state.old).code }
    ensures state_after { state.new ≡ (hd_reset state.old).state }
{
    if state.len() < STATE_WORDS {
        return 40;
    }
    if (State { words: state }).level() == 3 {
        state[at::LEVEL] = 2;
    }
    0
}

#[tactic(auto, using(model::proofs::Tests::tests), unfolding(crate::specs::Calls::hd_status))]
pub fn hd_status(state: &[usize], out: &mut [usize]) -> usize
    ensures value { result ≡ (hd_status state.now out.old).code }
    ensures out_after { out.new ≡ (hd_status state.now out.old).state }
{
    if state.len() < STATE_WORDS {
        return 40;
    }
    if out.len() < 8 {
        return 45;
    }
    status::write(State { words: state }, out);
    0
}

// One step of the device.
pub fn hd_step(
    state: &mut [usize],
    mem: &mut [u8],
    backing: &mut [u8],
    chain: &mut [usize],
    stage: &mut [u8],
) -> usize
    ensures { StepIs (hd_step state.old mem.old backing.old chain.old stage.old) result state.new mem.new backing.new chain.new stage.new }
{
    stepping::step(state, mem, backing, chain, stage).number()
}
