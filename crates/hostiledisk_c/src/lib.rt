// The C interface of the static library: the calls of `hostiledisk` under the names of include/hostiledisk.h, each with the
// same parameters and clauses. A slice is a pointer and a length in C.
#![tactic(auto)]

ghost use Rattle.std.specs.Prelude.{◌≡◌};
ghost use Rattle.hostiledisk.specs.Calls.{chain_words, hd_memory, hd_disk, hd_enable_at, hd_reset, hd_status, hd_step, StepIs};
ghost use Rattle.words.specs.Layout.{state_words};

// Words of state that the host lends for a device.
#[unsafe(no_mangle)]
pub extern "C" fn hd_state_words() -> usize
    ensures { result ≡ state_words }
{
    hostiledisk::hd_state_words()
}

// Words of chain memory for a queue of this size: two for each descriptor.
#[unsafe(no_mangle)]
pub extern "C" fn hd_chain_words(queue_size: usize) -> usize
    ensures { result ≡ chain_words queue_size }
{
    hostiledisk::hd_chain_words(queue_size)
}

// Bytes of staging memory.
#[unsafe(no_mangle)]
pub extern "C" fn hd_stage_bytes() -> usize
    ensures { result ≡ 1048576 }
{
    hostiledisk::hd_stage_bytes()
}

#[unsafe(no_mangle)]
pub extern "C" fn hd_memory(state: &mut [usize], map: &[usize], mem_len: usize) -> usize
    ensures value { result ≡ (hd_memory state.old map.now mem_len).code }
    ensures state_after { state.new ≡ (hd_memory state.old map.now mem_len).state }
{
    hostiledisk::hd_memory(state, map, mem_len)
}

#[unsafe(no_mangle)]
pub extern "C" fn hd_disk(
    state: &mut [usize],
    start: usize,
    sectors: usize,
    read_only: usize,
    id: &[u8],
    backing_len: usize,
) -> usize
    ensures value { result ≡ (hd_disk state.old start sectors read_only id.now backing_len).code }
    ensures state_after { state.new ≡ (hd_disk state.old start sectors read_only id.now backing_len).state }
{
    hostiledisk::hd_disk(state, start, sectors, read_only, id, backing_len)
}

#[unsafe(no_mangle)]
pub extern "C" fn hd_enable_at(
    state: &mut [usize],
    size: usize,
    desc: usize,
    avail: usize,
    used: usize,
    chain_len: usize,
    stage_len: usize,
    start: usize,
) -> usize
    ensures value { result ≡ (hd_enable_at state.old size desc avail used chain_len stage_len start).code }
    ensures state_after { state.new ≡ (hd_enable_at state.old size desc avail used chain_len stage_len start).state }
{
    hostiledisk::hd_enable_at(state, size, desc, avail, used, chain_len, stage_len, start)
}

#[unsafe(no_mangle)]
pub extern "C" fn hd_enable(
    state: &mut [usize],
    size: usize,
    desc: usize,
    avail: usize,
    used: usize,
    chain_len: usize,
    stage_len: usize,
) -> usize
    ensures value { result ≡ (hd_enable_at state.old size desc avail used chain_len stage_len 0).code }
    ensures state_after { state.new ≡ (hd_enable_at state.old size desc avail used chain_len stage_len 0).state }
{
    hostiledisk::hd_enable(state, size, desc, avail, used, chain_len, stage_len)
}

#[unsafe(no_mangle)]
pub extern "C" fn hd_reset(state: &mut [usize]) -> usize
    ensures value { result ≡ (hd_reset state.old).code }
    ensures state_after { state.new ≡ (hd_reset state.old).state }
{
    hostiledisk::hd_reset(state)
}

#[unsafe(no_mangle)]
pub extern "C" fn hd_status(state: &[usize], out: &mut [usize]) -> usize
    ensures value { result ≡ (hd_status state.now out.old).code }
    ensures out_after { out.new ≡ (hd_status state.now out.old).state }
{
    hostiledisk::hd_status(state, out)
}

// One step of the device.
#[unsafe(no_mangle)]
pub extern "C" fn hd_step(
    state: &mut [usize],
    mem: &mut [u8],
    backing: &mut [u8],
    chain: &mut [usize],
    stage: &mut [u8],
) -> usize
    ensures { StepIs (hd_step state.old mem.old backing.old chain.old stage.old) result state.new mem.new backing.new chain.new stage.new }
{
    hostiledisk::hd_step(state, mem, backing, chain, stage)
}
