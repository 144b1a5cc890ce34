// What set-up writes into the lent words, once nothing is left to refuse. The length stands in the clauses here as in words::save_row,
// and for the reason given there.
ghost use Rattle.std.specs.Prelude.{◌≡◌, true, ◌∷◌, ◌+◌, ◌*◌, ◌/◌, ◌≤◌, length, eqb, is_ok};
ghost use Rattle.model.specs.Bytes.{put};
ghost use Rattle.model.specs.Memory.{regions, regions_max};
ghost use Rattle.model.specs.Pick.{both};
ghost use Rattle.model.specs.Ring.{areas};
ghost use Rattle.words.specs.Layout.{state_words, memory_ok, map_words};
ghost use Rattle.hostiledisk.specs.Calls.{flag, memory_set, disk_set, queue_set, number_of, enabled_with};

use model::{Phase, Queue, Refusal};
use regions::Map;
use words::{State, at};

pub fn note_memory(state: &mut [usize], map: &[usize], m: usize)
    requires state_words_in_bounds { state_words ≤ length state.old }
    requires map_len_bound { length map.now ≤ 3 * regions_max }
    ensures { state.new ≡ memory_set state.old map.now m }
{
    state[at::LEVEL] = 1;
    state[at::MEM_LEN] = m;
    state[at::REGIONS] = map.len() / 3;
    regions::keep(state, at::MAP, map);
}

// ro is C's number: 0, or anything else for a read-only disk.
pub fn note_disk(
    state: &mut [usize],
    start: usize,
    sectors: usize,
    ro: usize,
    id: &[u8],
    backing: usize,
)
    requires state_words_in_bounds { state_words ≤ length state.old }
    requires id_len { length id.now ≡ 20 }
    ensures { state.new ≡ disk_set state.old start sectors ro id.now backing }
{
    state[at::LEVEL] = 2;
    state[at::START] = start;
    state[at::SECTORS] = sectors;
    state[at::RO] = usize::from(ro != 0);
    state[at::BACKING_LEN] = backing;
    state[at::ID0] = wire::get::<8>(id, 0);
    state[at::ID1] = wire::get::<8>(id, 8);
    state[at::ID2] = wire::get::<4>(id, 16);
}

// Where the areas of a queue would lie in the registered memory.
pub fn areas(
    state: State,
    size: usize,
    desc: usize,
    avail: usize,
    used: usize,
) -> Result<Queue, Refusal>
    requires { memory_ok state.words.now ≡ true }
    ensures { result ≡ areas (regions (map_words state.entry.words.now)) size desc avail used }
{
    let n = state.words[at::REGIONS];
    let end = at::MAP + 3 * n;
    let map = Map {
        words: &state.words[at::MAP..end],
        len: state.words[at::MEM_LEN],
    };
    ring::areas(map, size, desc, avail, used)
}

fn note_queue(state: &mut [usize], q: Queue, chain: usize, stage: usize, start: usize)
    requires { state_words ≤ length state.old }
    ensures { state.new ≡ queue_set state.old q chain stage start }
{
    state[at::LEVEL] = 3;
    state[at::SIZE] = q.size;
    state[at::DESC] = q.desc;
    state[at::AVAIL] = q.avail;
    state[at::USED] = q.used;
    state[at::CHAIN_LEN] = chain;
    state[at::STAGE_LEN] = stage;
    words::save(state, start, start, 0, Phase::Poll);
}

// A refusal comes as its number, and any is answered as it came: a caller may have refused what no Refusal names.
// Such a number may be 0, so `done` says apart whether the queue was enabled.
#[tactic(auto, using(model::proofs::Tests::tests), unfolding(crate::specs::Calls::enabled_with))]
pub fn enable(
    state: &mut [usize],
    chain: usize,
    stage: usize,
    start: usize,
    found: Result<Queue, usize>,
) -> Result<(), usize>
    requires { state_words ≤ length state.old }
    ensures done { is_ok result ≡ both (is_ok found) (eqb (enabled_with state.old chain stage start found).code 0) }
    ensures value { number_of result ≡ (enabled_with state.old chain stage start found).code }
    ensures state_after { state.new ≡ (enabled_with state.old chain stage start found).state }
{
    let q = found?;
    if chain / 2 < q.size {
        return Err(Refusal::ChainMemory.number());
    }
    if stage < 1048576 {
        return Err(Refusal::StagingMemory.number());
    }
    if 65536 <= start {
        return Err(Refusal::StartCount.number());
    }
    note_queue(state, q, chain, stage, start);
    Ok(())
}
