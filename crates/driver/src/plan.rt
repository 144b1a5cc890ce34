// What becomes of a request before anything is written: the tests of laying, and which descriptors it gets. Sees no guest memory.
ghost use Rattle.std.specs.Prelude.{◌≡◌, true, [], ◌∷◌, ◌+◌, ◌*◌, ◌≤◌, ◌<◌, length, take, leb};
ghost use Rattle.model.specs.Bytes.{put};
ghost use Rattle.model.specs.Memory.{regions};
ghost use Rattle.driver.specs.Lay.{free, noted, plan_on, plan, PlanIs};

use crate::{NotLaid, form, room};
use model::Queue;
use regions::Map;

// Descriptor i is noted if it is free and still wanted.
#[tactic(auto, using(model::proofs::Tests::tests, crate::proofs::Laws::noting), unfolding(crate::specs::Lay::noted))]
fn note(state: usize, i: usize, n: usize, k: usize, nums: &mut [usize]) -> usize
    requires { n ≤ length nums.old }
    ensures value { result ≡ k + length (noted state i n k) }
    ensures nums_after { nums.new ≡ put nums.old k (noted state i n k) }
{
    if state != 0 {
        return k;
    }
    if n <= k {
        return k;
    }
    nums[k] = i;
    k + 1
}

// The numbers of the first n free descriptors, lowest first; false if there are fewer.
#[tactic(auto, using(crate::proofs::Laws::chosen))]
fn choose(own: &[usize], q: usize, n: usize, nums: &mut [usize]) -> bool
    requires q_in_bounds { q ≤ length own.now }
    requires n_in_bounds { n ≤ length nums.old }
    ensures value { result ≡ leb n (length (free q own.now)) }
    ensures nums_after { nums.new ≡ put nums.old 0 (take n (free q own.now)) }
{
    let mut k = 0;
    for i in 0..q {
        k = note(own[i], i, n, k, nums);
    }
    n <= k
}

// The buffers are in memory: are they a request, apart, and no more than there are free descriptors?
#[tactic(auto, using(model::proofs::Tests::tests), unfolding(crate::specs::Lay::plan_on))]
fn plan_on(
    q: usize,
    own: &[usize],
    kind: usize,
    r: usize,
    reads: usize,
    e: usize,
    spots: &[usize],
    nums: &mut [usize],
) -> Result<(), NotLaid>
    requires q_in_bounds { q ≤ length own.now }
    requires reads_le_e { reads ≤ e }
    requires e_in_bounds { 2 * e + 6 ≤ length spots.now }
    requires e_in_bounds_2 { e ≤ length nums.old }
    ensures { PlanIs (plan_on q own.now kind r reads e spots.now nums.old) result spots.now nums.new }
{
    if !form::form_ok(kind, r, spots, reads, e) {
        return Err(NotLaid::Form);
    }
    if !form::separate(spots, e + 3) {
        return Err(NotLaid::Overlap);
    }
    if !choose(own, q, e, nums) {
        return Err(NotLaid::TooFew);
    }
    Ok(())
}

// m bytes of guest memory, r of message.
pub fn plan(
    q: Queue,
    map: &[usize],
    m: usize,
    own: &[usize],
    kind: usize,
    r: usize,
    bufs: &[usize],
    reads: usize,
    spots: &mut [usize],
    nums: &mut [usize],
) -> Result<(), NotLaid>
    ensures { PlanIs (plan q (regions map.now) m own.now kind r bufs.now reads spots.old nums.old) result spots.new nums.new }
{
    if !room::ready(q, map, m, own.len()) {
        return Err(NotLaid::Memory);
    }
    if !room::counts_ok(q.size, bufs.len(), reads, spots.len(), nums.len()) {
        return Err(NotLaid::Counts);
    }
    let e = bufs.len() / 2;
    let map = Map { words: map, len: m };
    if !room::settle(map, bufs, e, spots) {
        return Err(NotLaid::Outside);
    }
    room::note_areas(q, e, spots);
    plan_on(q.size, own, kind, r, reads, e, spots, nums)
}
