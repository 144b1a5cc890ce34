// Is the memory the queue's, and is there room for what the caller wants?
ghost use Rattle.std.specs.Prelude.{◌≡◌, [], ◌∷◌, ◌+◌, ◌*◌, ◌≤◌, ◌<◌, length};
ghost use Rattle.model.specs.Ring.{size_max};
ghost use Rattle.model.specs.Bytes.{put};
ghost use Rattle.model.specs.Memory.{regions};
ghost use Rattle.driver.specs.Lay.{queue_in, ready, counts_ok, spot_of, in_memory, settled, area_words};

use model::Queue;
use regions::Map;

// The three areas lie in a memory of m bytes. A test and no type: no function that a caller calls has a `requires` (docs/GUARANTEES.md).
#[tactic(auto, using(model::proofs::Tests::tests, crate::proofs::Laws::sizes), unfolding(crate::specs::Lay::queue_in, model::specs::Sane::inside))]
pub fn queue_in(q: Queue, m: usize) -> bool
    ensures { result ≡ queue_in q m }
{
    let n = q.size;
    if !ring::size_ok(n) {
        return false;
    }
    if !sane::inside(m, q.desc, 16 * n) {
        return false;
    }
    if !sane::inside(m, q.avail, 6 + 2 * n) {
        return false;
    }
    sane::inside(m, q.used, 6 + 8 * n)
}

// The map is one that set-up allows, the queue lies in this memory, and the driver has a word for each of its descriptors.
#[tactic(auto, using(model::proofs::Tests::tests), unfolding(crate::specs::Lay::ready))]
pub fn ready(q: Queue, map: &[usize], m: usize, own: usize) -> bool
    ensures { result ≡ ready q (regions map.now) m own }
{
    if !regions::all_sound(m, map) {
        return false;
    }
    queue_in(q, m) && q.size <= own
}

// Whole buffers, at most q, and private memory for them.
#[tactic(auto, using(model::proofs::Tests::tests), unfolding(crate::specs::Lay::counts_ok))]
pub fn counts_ok(q: usize, words: usize, reads: usize, spots: usize, nums: usize) -> bool
    requires { q ≤ size_max }
    ensures { result ≡ counts_ok q words reads spots nums }
{
    let e = words / 2;
    if words % 2 != 0 {
        return false;
    }
    if q < e {
        return false;
    }
    if e < reads {
        return false;
    }
    if spots < 2 * e + 6 {
        return false;
    }
    e <= nums
}

fn spot_of(map: Map, addr: usize, len: usize) -> Option<usize>
    ensures { result ≡ spot_of (regions map.entry.words.now) addr len }
{
    if 4294967295 < len {
        return None;
    }
    map.locate(addr, len)
}

// Where the e buffers lie in the slice; false at the first that isn't in memory.
pub fn settle(map: Map, bufs: &[usize], e: usize, spots: &mut [usize]) -> bool
    requires e_in_bounds { 2 * e ≤ length bufs.now }
    requires e_in_bounds_2 { 2 * e ≤ length spots.old }
    ensures value { result ≡ in_memory (regions map.entry.words.now) bufs.now e 0 }
    ensures spots_after { spots.new ≡ settled (regions map.entry.words.now) bufs.now e 0 spots.old }
{
    for i in 0..e {
        let len = bufs[2 * i + 1];
        let found = spot_of(map, bufs[2 * i], len);
        let Some(x) = found else {
            return false;
        };
        chain::hold(spots, i, x, len);
    }
    true
}

// The areas' spots, behind those of e buffers.
#[tactic(auto, using(crate::proofs::Laws::puts), unfolding(model::specs::Chain::held, crate::specs::Lay::area_words))]
pub fn note_areas(q: Queue, e: usize, spots: &mut [usize])
    requires size_le_size_max { q.size ≤ size_max }
    requires e_le_size_max { e ≤ size_max }
    requires e_in_bounds { 2 * e + 6 ≤ length spots.old }
    ensures { spots.new ≡ put spots.old (2 * e) (area_words q) }
{
    let n = q.size;
    chain::hold(spots, e, q.desc, 16 * n);
    chain::hold(spots, e + 1, q.avail, 6 + 2 * n);
    chain::hold(spots, e + 2, q.used, 6 + 8 * n);
}
