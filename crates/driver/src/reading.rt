// Reading answers. idx and entry of the used ring are two calls, as they are two steps of the device: the caller's barrier goes between.
ghost use Rattle.std.specs.Prelude.{◌≡◌, true, ◌+◌, ◌-◌, ◌*◌, ◌≤◌, ◌<◌, length, take};
ghost use Rattle.model.specs.Bytes.{put, word};
ghost use Rattle.model.specs.Step.{spans};
ghost use Rattle.model.specs.Sane.{all_inside};
ghost use Rattle.requests.specs.Serve.{gather};
ghost use Rattle.driver.specs.Take.{used_idx, outstanding, freed, released, countable, judged, used_word, taken, own_after, spots_in, status_of, data_of};

use crate::{Answer, Driver, Strange, room};

// idx of the used ring, by one load; the driver's own count where this memory isn't the queue's, as the definition `used_idx` has it.
#[tactic(auto, using(model::proofs::Tests::tests, crate::proofs::Laws::queues), unfolding(crate::specs::Take::used_idx))]
pub fn used_idx(d: Driver, mem: &[u8]) -> usize
    ensures { result ≡ used_idx d mem.now }
{
    let q = d.queue;
    if !room::queue_in(q, mem.len()) {
        return d.seen;
    }
    wire::get::<2>(mem, q.used + 2)
}

#[tactic(auto, using(model::proofs::Tests::tests), unfolding(crate::specs::Take::outstanding))]
fn outstanding(q: usize, own: &[usize], id: usize) -> bool
    requires { q ≤ length own.now }
    ensures { result ≡ outstanding q own.now id }
{
    id < q && own[id] == id + 1
}

// Is there an answer, and does it name an outstanding request? Sees no guest memory.
#[tactic(auto, using(model::proofs::Tests::tests, crate::proofs::Answers::counted), unfolding(crate::specs::Take::judged))]
fn judge(
    d: Driver,
    m: usize,
    own: &[usize],
    idx: usize,
    id: usize,
    len: usize,
) -> Result<Option<Answer>, Strange>
    ensures { result ≡ judged d m own.now idx id len }
{
    let q = d.queue;
    if !countable(d, m, own.len(), idx) {
        return Err(Strange::Memory);
    }
    let n = ring::pending(idx, d.seen);
    if n == 0 {
        return Ok(None);
    }
    if q.size < n {
        return Err(Strange::Ahead);
    }
    if !outstanding(q.size, own, id) {
        return Err(Strange::Unknown);
    }
    let driver = Driver {
        queue: q,
        next: d.next,
        seen: ring::one_more(d.seen),
    };
    Ok(Some(Answer {
        driver,
        head: id,
        len,
    }))
}

// This memory is the queue's, there is a word for each descriptor, and the two indices are indices.
#[tactic(auto, using(model::proofs::Tests::tests), unfolding(crate::specs::Take::countable))]
fn countable(d: Driver, m: usize, own: usize, idx: usize) -> bool
    ensures { result ≡ countable d m own idx }
{
    if !room::queue_in(d.queue, m) {
        return false;
    }
    if own < d.queue.size {
        return false;
    }
    idx < 65536 && d.seen < 65536
}

// Half of the next used entry: its id (0) or its length (4).
#[tactic(auto, using(model::proofs::Tests::tests, crate::proofs::Laws::queues), unfolding(crate::specs::Take::used_word))]
fn used_word(d: Driver, mem: &[u8], half: usize) -> usize
    requires { half ≤ 4 }
    ensures { result ≡ used_word d mem.now half }
{
    let q = d.queue;
    if !room::queue_in(q, mem.len()) {
        return 0;
    }
    wire::get::<4>(mem, q.used + (4 + 8 * (d.seen % q.size)) + half)
}

// The descriptors that belong to v are free again.
#[tactic(auto, using(crate::proofs::Answers::turns), unfolding(crate::specs::Take::released))]
fn release(own: &mut [usize], q: usize, v: usize)
    requires { q ≤ length own.old }
    ensures { own.new ≡ released q v own.old }
{
    for i in 0..q {
        free_one(own, i, v);
    }
}

#[tactic(auto, using(model::proofs::Tests::tests), unfolding(crate::specs::Take::freed))]
fn free_one(own: &mut [usize], i: usize, v: usize)
    requires { i < length own.old }
    ensures { own.new ≡ freed i v own.old }
{
    if own[i] == v {
        own[i] = 0;
    }
}

// The next answer, if idx (of `used_idx`) says that there is one. Its descriptors come back.
#[tactic(auto, using(model::proofs::Tests::tests, crate::proofs::Answers::answered), unfolding(crate::specs::Take::taken, crate::specs::Take::own_after))]
pub fn take(d: Driver, own: &mut [usize], mem: &[u8], idx: usize) -> Result<Option<Answer>, Strange>
    ensures value { result ≡ taken d own.old mem.now idx }
    ensures own_after { own.new ≡ own_after d.queue.size own.old result }
{
    let id = used_word(d, mem, 0);
    let len = used_word(d, mem, 4);
    let Some(a) = judge(d, mem.len(), own, idx, id, len)? else {
        return Ok(None);
    };
    release(own, d.queue.size, 1 + a.head);
    Ok(Some(a))
}

// A request's spots: e buffers, the first `reads` readable; the writable ones lie in m bytes, and the last is not empty.
#[tactic(auto, using(model::proofs::Tests::tests), unfolding(crate::specs::Take::spots_in))]
fn spots_in(m: usize, spots: &[usize], reads: usize, e: usize) -> bool
    ensures { result ≡ spots_in m spots.now reads e }
{
    if e < 1 {
        return false;
    }
    if e <= reads {
        return false;
    }
    if spots.len() / 2 < e {
        return false;
    }
    if !sane::all_inside(m, spots, reads, e) {
        return false;
    }
    1 <= spots[2 * (e - 1) + 1]
}

// The status byte of an answered request.
#[tactic(auto, using(model::proofs::Tests::tests, crate::proofs::Answers::in_spots), unfolding(crate::specs::Take::status_of))]
pub fn status(mem: &[u8], spots: &[usize], reads: usize, e: usize) -> Option<u8>
    ensures { result ≡ status_of mem.now spots.now reads e }
{
    if !spots_in(mem.len(), spots, reads, e) {
        return None;
    }
    let last = e - 1;
    let at = spots[2 * last] + (spots[2 * last + 1] - 1);
    Some(mem[at])
}

// The bytes of the buffers from first up to end, as one string, as many as `out` holds.
#[tactic(auto, using(crate::proofs::Answers::gathered))]
fn collect(mem: &[u8], spots: &[usize], first: usize, end: usize, out: &mut [u8])
    requires end_in_bounds { 2 * end ≤ length spots.now }
    requires spots_value { all_inside (length mem.now) (spans (end - first) first spots.now) ≡ true }
    ensures { out.new ≡ put out.old 0 (take (length out.old) (gather mem.now (spans (end - first) first spots.now))) }
{
    let mut pos = 0;
    for i in first..end {
        let n = spots[2 * i + 1].min(out.len() - pos);
        moves::copy(mem, spots[2 * i], out, pos, n);
        pos += n;
    }
}

// The data of an answered request, as much as `out` holds; false, and nothing written, where the spots aren't a request's.
#[tactic(auto, using(model::proofs::Tests::tests, crate::proofs::Answers::in_spots), unfolding(crate::specs::Take::data_of))]
pub fn read(mem: &[u8], spots: &[usize], reads: usize, e: usize, out: &mut [u8]) -> bool
    ensures value { result ≡ spots_in (length mem.now) spots.now reads e }
    ensures out_after { out.new ≡ data_of mem.now spots.now reads e out.old }
{
    if !spots_in(mem.len(), spots, reads, e) {
        return false;
    }
    collect(mem, spots, reads, e, out);
    true
}
