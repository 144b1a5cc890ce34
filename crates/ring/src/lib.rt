// The ring (01 §2, §3): where its three areas lie and what enabling refuses; idx and entry, used entry and used idx.
#![tactic(auto)]

ghost use Rattle.std.specs.Prelude.{◌≡◌, ◌++◌, ◌+◌, ◌*◌, ◌%◌, ◌≤◌, ◌<◌, length};
ghost use Rattle.model.specs.Bytes.{put, word, bytes};
ghost use Rattle.model.specs.Memory.{regions};
ghost use Rattle.model.specs.Ring.{queue_size_ok, aligned, entangled, placed, areas, pending, plus_one, polled, headed, size_max};
ghost use Rattle.model.specs.Step.{used_at};

use model::{Phase, Queue, Refusal, Walk};
use regions::Map;

// A power of two from 1 to 1,024 (DEV-13). In this order every step takes an instruction less.
#[tactic(auto, using(crate::proofs::Sizes::powers))]
pub fn size_ok(q: usize) -> bool
    ensures { result ≡ queue_size_ok q }
{
    q.is_power_of_two() && q <= 1024
}

#[tactic(auto, using(model::proofs::Tests::tests), unfolding(model::specs::Ring::aligned))]
fn aligned(desc: usize, avail: usize, used: usize) -> bool
    ensures { result ≡ aligned desc avail used }
{
    desc % 16 == 0 && avail % 2 == 0 && used % 4 == 0
}

// That q is at most 1,024 is for the products alone, here, in `chain::described` and in the driver: a type for it would be no plainer.
#[tactic(auto, using(model::proofs::Tests::tests), unfolding(model::specs::Ring::entangled))]
fn entangled(q: usize, desc: usize, avail: usize, used: usize) -> bool
    requires { q ≤ size_max }
    ensures { result ≡ entangled q desc avail used }
{
    regions::overlaps(used, 6 + 8 * q, avail, 6 + 2 * q)
        || regions::overlaps(used, 6 + 8 * q, desc, 16 * q)
}

// Three areas found or not, and whether the used one is entangled with another.
#[tactic(auto, unfolding(model::specs::Ring::placed))]
fn placed(
    q: usize,
    desc: Option<usize>,
    avail: Option<usize>,
    used: Option<usize>,
    tangled: bool,
) -> Result<Queue, Refusal>
    ensures { result ≡ placed q desc avail used tangled }
{
    let desc = desc.ok_or(Refusal::NotInMemory)?;
    let avail = avail.ok_or(Refusal::NotInMemory)?;
    let used = used.ok_or(Refusal::NotInMemory)?;
    if tangled {
        return Err(Refusal::Entangled);
    }
    Ok(Queue {
        size: q,
        desc,
        avail,
        used,
    })
}

// What enabling a queue of size q at these guest addresses finds.
#[tactic(auto, unfolding(model::specs::Ring::areas))]
pub fn areas(map: Map, q: usize, desc: usize, avail: usize, used: usize) -> Result<Queue, Refusal>
    ensures { result ≡ areas (regions map.entry.words.now) q desc avail used }
{
    if !size_ok(q) {
        return Err(Refusal::QueueSize);
    }
    if !aligned(desc, avail, used) {
        return Err(Refusal::Misaligned);
    }
    let d = map.locate(desc, 16 * q);
    let a = map.locate(avail, 6 + 2 * q);
    let u = map.locate(used, 6 + 8 * q);
    let tangled = entangled(q, desc, avail, used);
    placed(q, d, a, u, tangled)
}

// Entry numbers and indices stay words: they are loaded and kept as words, so a u16 would be cast in at each call and out at each save.
#[tactic(auto, using(model::proofs::Tests::tests), unfolding(model::specs::Ring::pending))]
pub fn pending(idx: usize, taken: usize) -> usize
    requires idx_bound { idx < 65536 }
    requires taken_bound { taken < 65536 }
    ensures { result ≡ pending idx taken }
{
    (idx + 65536 - taken) % 65536
}

#[tactic(auto, using(model::proofs::Tests::tests), unfolding(model::specs::Ring::plus_one))]
pub fn one_more(n: usize) -> usize
    requires { n < 65536 }
    ensures { result ≡ plus_one n }
{
    (n + 1) % 65536
}

// S1, decided: idx has been fetched.
#[tactic(auto, using(model::proofs::Tests::tests), unfolding(model::specs::Ring::polled))]
pub fn polled(q: usize, taken: usize, idx: usize) -> Phase
    requires idx_bound { idx < 65536 }
    requires taken_bound { taken < 65536 }
    ensures { result ≡ polled q taken idx }
{
    let n = pending(idx, taken);
    if n == 0 {
        return Phase::Poll;
    }
    if q < n {
        return Phase::Broken(1, 0, 0, 65536);
    }
    Phase::Entry
}

// S2, decided: the entry has been fetched.
#[tactic(auto, using(model::proofs::Tests::tests), unfolding(model::specs::Ring::headed))]
pub fn headed(q: usize, head: usize) -> Phase
    ensures { result ≡ headed q head }
{
    if q <= head {
        return Phase::Broken(2, 0, 0, 65536);
    }
    Phase::Chain(
        Walk {
            head,
            count: 0,
            reads: 0,
            r: 0,
            w: 0,
        },
        head,
    )
}

// S1 fetches idx of the available ring, by one load.
pub fn avail_idx(mem: &[u8], avail: usize) -> usize
    requires { avail + 4 ≤ length mem.now }
    ensures { (result ≡ word 2 (avail + 2) mem.now) × (result < 65536) }
{
    wire::get::<2>(mem, avail + 2)
}

// S2 fetches entry (taken modulo q).
pub fn avail_entry(mem: &[u8], avail: usize, q: usize, taken: usize) -> usize
    requires le_q { 1 ≤ q }
    requires q_in_bounds { avail + (6 + 2 * q) ≤ length mem.now }
    ensures { (result ≡ word 2 (avail + (4 + 2 * (taken % q))) mem.now) × (result < 65536) }
{
    wire::get::<2>(mem, avail + (4 + 2 * (taken % q)))
}

// S6 writes the used entry (answered modulo q): id, then len.
pub fn used_entry(mem: &mut [u8], queue: Queue, answered: usize, head: usize, len: usize)
    requires le_size { 1 ≤ queue.size }
    requires size_in_bounds { queue.used + (6 + 8 * queue.size) ≤ length mem.old }
    ensures { mem.new ≡ put mem.old (used_at queue answered) (bytes 4 head ++ bytes 4 len) }
{
    let used = queue.used;
    let q = queue.size;
    let at = used + (4 + 8 * (answered % q));
    wire::put::<4>(mem, at, head);
    wire::put::<4>(mem, at + 4, len);
}

// S7 publishes idx of the used ring, by one store: the entry that it covers was written by an earlier call,
// so the host's barrier between the two is all that a driver on another processor needs.
pub fn used_idx(mem: &mut [u8], used: usize, idx: usize)
    requires { used + 4 ≤ length mem.old }
    ensures { mem.new ≡ put mem.old (used + 2) (bytes 2 idx) }
{
    wire::put::<2>(mem, used + 2, idx);
}
