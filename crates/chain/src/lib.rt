// The chain (01 §3): a descriptor fetched once, its tests in their order, and the private copy of the chain.
#![tactic(auto)]

ghost use Rattle.std.specs.Prelude.{◌≡◌, ◌+◌, ◌*◌, ◌%◌, ◌≤◌, ◌<◌, ◌^◌, length, leb, ltb, eqb};
ghost use Rattle.model.specs.Ring.{size_max};
ghost use Rattle.model.specs.Pick.{both};
ghost use Rattle.model.specs.Memory.{regions};
ghost use Rattle.model.specs.Chain.{desc_at, tested_by, tested, tally, held, complete, described, descs_after, keeps};
ghost use Rattle.chain.specs.Bounds.{DescOk};

use model::{Desc, Job, Linked, Phase, Place, Tested, Walk};
use regions::Map;

// S3 fetches a descriptor, all 16 bytes of it. Whatever the guest does to them afterwards, this copy counts.
pub fn fetch(mem: &[u8], at: usize) -> Desc
    requires { at + 16 ≤ length mem.now }
    ensures { DescOk at mem.now result }
{
    Desc {
        addr: wire::get::<8>(mem, at),
        len: wire::get::<4>(mem, at + 8),
        flags: wire::get::<2>(mem, at + 12),
        next: wire::get::<2>(mem, at + 14),
    }
}

// A readable descriptor after a writable one.
#[tactic(auto, using(model::proofs::Tests::tests))]
fn late(flags: usize, reads: usize, count: usize) -> bool
    ensures { result ≡ both (ltb flags 2) (ltb reads count) }
{
    flags < 2 && reads < count
}

// The tests of 01 §3, in their order. `found` is where the descriptor's buffer lies.
#[tactic(auto, using(model::proofs::Tests::tests), unfolding(model::specs::Chain::tested_by))]
pub fn judge(
    q: usize,
    count: usize,
    reads: usize,
    len: usize,
    flags: usize,
    next: usize,
    found: Option<usize>,
) -> Tested
    ensures { result ≡ tested_by (leb q count) (ltb 3 flags) (eqb len 0) found (both (ltb flags 2) (ltb reads count)) (eqb (flags % 2) 0) (leb q next) }
{
    if q <= count {
        return Tested::Bad(3);
    }
    if 3 < flags {
        return Tested::Bad(4);
    }
    if len == 0 {
        return Tested::Bad(5);
    }
    let Some(x) = found else {
        return Tested::Bad(6);
    };
    if late(flags, reads, count) {
        return Tested::Bad(7);
    }
    if flags % 2 == 0 {
        return Tested::Last(x);
    }
    if q <= next {
        return Tested::Bad(2);
    }
    Tested::Next(x)
}

// The chain with one descriptor more.
#[tactic(auto, using(model::proofs::Tests::tests), unfolding(model::specs::Chain::tally))]
pub fn tally(k: Walk, flags: usize, len: usize) -> Walk
    requires count_bound { k.count < 2 ^ 32 }
    requires reads_bound { k.reads < 2 ^ 32 }
    requires r_bound { k.r < 2 ^ 62 }
    requires w_bound { k.w < 2 ^ 62 }
    requires len_bound { len < 2 ^ 32 }
    ensures { result ≡ tally k flags len }
{
    if flags < 2 {
        return Walk {
            head: k.head,
            count: k.count + 1,
            reads: k.reads + 1,
            r: k.r + len,
            w: k.w,
        };
    }
    Walk {
        head: k.head,
        count: k.count + 1,
        reads: k.reads,
        r: k.r,
        w: k.w + len,
    }
}

// The buffer's offset and length become descriptor n of the private chain.
pub fn hold(chain: &mut [usize], n: usize, place: usize, len: usize)
    requires { 2 * n + 1 < length chain.old }
    ensures { chain.new ≡ held chain.old n place len }
{
    chain[2 * n] = place;
    chain[2 * n + 1] = len;
}

// The chain ends with descriptor `cur` of the table.
#[tactic(auto, using(model::proofs::Tests::tests), unfolding(model::specs::Chain::complete))]
pub fn complete(k: Walk, cur: usize) -> Phase
    ensures { result ≡ complete k cur }
{
    if k.count <= k.reads {
        return Phase::Broken(8, k.head, k.count, cur);
    }
    if k.r < 16 {
        return Phase::Answer(k, Job::Failed, 0);
    }
    Phase::Header(k, Place { buf: 0, skip: 0 }, 0)
}

// S3, decided: descriptor `cur` of the table has been fetched. It also answers where the chain was refused and how many
// descriptors were fetched, or how many a complete chain has; `n` is what the last one had (DEV-12).
pub fn described(
    map: Map,
    q: usize,
    k: Walk,
    cur: usize,
    d: Desc,
    n: usize,
    chain: &mut [usize],
) -> Linked
    requires q_le_size_max { q ≤ size_max }
    requires q_in_bounds { 2 * q ≤ length chain.old }
    requires count_le_q { k.count ≤ q }
    requires reads_le_q { k.reads ≤ q }
    requires r_bound { k.r < 2 ^ 62 }
    requires w_bound { k.w < 2 ^ 62 }
    requires len_bound { d.len < 2 ^ 32 }
    ensures phase_value { result.phase ≡ described k cur d (tested (regions map.entry.words.now) q k d) }
    ensures descs_value { result.descs ≡ descs_after n k (tested (regions map.entry.words.now) q k d) }
    ensures chain_after { chain.new ≡ keeps chain.old k d (tested (regions map.entry.words.now) q k d) }
{
    let found = map.locate(d.addr, d.len);
    let t = judge(q, k.count, k.reads, d.len, d.flags, d.next, found);
    match t {
        Tested::Bad(reason) => Linked {
            phase: Phase::Broken(reason, k.head, k.count + 1, cur),
            descs: n,
        },
        Tested::Next(x) => {
            hold(chain, k.count, x, d.len);
            Linked {
                phase: Phase::Chain(tally(k, d.flags, d.len), d.next),
                descs: n,
            }
        }
        Tested::Last(x) => {
            hold(chain, k.count, x, d.len);
            Linked {
                phase: complete(tally(k, d.flags, d.len), cur),
                descs: k.count + 1,
            }
        }
    }
}
