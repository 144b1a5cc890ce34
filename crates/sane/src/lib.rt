// What a call tests of words that anybody may have spoilt, before it acts on them.
#![tactic(auto, using(model::proofs::Tests::tests), unfolding(model::specs::Sane::walk_ok, model::specs::Sane::full_ok, model::specs::Sane::job_ok, model::specs::Sane::refused_at, model::specs::Sane::sane, model::specs::Sane::inside, model::specs::Sane::place_is_ok, model::specs::Sane::ready))]

ghost use Rattle.std.specs.Prelude.{◌≡◌, ◌+◌, ◌-◌, ◌*◌, ◌≤◌, ◌<◌, length};
ghost use Rattle.model.specs.Sane.{walk_ok, full_ok, job_ok, refused_at, sane, inside, all_inside, place_is_ok, ready};
ghost use Rattle.model.specs.Step.{spans};

use model::{Job, Phase, Place, Walk};

// What the counts come to is tested without a sum or product that could wrap, so a spoilt size needs no test of its own.
pub fn walk_ok(q: usize, k: Walk) -> bool
    ensures { result ≡ walk_ok q k }
{
    k.head < q
        && k.count <= q
        && k.reads <= k.count
        && k.r <= k.reads.saturating_mul(4294967295)
        && k.w <= (k.count - k.reads).saturating_mul(4294967295)
}

pub fn full_ok(q: usize, k: Walk) -> bool
    ensures { result ≡ full_ok q k }
{
    walk_ok(q, k) && k.reads < k.count && 1 <= k.w
}

fn job_ok(sectors: usize, k: Walk, job: Job) -> bool
    requires { 1 ≤ k.w }
    ensures { result ≡ job_ok sectors k job }
{
    match job {
        Job::Failed | Job::Unsupported | Job::Done => true,
        Job::Read(s) => request::fits(k.w - 1, s, sectors),
        Job::Write(_) => false,
        Job::Identity => k.w == 21,
    }
}

pub fn chain_sane(q: usize, k: Walk, cur: usize) -> bool
    ensures { result ≡ sane q 0 (Phase.Chain k cur) }
{
    walk_ok(q, k) && cur < q
}

pub fn header_sane(q: usize, k: Walk, p: Place, got: usize) -> bool
    ensures { result ≡ sane q 0 (Phase.Header k p got) }
{
    full_ok(q, k) && p.buf < k.reads && got < 16 && 16 <= k.r
}

pub fn payload_sane(q: usize, sectors: usize, k: Walk, p: Place, s: usize, got: usize) -> bool
    ensures { result ≡ sane q sectors (Phase.Payload k p s got) }
{
    full_ok(q, k)
        && p.buf < k.reads
        && 16 < k.r
        && got < k.r - 16
        && request::fits(k.r - 16, s, sectors)
}

pub fn answer_sane(q: usize, sectors: usize, k: Walk, job: Job, got: usize) -> bool
    ensures { result ≡ sane q sectors (Phase.Answer k job got) }
{
    full_ok(q, k) && got <= k.r && job_ok(sectors, k, job)
}

pub fn publish_sane(q: usize, k: Walk, got: usize) -> bool
    ensures { result ≡ sane q 0 (Phase.Publish k got) }
{
    full_ok(q, k) && got <= k.r
}

// The descriptor at which a chain was refused (DEV-12): one of the table, if one was fetched.
fn refused_at(q: usize, count: usize, at: usize) -> bool
    ensures { result ≡ refused_at q count at }
{
    if count == 0 { at == 65536 } else { at < q }
}

pub fn broken_sane(q: usize, reason: usize, head: usize, count: usize, at: usize) -> bool
    ensures { result ≡ sane q 0 (Phase.Broken reason head count at) }
{
    1 <= reason
        && reason <= 8
        && head < q
        && count <= q.saturating_add(1)
        && refused_at(q, count, at)
}

// Is this a phase that steps make, on a queue of size q and a disk of so many sectors?
pub fn sane(q: usize, sectors: usize, p: Phase) -> bool
    ensures { result ≡ sane q sectors p }
{
    match p {
        Phase::Poll | Phase::Entry => true,
        Phase::Chain(k, cur) => chain_sane(q, k, cur),
        Phase::Header(k, at, got) => header_sane(q, k, at, got),
        Phase::Payload(k, at, s, got) => payload_sane(q, sectors, k, at, s, got),
        Phase::Answer(k, job, got) => answer_sane(q, sectors, k, job, got),
        Phase::Publish(k, got) => publish_sane(q, k, got),
        Phase::Broken(reason, head, count, at) => broken_sane(q, reason, head, count, at),
    }
}

pub fn inside(m: usize, at: usize, len: usize) -> bool
    ensures { result ≡ inside m at len }
{
    len <= m && at <= m - len
}

// Do the buffers of the chain from `first` up to `end` lie in a slice of m bytes?
pub fn all_inside(m: usize, chain: &[usize], first: usize, end: usize) -> bool
    requires { 2 * end ≤ length chain.now }
    ensures { result ≡ all_inside m (spans (end - first) first chain.now) }
{
    for i in first..end {
        let b = model::buffer(chain, i);
        if !inside(m, b.at, b.len) {
            return false;
        }
    }
    true
}

pub fn place_ok(m: usize, chain: &[usize], p: Place) -> bool
    requires { 2 * p.buf + 1 < length chain.now }
    ensures { result ≡ place_is_ok m chain.now p }
{
    let b = model::buffer(chain, p.buf);
    p.skip < b.len && inside(m, b.at, b.len)
}

pub fn payload_ready(m: usize, chain: &[usize], k: Walk, p: Place, got: usize) -> bool
    requires buf_in_bounds { 2 * p.buf + 1 < length chain.now }
    requires lt_r { 16 < k.r }
    requires got_bound { got < k.r - 16 }
    ensures { result ≡ ready m chain.now (Phase.Payload k p 0 got) }
{
    place_ok(m, chain, p) && model::left(chain, p).len <= k.r - 16 - got
}

pub fn answer_ready(m: usize, chain: &[usize], k: Walk) -> bool
    requires reads_lt_count { k.reads < k.count }
    requires count_in_bounds { 2 * k.count ≤ length chain.now }
    ensures { result ≡ ready m chain.now (Phase.Answer k Job.Failed 0) }
{
    all_inside(m, chain, k.reads, k.count) && 1 <= model::buffer(chain, k.count - 1).len
}
