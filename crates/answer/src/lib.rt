// S6, the answer: data into the writable buffers in chain order, then the status byte, then the used entry (01 §5).
#![tactic(auto)]

ghost use Rattle.std.specs.Prelude.{◌≡◌, true, ◌+◌, ◌-◌, ◌*◌, ◌≤◌, length};
ghost use Rattle.model.specs.Step.{spans, scatter, apply, writables, handed, disk_of, answer_stores};
ghost use Rattle.model.specs.Sane.{all_inside, job_ok};
ghost use Rattle.answer.specs.Identity.{id_bytes};
ghost use Rattle.answer.specs.Fit.{AnswerFit};

use model::{Disk, Identity, Job, Queue, Walk};

// These bytes into the buffers of the chain from `first` up to `end`, as far as they go.
pub fn spread(src: &[u8], chain: &[usize], first: usize, end: usize, mem: &mut [u8])
    requires end_in_bounds { 2 * end ≤ length chain.now }
    requires chain_value { all_inside (length mem.old) (spans (end - first) first chain.now) ≡ true }
    ensures { mem.new ≡ apply (scatter (spans (end - first) first chain.now) src.now) mem.old }
{
    let mut pos = 0;
    for i in first..end {
        let b = model::buffer(chain, i);
        let n = b.len.min(src.len() - pos);
        moves::copy(src, pos, mem, b.at, n);
        pos += n;
    }
}

fn bytes_of(id: Identity) -> [u8; 20]
    ensures { result ≡ id_bytes id }
{
    let mut bytes = [0u8; 20];
    wire::put::<8>(&mut bytes, 0, id.first);
    wire::put::<8>(&mut bytes, 8, id.second);
    wire::put::<4>(&mut bytes, 16, id.last);
    bytes
}

// The same for bytes of our own. Not inlined: the compiler would see that they lie on its own stack, and would copy them by the C library's
// memcpy, which may store a guest's byte twice (docs/TRUST.md).
#[inline(never)]
fn spread_own(src: &[u8], chain: &[usize], first: usize, end: usize, mem: &mut [u8])
    requires end_in_bounds { 2 * end ≤ length chain.now }
    requires chain_value { all_inside (length mem.old) (spans (end - first) first chain.now) ≡ true }
    ensures { mem.new ≡ apply (scatter (spans (end - first) first chain.now) src.now) mem.old }
{
    spread(src, chain, first, end, mem);
}

// What the request gets before its last writable byte: sectors, the identity, or nothing.
fn hand(
    disk: Disk,
    id: Identity,
    k: Walk,
    job: Job,
    chain: &[usize],
    backing: &[u8],
    mem: &mut [u8],
)
    requires sectors_in_bounds { disk.start + 512 * disk.sectors ≤ length backing.now }
    requires le_w { 1 ≤ k.w }
    requires job_value { job_ok disk.sectors k job ≡ true }
    requires count_in_bounds { 2 * k.count ≤ length chain.now }
    requires k_value { all_inside (length mem.old) (writables chain.now k) ≡ true }
    ensures { mem.new ≡ apply (scatter (writables chain.now k) (handed (id_bytes id) (disk_of disk backing.now) k job)) mem.old }
{
    match job {
        Job::Read(s) => {
            let at = disk.start + 512 * s;
            spread(&backing[at..at + (k.w - 1)], chain, k.reads, k.count, mem);
        }
        Job::Identity => spread_own(&bytes_of(id), chain, k.reads, k.count, mem),
        Job::Failed | Job::Unsupported | Job::Done | Job::Write(_) => {}
    }
}

// The writes of an answer, later ones winning: data, the status byte, the used entry.
pub fn reply(
    queue: Queue,
    disk: Disk,
    id: Identity,
    answered: usize,
    k: Walk,
    job: Job,
    chain: &[usize],
    backing: &[u8],
    mem: &mut [u8],
)
    requires { AnswerFit queue disk k job chain.now (length backing.now) (length mem.old) }
    ensures { mem.new ≡ apply (answer_stores (id_bytes id) queue answered chain.now (disk_of disk backing.now) k job) mem.old }
{
    hand(disk, id, k, job, chain, backing, mem);
    let last = model::buffer(chain, k.count - 1);
    let at = last.at + (last.len - 1);
    let status = request::status(job);
    mem[at] = status;
    ring::used_entry(
        mem,
        queue,
        answered,
        k.head,
        request::reported(status as usize, k.w),
    );
}
