// S4 and S5: the header and the payload, fetched buffer by buffer.
ghost use Rattle.std.specs.Prelude.{◌≡◌, ◌++◌, ◌+◌, ◌-◌, ◌*◌, ◌≤◌, ◌<◌, ◌^◌, length};
ghost use Rattle.model.specs.Ring.{size_max};
ghost use Rattle.model.specs.Pick.{pick};
ghost use Rattle.model.specs.Bytes.{put, part, word};
ghost use Rattle.model.specs.Step.{left, lacks, ends, onward, gathered, paid};
ghost use Rattle.device.specs.Fit.{HeaderFit, PayloadFit};

use model::{Disk, Job, Phase, Place, Walk};

// n bytes on, of l that are left of the buffer.
#[tactic(auto, using(model::proofs::Tests::tests), unfolding(model::specs::Step::onward))]
fn onward(p: Place, l: usize, n: usize) -> Place
    requires n_le_l { n ≤ l }
    requires l_bound { p.skip + l < 2 ^ 64 }
    requires buf_lt_size_max { p.buf < size_max }
    ensures { result ≡ onward p l n }
{
    if n == l {
        Place {
            buf: p.buf + 1,
            skip: 0,
        }
    } else {
        Place {
            buf: p.buf,
            skip: p.skip + n,
        }
    }
}

// S4, decided: n bytes more of the header have been fetched, of l that the buffer had.
fn gathered(
    d: Disk,
    k: Walk,
    p: Place,
    got: usize,
    l: usize,
    n: usize,
    kind: usize,
    sector: usize,
) -> Phase
    requires n_le_l { n ≤ l }
    requires l_bound { p.skip + l < 2 ^ 64 }
    requires buf_lt_size_max { p.buf < size_max }
    requires n_bound { got + n ≤ 16 }
    requires le_w { 1 ≤ k.w }
    ensures { result ≡ gathered d k p got l n kind sector }
{
    let next = onward(p, l, n);
    if got + n < 16 {
        return Phase::Header(k, next, got + n);
    }
    let job = request::verdict(d, kind, sector, k.r, k.w);
    request::decided(k, next, job)
}

// S4 fetches into the first 16 bytes of staging memory, which hold the private header until it is decided.
pub fn header(
    d: Disk,
    k: Walk,
    p: Place,
    got: usize,
    chain: &[usize],
    mem: &[u8],
    stage: &mut [u8],
) -> Phase
    requires { HeaderFit k p got chain.now (length mem.now) (length stage.old) }
    ensures stage_after { stage.new ≡ put stage.old got (part (left chain.now p).at (lacks got (left chain.now p).len) mem.now) }
    ensures value { result ≡ gathered d k p got (left chain.now p).len (lacks got (left chain.now p).len) (word 4 0 stage.new) (word 8 8 stage.new) }
{
    let b = model::left(chain, p);
    let n = (16 - got).min(b.len);
    moves::copy(mem, b.at, stage, got, n);
    let kind = wire::get::<4>(stage, 0);
    let sector = wire::get::<8>(stage, 8);
    gathered(d, k, p, got, b.len, n, kind, sector)
}

// S5 fetches all that is left of one buffer: into staging memory, or, if these are the payload's last bytes,
// straight to the disk behind the staged ones. Which of the two is known before the step.
pub fn payload(
    d: Disk,
    k: Walk,
    p: Place,
    sector: usize,
    got: usize,
    chain: &[usize],
    mem: &[u8],
    stage: &mut [u8],
    backing: &mut [u8],
) -> Phase
    requires { PayloadFit d k p sector got chain.now (length mem.now) (length stage.old) (length backing.old) }
    ensures value { result ≡ paid k p sector got (left chain.now p).len }
    ensures stage_after { stage.new ≡ pick (ends k got (left chain.now p).len) stage.old (put stage.old got (part (left chain.now p).at (left chain.now p).len mem.now)) }
    ensures backing_after { backing.new ≡ pick (ends k got (left chain.now p).len) (put backing.old (d.start + 512 * sector) (part 0 got stage.old ++ part (left chain.now p).at (left chain.now p).len mem.now)) backing.old }
{
    let b = model::left(chain, p);
    if got + b.len == k.r - 16 {
        let to = d.start + 512 * sector;
        disk::store(backing, to, stage, got, mem, b.at, b.len);
        return Phase::Answer(k, Job::Done, k.r);
    }
    moves::copy(mem, b.at, stage, got, b.len);
    Phase::Payload(k, onward(p, b.len, b.len), sector, got + b.len)
}
