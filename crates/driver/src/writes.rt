// What laying writes: the message over the readable buffers, the descriptors, the head into the available ring. Decides nothing.
ghost use Rattle.std.specs.Prelude.{◌≡◌, true, ◌+◌, ◌*◌, ◌/◌, ◌≤◌, ◌<◌, ltb, eqb, length, get_or};
ghost use Rattle.model.specs.Bytes.{put, part};
ghost use Rattle.model.specs.Memory.{regions};
ghost use Rattle.model.specs.Step.{apply};
ghost use Rattle.driver.specs.Lay.{header, descriptor, flags_of, next_of, links, marked, lay_stores};
ghost use Rattle.driver.specs.Fit.{Numbers, WriteFit};

use model::Queue;

#[tactic(auto, using(crate::proofs::Laws::puts))]
fn put_header(message: &mut [u8], kind: usize, sector: usize)
    requires { 16 ≤ length message.old }
    ensures { message.new ≡ put message.old 0 (header kind sector) }
{
    wire::put::<4>(message, 0, kind);
    wire::put::<4>(message, 4, 0);
    wire::put::<8>(message, 8, sector);
}

#[tactic(auto, using(crate::proofs::Laws::puts))]
fn put_descriptor(mem: &mut [u8], at: usize, addr: usize, len: usize, flags: usize, next: usize)
    requires { at + 16 ≤ length mem.old }
    ensures { mem.new ≡ put mem.old at (descriptor addr len flags next) }
{
    wire::put::<8>(mem, at, addr);
    wire::put::<4>(mem, at + 8, len);
    wire::put::<2>(mem, at + 12, flags);
    wire::put::<2>(mem, at + 14, next);
}

#[tactic(auto, using(model::proofs::Tests::tests), unfolding(crate::specs::Lay::flags_of))]
fn flags_of(i: usize, reads: usize, e: usize) -> usize
    requires { i < e }
    ensures { result ≡ flags_of (ltb i reads) (eqb (i + 1) e) }
{
    match (i < reads, i + 1 == e) {
        (true, true) => 0,
        (true, false) => 1,
        (false, true) => 2,
        (false, false) => 3,
    }
}

#[tactic(auto, using(model::proofs::Tests::tests), unfolding(crate::specs::Lay::next_of))]
fn next_of(nums: &[usize], i: usize, e: usize) -> usize
    requires i_lt_e { i < e }
    requires e_in_bounds { e ≤ length nums.now }
    ensures { result ≡ next_of (eqb (i + 1) e) (get_or nums.now (i + 1) 0) }
{
    if i + 1 == e {
        return 0;
    }
    nums[i + 1]
}

// The e buffers' descriptors, each with the number that was chosen for it.
#[tactic(auto, using(crate::proofs::Laws::chained), unfolding(crate::specs::Fit::Numbers, crate::specs::Lay::link, model::specs::Step::apply))]
fn chain_up(mem: &mut [u8], q: Queue, bufs: &[usize], nums: &[usize], reads: usize, e: usize)
    requires size_in_bounds { q.desc + 16 * q.size ≤ length mem.old }
    requires e_in_bounds { 2 * e ≤ length bufs.now }
    requires e_in_bounds_2 { e ≤ length nums.now }
    requires numbers { Numbers q.size e nums.now }
    ensures { mem.new ≡ apply (links bufs.now nums.now q.desc reads e e 0) mem.old }
{
    let desc = q.desc;
    for i in 0..e {
        let flags = flags_of(i, reads, e);
        let next = next_of(nums, i, e);
        put_descriptor(
            mem,
            desc + 16 * nums[i],
            bufs[2 * i],
            bufs[2 * i + 1],
            flags,
            next,
        );
    }
}

// The e descriptors belong to the request now.
#[tactic(auto, using(crate::proofs::Laws::parts), unfolding(crate::specs::Fit::Numbers, crate::specs::Lay::marked))]
fn mark(own: &mut [usize], nums: &[usize], e: usize, v: usize)
    requires e_in_bounds { e ≤ length nums.now }
    requires numbers { Numbers (length own.old) e nums.now }
    ensures { own.new ≡ marked (part 0 e nums.now) v own.old }
{
    for i in 0..e {
        own[nums[i]] = v;
    }
}

// To guest memory, in this order: the message, which has its header by now, the descriptors, the head.
#[tactic(auto, using(crate::proofs::Laws::stored))]
pub fn write(
    q: Queue,
    next: usize,
    mem: &mut [u8],
    message: &[u8],
    reads: usize,
    bufs: &[usize],
    spots: &[usize],
    nums: &[usize],
)
    requires { WriteFit q (length mem.old) (length bufs.now / 2) reads spots.now nums.now }
    ensures { mem.new ≡ apply (lay_stores q next message.now reads (length bufs.now / 2) bufs.now spots.now nums.now) mem.old }
{
    let e = bufs.len() / 2;
    answer::spread(message, spots, 0, reads, mem);
    chain_up(mem, q, bufs, nums, reads, e);
    wire::put::<2>(mem, q.avail + (4 + 2 * (next % q.size)), nums[0]);
}

// To the driver's own words and the message: whose the descriptors are, and the header.
#[tactic(auto, unfolding(crate::specs::Fit::Numbers))]
pub fn note(
    own: &mut [usize],
    nums: &[usize],
    e: usize,
    message: &mut [u8],
    kind: usize,
    sector: usize,
)
    requires in_bounds { 16 ≤ length message.old }
    requires le_e { 1 ≤ e }
    requires e_in_bounds { e ≤ length nums.now }
    requires numbers { Numbers (length own.old) e nums.now }
    ensures own_after { own.new ≡ marked (part 0 e nums.now) (1 + get_or nums.now 0 0) own.old }
    ensures message_after { message.new ≡ put message.old 0 (header kind sector) }
{
    mark(own, nums, e, 1 + nums[0]);
    put_header(message, kind, sector);
}
