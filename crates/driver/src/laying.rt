// Set-up, laying a request, and publishing it. Laying and publishing are two calls: a device on another processor must see the entry
// before the idx that covers it, so the caller's barrier goes between them.
ghost use Rattle.std.specs.Prelude.{◌≡◌, length};
ghost use Rattle.model.specs.Memory.{regions};
ghost use Rattle.driver.specs.Lay.{told, attached, lay, LayIs, publish_answer, published};

use crate::{Ask, Driver, Laid, NotLaid, plan, room, writes};
use model::Refusal;
use regions::Map;

// A driver for a queue of this size at these guest addresses, over m bytes of memory with this map; both counts begin at start.
pub fn attach(
    map: &[usize],
    m: usize,
    size: usize,
    desc: usize,
    avail: usize,
    used: usize,
    start: usize,
) -> Result<Driver, Refusal>
    ensures { told result ≡ attached map.now m size desc avail used start }
{
    regions::check_map(m, map)?;
    let map = Map { words: map, len: m };
    let queue = ring::areas(map, size, desc, avail, used)?;
    if 65536 <= start {
        return Err(Refusal::StartCount);
    }
    Ok(Driver {
        queue,
        next: start,
        seen: start,
    })
}

// Lays a request: the message, whose first 16 bytes become the header, over the readable buffers; a descriptor for each buffer;
// the head into the available ring. Or refuses it.
// Each slice is lent by itself: the clause LayIs says of each what is left in it, after a refusal too.
pub fn lay(
    d: Driver,
    own: &mut [usize],
    map: &[usize],
    mem: &mut [u8],
    ask: Ask,
    message: &mut [u8],
    bufs: &[usize],
    spots: &mut [usize],
    nums: &mut [usize],
) -> Result<Laid, NotLaid>
    ensures { LayIs (lay d own.old (regions map.now) mem.old ask.kind ask.sector message.old bufs.now ask.reads spots.old nums.old) result mem.new own.new message.new spots.new nums.new }
{
    let q = d.queue;
    plan::plan(
        q,
        map,
        mem.len(),
        own,
        ask.kind,
        message.len(),
        bufs,
        ask.reads,
        spots,
        nums,
    )?;
    let e = bufs.len() / 2;
    writes::note(own, nums, e, message, ask.kind, ask.sector);
    writes::write(q, d.next, mem, message, ask.reads, bufs, spots, nums);
    Ok(Laid {
        driver: Driver {
            queue: q,
            next: ring::one_more(d.next % 65536),
            seen: d.seen,
        },
        head: nums[0],
    })
}

// Shows the device every request that was laid: idx of the available ring, by one store.
#[tactic(auto, using(model::proofs::Tests::tests, crate::proofs::Laws::queues), unfolding(crate::specs::Lay::publish_answer, crate::specs::Lay::published))]
pub fn publish(d: Driver, mem: &mut [u8]) -> Result<(), NotLaid>
    ensures value { result ≡ publish_answer d (length mem.old) }
    ensures mem_after { mem.new ≡ published d mem.old }
{
    let q = d.queue;
    if !room::queue_in(q, mem.len()) {
        return Err(NotLaid::Memory);
    }
    wire::put::<2>(mem, q.avail + 2, d.next);
    Ok(())
}
