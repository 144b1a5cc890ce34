// One request the whole way.
ghost use Rattle.std.specs.Prelude.{◌≡◌};
ghost use Rattle.model.specs.Memory.{regions};
ghost use Rattle.hostiledisk.specs.Calls.{untouched};
ghost use Rattle.driver.specs.Lay.{LayIs};
ghost use Rattle.driver.specs.Take.{used_idx, taken, own_after, status_of};
ghost use Rattle.trip.specs.Exchange.{sent, received, exchange, ExchangeIs};

use crate::{Done, NotDone, serve};
use driver::{Answer, Ask, Driver, Laid, NotLaid, Strange, laying, reading};

// Lays a request and publishes it.
#[tactic(auto, using(std::proofs::lemmas::Result::err_from_is_err_and), unfolding(crate::specs::Exchange::sent, crate::specs::Exchange::shown_in))]
pub fn send(
    d: Driver,
    own: &mut [usize],
    map: &[usize],
    mem: &mut [u8],
    ask: Ask,
    message: &mut [u8],
    bufs: &[usize],
    spots: &mut [usize],
    nums: &mut [usize],
) -> Result<Laid, NotLaid>
    ensures { LayIs (sent d own.old (regions map.now) mem.old ask message.old bufs.now spots.old nums.old) result mem.new own.new message.new spots.new nums.new }
{
    let laid = laying::lay(d, own, map, mem, ask, message, bufs, spots, nums)?;
    laying::publish(laid.driver, mem)?;
    Ok(laid)
}

// Is the next answer one to the request with this head?
#[tactic(auto, using(model::proofs::Tests::tests, std::proofs::lemmas::Result::err_from_is_err_and), unfolding(crate::specs::Exchange::received, crate::specs::Exchange::with_status))]
fn received(
    head: usize,
    taken: Result<Option<Answer>, Strange>,
    status: Option<u8>,
) -> Result<Done, NotDone>
    ensures { result ≡ received head taken status }
{
    let Some(a) = taken? else {
        return Err(NotDone::Unanswered);
    };
    if a.head != head {
        return Err(NotDone::Another);
    }
    let Some(status) = status else {
        return Err(NotDone::NoStatus);
    };
    Ok(Done {
        driver: a.driver,
        status,
        len: a.len,
    })
}

// Reads the next answer, for the request with this head and these e buffers. Its descriptors come back.
pub fn receive(
    d: Driver,
    own: &mut [usize],
    mem: &[u8],
    head: usize,
    spots: &[usize],
    reads: usize,
    e: usize,
) -> Result<Done, NotDone>
    ensures value { result ≡ received head (taken d own.old mem.now (used_idx d mem.now)) (status_of mem.now spots.now reads e) }
    ensures own_after { own.new ≡ own_after d.queue.size own.old (taken d own.old mem.now (used_idx d mem.now)) }
{
    let idx = reading::used_idx(d, mem);
    let taken = reading::take(d, own, mem, idx);
    let status = reading::status(mem, spots, reads, e);
    received(head, taken, status)
}

// Lays a request, has the device serve it by at most n calls of hd_step, and reads its answer.
// Each slice is lent by itself: hd_step, as C calls it, takes the device's five so, and the clause ExchangeIs says of each what is left in it.
#[tactic(auto, using(std::proofs::lemmas::Result::err_from_is_err_and), unfolding(crate::specs::Exchange::exchange, crate::specs::Exchange::after, crate::specs::Exchange::reading))]
pub fn exchange(
    state: &mut [usize],
    mem: &mut [u8],
    backing: &mut [u8],
    chain: &mut [usize],
    stage: &mut [u8],
    n: usize,
    d: Driver,
    own: &mut [usize],
    map: &[usize],
    ask: Ask,
    message: &mut [u8],
    bufs: &[usize],
    spots: &mut [usize],
    nums: &mut [usize],
) -> Result<Done, NotDone>
    ensures { ExchangeIs (exchange n d own.old (regions map.now) ask message.old bufs.now spots.old nums.old (untouched 1 state.old mem.old backing.old chain.old stage.old)) result state.new mem.new backing.new chain.new stage.new own.new message.new spots.new nums.new }
{
    let laid = send(d, own, map, mem, ask, message, bufs, spots, nums)?;
    serve::serve(state, mem, backing, chain, stage, n);
    receive(
        laid.driver,
        own,
        mem,
        laid.head,
        spots,
        ask.reads,
        bufs.len() / 2,
    )
}
