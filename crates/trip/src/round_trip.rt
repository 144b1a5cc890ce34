// A write, read back.
ghost use Rattle.std.specs.Prelude.{◌≡◌, drop, Ok};
ghost use Rattle.model.specs.Memory.{regions};
ghost use Rattle.hostiledisk.specs.Calls.{untouched};
ghost use Rattle.trip.specs.Honest.{Honest};
ghost use Rattle.trip.specs.Round.{round};

use crate::{NotDone, Trip, exchange};
use driver::{Ask, Driver, reading};

// Writes the message's data (its bytes after the first 16) to the disk from the sector on, and reads as many bytes as `out` holds from there. The
// write's buffers are `bufs`, the first `reads` of them readable; the read's are `bufs2`, and its message is `header`. Each request is served by at
// most n calls of hd_step. Each slice is lent by itself, as for `exchange`; the clause read_back (Honest) speaks of each.
pub fn round_trip(
    state: &mut [usize],
    mem: &mut [u8],
    backing: &mut [u8],
    chain: &mut [usize],
    stage: &mut [u8],
    n: usize,
    d: Driver,
    own: &mut [usize],
    map: &[usize],
    sector: usize,
    message: &mut [u8],
    bufs: &[usize],
    reads: usize,
    header: &mut [u8],
    bufs2: &[usize],
    reads2: usize,
    out: &mut [u8],
    spots: &mut [usize],
    nums: &mut [usize],
) -> Result<Trip, NotDone>
    ensures value { result ≡ (round n d own.old (regions map.now) sector message.old bufs.now reads header.old bufs2.now reads2 out.old spots.old nums.old (untouched 1 state.old mem.old backing.old chain.old stage.old)).answer }
    ensures out_after { out.new ≡ (round n d own.old (regions map.now) sector message.old bufs.now reads header.old bufs2.now reads2 out.old spots.old nums.old (untouched 1 state.old mem.old backing.old chain.old stage.old)).out }
    ensures read_back { Honest state.old mem.old backing.old chain.old stage.old n d own.old map.now sector message.old bufs.now reads header.old bufs2.now reads2 out.old spots.old nums.old → (result ≡ Ok (record { write = 0; read = 0 })) × (out.new ≡ drop 16 message.old) }
{
    let write = Ask {
        kind: 1,
        sector,
        reads,
    };
    let first = exchange::exchange(
        state, mem, backing, chain, stage, n, d, own, map, write, message, bufs, spots, nums,
    )?;
    let again = Ask {
        kind: 0,
        sector,
        reads: reads2,
    };
    let second = exchange::exchange(
        state,
        mem,
        backing,
        chain,
        stage,
        n,
        first.driver,
        own,
        map,
        again,
        header,
        bufs2,
        spots,
        nums,
    )?;
    reading::read(mem, spots, reads2, bufs2.len() / 2, out);
    Ok(Trip {
        write: first.status,
        read: second.status,
    })
}
