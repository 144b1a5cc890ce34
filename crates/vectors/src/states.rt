// What the calls answer to a state that is too short, of zeros, or enabled; and a step to slices that are too short.
ghost use Rattle.std.specs.Prelude.{◌≡◌, replicate};
ghost use Rattle.hostiledisk.specs.Calls.{hd_status};

use crate::host::{self, Host, STAGE_BYTES};
use crate::say::Words;
use std::io;

fn step(rt: &impl Print, name: &str, host: &mut Host, state: &mut [usize]) -> io::Result<()> {
    println!(rt; "{name}: {}", host.step(state, &mut [0; 16]))
}

// What hd_status answers to N words of its own, which held 9, and what they hold then.
fn told<const N: usize>(state: &[usize]) -> (usize, [usize; N])
    ensures answer { result.0 ≡ (hd_status state.now (replicate N 9)).code }
    ensures words { result.1 ≡ (hd_status state.now (replicate N 9)).state }
{
    let mut out = [9; N];
    let answer = hostiledisk::hd_status(state, &mut out);
    (answer, out)
}

fn tell<const N: usize>(rt: &impl Print, state: &[usize]) -> io::Result<[usize; N]> {
    let (answer, out) = told::<N>(state);
    println!(rt; "hd_status, {N} words: {answer}")?;
    Ok(out)
}

fn status(rt: &impl Print, state: &[usize]) -> io::Result<()> {
    tell::<7>(rt, state)?;
    tell::<8>(rt, state)?;
    let nine = tell::<9>(rt, state)?;
    println!(rt; "hd_status says{}", Words(&nine))?;
    println!(rt; "hd_status, 10 words, says{}", Words(&host::status(state)))
}

// Each set-up call has something else to refuse too, which comes later in its order.
fn set_up(rt: &impl Print, state: &mut [usize]) -> io::Result<()> {
    let answers = [
        ("hd_disk", hostiledisk::hd_disk(state, 0, 0, 0, b"", 0)),
        ("hd_enable", hostiledisk::hd_enable(state, 0, 0, 0, 0, 0, 0)),
        (
            "hd_enable_at",
            hostiledisk::hd_enable_at(state, 0, 0, 0, 0, 0, 0, 0),
        ),
        (
            "hd_memory, no region",
            hostiledisk::hd_memory(state, &[], 0),
        ),
    ];
    for (name, answer) in answers {
        println!(rt; "{name}: {answer}")?;
    }
    Ok(())
}

fn calls(rt: &impl Print, host: &mut Host, state: &mut [usize]) -> io::Result<()> {
    step(rt, "hd_step", host, state)?;
    step(rt, "hd_step again", host, state)?;
    set_up(rt, state)?;
    status(rt, state)?;
    println!(rt; "hd_reset: {}", hostiledisk::hd_reset(state))?;
    step(rt, "hd_step after it", host, state)
}

// Nobody has laid anything into the guest's memory.
pub fn states(rt: &impl Print, host: &mut Host) -> io::Result<()> {
    println!(rt; "A state of zeros:")?;
    calls(rt, host, &mut [0; hostiledisk::STATE_WORDS])?;
    println!(rt; "An enabled queue, idx 0xeeee:")?;
    calls(rt, host, &mut host::device(false, 0))?;
    println!(rt; "A state of one word too few:")?;
    calls(rt, host, &mut [0; hostiledisk::STATE_WORDS - 1])
}

// The device of 01 §6, told of slices of these lengths: guest memory, backing slice, chain memory, staging memory.
// Each row is told one more than there is of a slice; then all are long enough.
pub fn slices(rt: &impl Print, host: &mut Host) -> io::Result<()> {
    let rows = [
        ("Guest memory too short", 65537, 65536, 16, STAGE_BYTES),
        ("Backing slice too short", 65536, 65537, 16, STAGE_BYTES),
        ("Chain memory too short", 65536, 65536, 17, STAGE_BYTES),
        (
            "Staging memory too short",
            65536,
            65536,
            16,
            STAGE_BYTES + 1,
        ),
        ("All slices long enough", 65536, 65536, 16, STAGE_BYTES),
    ];
    for (name, mem, backing, chain, stage) in rows {
        let mut state = [0; hostiledisk::STATE_WORDS];
        host::set_memory(&mut state, mem);
        host::set_disk(&mut state, false, backing);
        host::set_queue(&mut state, chain, stage, 0);
        print!(rt; "{name}, ")?;
        step(rt, "hd_step", host, &mut state)?;
    }
    Ok(())
}
