// The tests before a step that are the same for each phase, and the way to the phase's own.
ghost use Rattle.std.specs.Prelude.{◌≡◌, true, ◌<◌, length};
ghost use Rattle.device.specs.Outcome.{number};
ghost use Rattle.words.specs.Layout.{framed};
ghost use Rattle.hostiledisk.specs.Calls.{long_enough, broken_code, hd_step, Framed, StepIs};

use crate::{STATE_WORDS, arms};
use device::Outcome;
use words::{State, at};

// A queue that steps have broken answers Broken, and stays as it is.
#[tactic(auto, using(model::proofs::Tests::tests), unfolding(crate::specs::Calls::broken_code))]
pub fn broken(state: State) -> Outcome
    ensures { number result ≡ broken_code state.entry.words.now }
{
    if state.words[at::TAG] != 8 {
        return Outcome::Refused;
    }
    if sane::broken_sane(
        state.words[at::SIZE],
        state.words[at::A],
        state.words[at::HEAD],
        state.words[at::COUNT],
        state.words[at::B],
    ) {
        return Outcome::Broken;
    }
    Outcome::Refused
}

// Are the slices as long as set-up was told?
#[tactic(auto, using(model::proofs::Tests::tests), unfolding(crate::specs::Calls::long_enough))]
pub fn long_enough(state: State, mem: usize, backing: usize, chain: usize, stage: usize) -> bool
    ensures { result ≡ long_enough state.entry.words.now mem backing chain stage }
{
    if mem < state.words[at::MEM_LEN] {
        return false;
    }
    if backing < state.words[at::BACKING_LEN] {
        return false;
    }
    if chain < state.words[at::CHAIN_LEN] {
        return false;
    }
    state.words[at::STAGE_LEN] <= stage
}

// Each phase's function tests its own words. The numbers are those of lent words, and each arm writes other
// slices: closures in a table would all have to be lent every slice to write.
pub fn go(
    state: &mut [usize],
    tag: usize,
    mem: &mut [u8],
    backing: &mut [u8],
    chain: &mut [usize],
    stage: &mut [u8],
) -> Outcome
    requires framed { Framed state.old tag (length mem.old) (length backing.old) (length chain.old) (length stage.old) }
    requires tag_bound { tag < 8 }
    ensures { StepIs (hd_step state.old mem.old backing.old chain.old stage.old) (number result) state.new mem.new backing.new chain.new stage.new }
{
    match tag {
        3 => arms::descriptor(state, mem, backing, chain, stage),
        1 => arms::poll(state, mem, backing, chain, stage),
        2 => arms::entry(state, mem, backing, chain, stage),
        4 => arms::header(state, mem, backing, chain, stage),
        5 => arms::payload(state, mem, backing, chain, stage),
        6 => arms::answer(state, mem, backing, chain, stage),
        7 => arms::publish(state, mem, backing, chain, stage),
        _ => Outcome::Refused,
    }
}

pub fn step(
    state: &mut [usize],
    mem: &mut [u8],
    backing: &mut [u8],
    chain: &mut [usize],
    stage: &mut [u8],
) -> Outcome
    ensures { StepIs (hd_step state.old mem.old backing.old chain.old stage.old) (number result) state.new mem.new backing.new chain.new stage.new }
{
    if state.len() < STATE_WORDS {
        return Outcome::Refused;
    }
    let view = State { words: state };
    if !view.framed() {
        return Outcome::Refused;
    }
    let tag = view.words[at::TAG];
    if 8 <= tag {
        return broken(view);
    }
    if !long_enough(view, mem.len(), backing.len(), chain.len(), stage.len()) {
        return Outcome::Refused;
    }
    go(state, tag, mem, backing, chain, stage)
}
