// A step of each phase, on words that are an enabled queue's but for the phase. Each function loads the words of its own
// phase alone, tests them, does the step's work and saves what it changes; words that steps don't make are refused.
// All are lent every slice, though most use few: so each has the contract of `hd_step`, which says of each slice what becomes of it.
// The slices stay parameters: each function's `&` or `&mut` shows which of them its phase may write, and one struct would lend all to write.
ghost use Rattle.std.specs.Prelude.{◌≡◌, ◌≤◌, length};
ghost use Rattle.model.specs.Step.{code_after};
ghost use Rattle.device.specs.Outcome.{number};
ghost use Rattle.words.specs.Layout.{state_words, kept};
ghost use Rattle.hostiledisk.specs.Calls.{hd_step, Framed, StepIs};

use device::Outcome;
use model::Phase;
use regions::Map;
use words::{State, at};

// A step that publishes nothing: the counters stay, and the answer goes by the phase. (The length as a clause: see words::save_row.)
fn finish(state: &mut [usize], p: Phase) -> Outcome
    requires { state_words ≤ length state.old }
    ensures value { number result ≡ code_after p }
    ensures state_after { state.new ≡ kept state.old p }
{
    words::save_phase(state, p);
    Outcome::after(p)
}

// S1
pub fn poll(
    state: &mut [usize],
    mem: &[u8],
    backing: &[u8],
    chain: &[usize],
    stage: &[u8],
) -> Outcome
    requires { Framed state.old 1 (length mem.now) (length backing.now) (length chain.now) (length stage.now) }
    ensures { StepIs (hd_step state.old mem.now backing.now chain.now stage.now) (number result) state.new mem.now backing.now chain.now stage.now }
{
    let view = State { words: state };
    let p = device::poll(view.queue(), view.words[at::TAKEN], mem);
    finish(state, p)
}

// S2
pub fn entry(
    state: &mut [usize],
    mem: &[u8],
    backing: &[u8],
    chain: &[usize],
    stage: &[u8],
) -> Outcome
    requires { Framed state.old 2 (length mem.now) (length backing.now) (length chain.now) (length stage.now) }
    ensures { StepIs (hd_step state.old mem.now backing.now chain.now stage.now) (number result) state.new mem.now backing.now chain.now stage.now }
{
    let view = State { words: state };
    let p = device::entry(view.queue(), view.words[at::TAKEN], mem);
    if let Phase::Chain(k, head) = p {
        words::save_chain(state, k, head);
        return Outcome::WentOn;
    }
    finish(state, p)
}

// S3
pub fn descriptor(
    state: &mut [usize],
    mem: &[u8],
    backing: &[u8],
    chain: &mut [usize],
    stage: &[u8],
) -> Outcome
    requires { Framed state.old 3 (length mem.now) (length backing.now) (length chain.old) (length stage.now) }
    ensures { StepIs (hd_step state.old mem.now backing.now chain.old stage.now) (number result) state.new mem.now backing.now chain.new stage.now }
{
    let view = State { words: state };
    let k = view.walk();
    let cur = view.words[at::A];
    if !sane::chain_sane(view.words[at::SIZE], k, cur) {
        return Outcome::Refused;
    }
    let n = view.words[at::REGIONS];
    let end = at::MAP + 3 * n;
    let map = Map {
        words: &view.words[at::MAP..end],
        len: view.words[at::MEM_LEN],
    };
    let x = device::descriptor(view.queue(), map, k, cur, view.words[at::DESCS], mem, chain);
    let p = x.phase;
    if let Phase::Chain(more, next) = p {
        words::save_chain(state, more, next);
        return Outcome::WentOn;
    }
    state[at::DESCS] = x.descs;
    finish(state, p)
}

// S4
pub fn header(
    state: &mut [usize],
    mem: &[u8],
    backing: &[u8],
    chain: &[usize],
    stage: &mut [u8],
) -> Outcome
    requires { Framed state.old 4 (length mem.now) (length backing.now) (length chain.now) (length stage.old) }
    ensures { StepIs (hd_step state.old mem.now backing.now chain.now stage.old) (number result) state.new mem.now backing.now chain.now stage.new }
{
    let view = State { words: state };
    let k = view.walk();
    let at = view.place();
    let got = view.words[at::D];
    if !sane::header_sane(view.words[at::SIZE], k, at, got) {
        return Outcome::Refused;
    }
    if !sane::place_ok(view.words[at::MEM_LEN], chain, at) {
        return Outcome::Refused;
    }
    let p = device::gather::header(view.disk(), k, at, got, chain, mem, stage);
    finish(state, p)
}

// S5
pub fn payload(
    state: &mut [usize],
    mem: &[u8],
    backing: &mut [u8],
    chain: &[usize],
    stage: &mut [u8],
) -> Outcome
    requires { Framed state.old 5 (length mem.now) (length backing.old) (length chain.now) (length stage.old) }
    ensures { StepIs (hd_step state.old mem.now backing.old chain.now stage.old) (number result) state.new mem.now backing.new chain.now stage.new }
{
    let view = State { words: state };
    let k = view.walk();
    let at = view.place();
    let sector = view.words[at::C];
    let got = view.words[at::D];
    if !sane::payload_sane(
        view.words[at::SIZE],
        view.words[at::SECTORS],
        k,
        at,
        sector,
        got,
    ) {
        return Outcome::Refused;
    }
    if !sane::payload_ready(view.words[at::MEM_LEN], chain, k, at, got) {
        return Outcome::Refused;
    }
    let p = device::gather::payload(view.disk(), k, at, sector, got, chain, mem, stage, backing);
    if let Phase::Payload(same, next, to, more) = p {
        words::save_payload(state, same, next, to, more);
        return Outcome::WentOn;
    }
    finish(state, p)
}

// S6
pub fn answer(
    state: &mut [usize],
    mem: &mut [u8],
    backing: &[u8],
    chain: &[usize],
    stage: &[u8],
) -> Outcome
    requires { Framed state.old 6 (length mem.old) (length backing.now) (length chain.now) (length stage.now) }
    ensures { StepIs (hd_step state.old mem.old backing.now chain.now stage.now) (number result) state.new mem.new backing.now chain.now stage.now }
{
    let view = State { words: state };
    if 5 < view.words[at::A] {
        return Outcome::Refused;
    }
    let k = view.walk();
    let job = words::job_of(view.words[at::A], view.words[at::C]);
    let got = view.words[at::D];
    if !sane::answer_sane(view.words[at::SIZE], view.words[at::SECTORS], k, job, got) {
        return Outcome::Refused;
    }
    if !sane::answer_ready(view.words[at::MEM_LEN], chain, k) {
        return Outcome::Refused;
    }
    answer::reply(
        view.queue(),
        view.disk(),
        view.identity(),
        view.words[at::ANSWERED],
        k,
        job,
        chain,
        backing,
        mem,
    );
    words::save_phase(state, Phase::Publish(k, got));
    Outcome::WentOn
}

// S7
pub fn publish(
    state: &mut [usize],
    mem: &mut [u8],
    backing: &[u8],
    chain: &[usize],
    stage: &[u8],
) -> Outcome
    requires { Framed state.old 7 (length mem.old) (length backing.now) (length chain.now) (length stage.now) }
    ensures { StepIs (hd_step state.old mem.old backing.now chain.now stage.now) (number result) state.new mem.new backing.now chain.now stage.now }
{
    let view = State { words: state };
    let k = view.walk();
    let got = view.words[at::D];
    if !sane::publish_sane(view.words[at::SIZE], k, got) {
        return Outcome::Refused;
    }
    let taken = view.words[at::TAKEN];
    let answered = view.words[at::ANSWERED];
    let descs = view.words[at::DESCS];
    device::publish(view.queue(), answered, mem);
    words::save(
        state,
        ring::one_more(taken),
        ring::one_more(answered),
        descs,
        Phase::Poll,
    );
    Outcome::Answered
}
