// The words of hd_status.
ghost use Rattle.std.specs.Prelude.{◌≡◌, true, [], ◌++◌, ◌≤◌, leb, length};
ghost use Rattle.model.specs.Pick.{pick};
ghost use Rattle.model.specs.Bytes.{put};
ghost use Rattle.model.specs.Ring.{elsewhere};
ghost use Rattle.model.specs.Sane.{sane};
ghost use Rattle.hostiledisk.specs.Calls.{seen, seen_of, shown, shown_more, status_words};

use crate::Seen;
use model::{Phase, Walk};
use words::{State, at};

// A queue in order, or one that broke elsewhere than at a chain's descriptor.
const NOT_REFUSED: Seen = Seen {
    reason: 0,
    step: 0,
    head: 0,
    count: 0,
    bytes: 0,
    at: 65536,
};

fn at_hand(step: usize, k: Walk, bytes: usize) -> Seen
    ensures { result ≡ seen 0 step k.head k.count bytes elsewhere }
{
    Seen {
        step,
        head: k.head,
        count: k.count,
        bytes,
        ..NOT_REFUSED
    }
}

// No From: that a payload's bytes and its header's 16 fit a word, a sane phase alone says.
#[tactic(auto, unfolding(crate::specs::Calls::seen_of))]
fn seen_of(q: usize, sectors: usize, p: Phase) -> Seen
    requires { sane q sectors p ≡ true }
    ensures { result ≡ seen_of p }
{
    match p {
        Phase::Poll => Seen {
            step: 1,
            ..NOT_REFUSED
        },
        Phase::Entry => Seen {
            step: 2,
            ..NOT_REFUSED
        },
        Phase::Chain(k, _) => at_hand(3, k, 0),
        Phase::Header(k, _, got) => at_hand(4, k, got),
        Phase::Payload(k, _, _, got) => at_hand(5, k, 16 + got),
        Phase::Answer(k, _, got) => at_hand(6, k, got),
        Phase::Publish(k, got) => at_hand(7, k, got),
        Phase::Broken(reason, head, count, at) => Seen {
            reason,
            head,
            count,
            at,
            ..Seen::default()
        },
    }
}

// Eight words, and two more where there is room for both (DEV-12).
fn show(out: &mut [usize], enabled: usize, taken: usize, answered: usize, descs: usize, x: Seen)
    requires { 8 ≤ length out.old }
    ensures { out.new ≡ put out.old 0 (shown enabled taken answered x ++ pick (leb 10 (length out.old)) (shown_more descs x) []) }
{
    out[0] = enabled;
    out[1] = x.reason;
    out[2] = taken;
    out[3] = answered;
    out[4] = x.step;
    out[5] = x.head;
    out[6] = x.count;
    out[7] = x.bytes;
    if 10 <= out.len() {
        out[8] = x.at;
        out[9] = descs;
    }
}

#[tactic(auto, using(model::proofs::Tests::tests), unfolding(crate::specs::Calls::status_words))]
pub fn write(state: State, out: &mut [usize])
    requires { 8 ≤ length out.old }
    ensures { out.new ≡ put out.old 0 (status_words (leb 10 (length out.old)) state.entry.words.now) }
{
    if state.level() == 3 {
        let p = Phase::from(state.row());
        let x = seen_of(state.words[at::SIZE], state.words[at::SECTORS], p);
        show(
            out,
            1,
            state.words[at::TAKEN],
            state.words[at::ANSWERED],
            state.words[at::DESCS],
            x,
        );
        return;
    }
    show(out, 0, 0, 0, 0, Seen::default());
}
