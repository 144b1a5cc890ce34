// The state as words that the host lends. Whatever the words are, each is tested before it is used:
// words that set-up and steps don't make count as a state with nothing set up.
#![tactic(auto)]

ghost use Rattle.std.specs.Prelude.{◌≡◌, ◌+◌, ◌*◌, ◌≤◌, length, get_or};
ghost use Rattle.model.specs.Bytes.{put};
ghost use Rattle.model.specs.Ring.{size_max};
ghost use Rattle.words.specs.Layout.{state_words, size_word, chain_len_word, stage_len_word, taken_word, answered_word, descs_word, tag_word, job_tag, job_sector, row, row_of, job_of, phase_of, row_at, row_words, saved, kept, config_at, walk_at, place_at, memory_ok, disk_ok, queue_ok, lent_ok, tags_ok, phase_ok, enabled_ok, framed, level};

use model::{Disk, Identity, Job, Phase, Place, Queue, Walk};

pub mod at;

// The phase as numbers, its tag too: they are words of the state, which C lends and anybody may spoil.
#[derive(Clone, Copy, Default)]
pub struct Row {
    pub tag: usize,
    pub head: usize,
    pub count: usize,
    pub reads: usize,
    pub r: usize,
    pub w: usize,
    pub a: usize,
    pub b: usize,
    pub c: usize,
    pub d: usize,
}

// A job's number, and the sector of one that has one.
#[tactic(auto, unfolding(crate::specs::Layout::job_tag, crate::specs::Layout::job_sector))]
fn job_numbers(job: Job) -> (usize, usize)
    ensures tag { result.0 ≡ job_tag job }
    ensures sector { result.1 ≡ job_sector job }
{
    match job {
        Job::Done => (0, 0),
        Job::Failed => (1, 0),
        Job::Unsupported => (2, 0),
        Job::Read(s) => (3, s),
        Job::Identity => (4, 0),
        Job::Write(s) => (5, s),
    }
}

// No From: Job is another crate's type, and so is a pair.
#[tactic(auto, unfolding(crate::specs::Layout::job_of))]
pub fn job_of(tag: usize, s: usize) -> Job
    ensures { result ≡ job_of tag s }
{
    match tag {
        0 => Job::Done,
        1 => Job::Failed,
        2 => Job::Unsupported,
        3 => Job::Read(s),
        4 => Job::Identity,
        _ => Job::Write(s),
    }
}

impl Row {
    // The phase with this number, for this request at hand: its own four words are still to come.
    fn of(tag: usize, k: Walk) -> Row
        ensures { result ≡ row tag k 0 0 0 0 }
    {
        Row {
            tag,
            head: k.head,
            count: k.count,
            reads: k.reads,
            r: k.r,
            w: k.w,
            ..Row::default()
        }
    }

    fn chain(k: Walk, cur: usize) -> Row
        ensures { result ≡ row 3 k cur 0 0 0 }
    {
        Row {
            a: cur,
            ..Row::of(3, k)
        }
    }

    fn payload(k: Walk, at: Place, sector: usize, got: usize) -> Row
        ensures { result ≡ row 5 k at.buf at.skip sector got }
    {
        Row {
            a: at.buf,
            b: at.skip,
            c: sector,
            d: got,
            ..Row::of(5, k)
        }
    }
}

impl From<Phase> for Row {
    #[tactic(auto, unfolding(crate::specs::Layout::row_of))]
    fn from(p: Phase) -> Row
        ensures { result ≡ row_of p }
    {
        match p {
            Phase::Poll => Row {
                tag: 1,
                ..Row::default()
            },
            Phase::Entry => Row {
                tag: 2,
                ..Row::default()
            },
            Phase::Chain(k, cur) => Row::chain(k, cur),
            Phase::Header(k, at, got) => Row {
                a: at.buf,
                b: at.skip,
                d: got,
                ..Row::of(4, k)
            },
            Phase::Payload(k, at, sector, got) => Row::payload(k, at, sector, got),
            Phase::Answer(k, job, got) => {
                let (a, c) = job_numbers(job);
                Row {
                    a,
                    c,
                    d: got,
                    ..Row::of(6, k)
                }
            }
            Phase::Publish(k, got) => Row {
                d: got,
                ..Row::of(7, k)
            },
            Phase::Broken(reason, head, count, at) => Row {
                tag: 8,
                head,
                count,
                a: reason,
                b: at,
                ..Row::default()
            },
        }
    }
}

impl From<Row> for Phase {
    #[tactic(auto, unfolding(crate::specs::Layout::phase_of))]
    fn from(x: Row) -> Phase
        ensures { result ≡ phase_of x }
    {
        let k = Walk {
            head: x.head,
            count: x.count,
            reads: x.reads,
            r: x.r,
            w: x.w,
        };
        let at = Place {
            buf: x.a,
            skip: x.b,
        };
        match x.tag {
            1 => Phase::Poll,
            2 => Phase::Entry,
            3 => Phase::Chain(k, x.a),
            4 => Phase::Header(k, at, x.d),
            5 => Phase::Payload(k, at, x.c, x.d),
            6 => Phase::Answer(k, job_of(x.a, x.c), x.d),
            7 => Phase::Publish(k, x.d),
            _ => Phase::Broken(x.a, x.head, x.count, x.b),
        }
    }
}

// What writes the words takes the slice and its length as a clause. A struct that holds the `&mut` gets no generated proof where a
// method takes it by value and passes it on; behind a `&mut` each of these would have to promise that it still holds the same slice.
fn save_row(s: &mut [usize], x: Row)
    requires { state_words ≤ length s.old }
    ensures { s.new ≡ put s.old tag_word (row_words x) }
{
    s[at::TAG] = x.tag;
    s[at::HEAD] = x.head;
    s[at::COUNT] = x.count;
    s[at::READS] = x.reads;
    s[at::R] = x.r;
    s[at::W] = x.w;
    s[at::A] = x.a;
    s[at::B] = x.b;
    s[at::C] = x.c;
    s[at::D] = x.d;
}

// The counters, the last complete chain's number of descriptors and the phase are all that steps change.
#[tactic(auto, using(crate::proofs::Saved::rows))]
pub fn save(s: &mut [usize], taken: usize, answered: usize, descs: usize, p: Phase)
    requires { state_words ≤ length s.old }
    ensures { s.new ≡ saved s.old taken answered descs p }
{
    s[at::TAKEN] = taken;
    s[at::ANSWERED] = answered;
    s[at::DESCS] = descs;
    save_row(s, Row::from(p));
}

// Most steps change the phase alone.
#[tactic(auto, using(crate::proofs::Saved::rows))]
pub fn save_phase(s: &mut [usize], p: Phase)
    requires { state_words ≤ length s.old }
    ensures { s.new ≡ kept s.old p }
{
    save_row(s, Row::from(p));
}

// The two phases that a long request stays in for many steps are saved without a choice by the phase.
#[tactic(auto, using(crate::proofs::Saved::rows), unfolding(crate::specs::Layout::row_of))]
pub fn save_chain(s: &mut [usize], k: Walk, cur: usize)
    requires { state_words ≤ length s.old }
    ensures { s.new ≡ kept s.old (Phase.Chain k cur) }
{
    save_row(s, Row::chain(k, cur));
}

#[tactic(auto, using(crate::proofs::Saved::rows), unfolding(crate::specs::Layout::row_of))]
pub fn save_payload(s: &mut [usize], k: Walk, at: Place, sector: usize, got: usize)
    requires { state_words ≤ length s.old }
    ensures { s.new ≡ kept s.old (Phase.Payload k at sector got) }
{
    save_row(s, Row::payload(k, at, sector, got));
}

#[tactic(auto, using(model::proofs::Tests::tests), unfolding(crate::specs::Layout::tags_ok))]
fn tags_ok(tag: usize, job: usize) -> bool
    ensures { result ≡ tags_ok tag job }
{
    match tag {
        0 => false,
        6 => job <= 5,
        _ => tag <= 8,
    }
}

// The lent words, to read: at least as many as a state has.
#[derive(Clone, Copy)]
pub struct State<'a> {
    pub words: &'a [usize],
    pub ghost long: { state_words ≤ length words.now },
}

impl State<'_> {
    #[tactic(auto, unfolding(crate::specs::Layout::row_at))]
    pub fn row(self) -> Row
        ensures { result ≡ row_at self.entry.words.now }
    {
        Row {
            tag: self.words[at::TAG],
            head: self.words[at::HEAD],
            count: self.words[at::COUNT],
            reads: self.words[at::READS],
            r: self.words[at::R],
            w: self.words[at::W],
            a: self.words[at::A],
            b: self.words[at::B],
            c: self.words[at::C],
            d: self.words[at::D],
        }
    }

    #[tactic(auto, unfolding(crate::specs::Layout::config_at))]
    pub fn queue(self) -> Queue
        ensures { result ≡ (config_at self.entry.words.now).queue }
    {
        Queue {
            size: self.words[at::SIZE],
            desc: self.words[at::DESC],
            avail: self.words[at::AVAIL],
            used: self.words[at::USED],
        }
    }

    #[tactic(auto, unfolding(crate::specs::Layout::config_at))]
    pub fn disk(self) -> Disk
        ensures { result ≡ (config_at self.entry.words.now).disk }
    {
        Disk {
            start: self.words[at::START],
            sectors: self.words[at::SECTORS],
            ro: self.words[at::RO],
        }
    }

    #[tactic(auto, unfolding(crate::specs::Layout::config_at))]
    pub fn identity(self) -> Identity
        ensures { result ≡ (config_at self.entry.words.now).id }
    {
        Identity {
            first: self.words[at::ID0],
            second: self.words[at::ID1],
            last: self.words[at::ID2],
        }
    }

    // The request at hand, and the place in its buffers.
    pub fn walk(self) -> Walk
        ensures { result ≡ walk_at self.entry.words.now }
    {
        let s = self.words;
        Walk {
            head: s[at::HEAD],
            count: s[at::COUNT],
            reads: s[at::READS],
            r: s[at::R],
            w: s[at::W],
        }
    }

    pub fn place(self) -> Place
        ensures { result ≡ place_at self.entry.words.now }
    {
        Place {
            buf: self.words[at::A],
            skip: self.words[at::B],
        }
    }

    #[tactic(auto, using(model::proofs::Tests::tests), unfolding(crate::specs::Layout::memory_ok))]
    fn memory_ok(self) -> bool
        ensures { result ≡ memory_ok self.entry.words.now }
    {
        let n = self.words[at::REGIONS];
        if n < 1 {
            return false;
        }
        if regions::REGIONS_MAX < n {
            return false;
        }
        let end = at::MAP + 3 * n;
        regions::all_sound(self.words[at::MEM_LEN], &self.words[at::MAP..end])
    }

    #[tactic(auto, using(model::proofs::SetUp::refusals), unfolding(crate::specs::Layout::disk_ok))]
    fn disk_ok(self) -> bool
        ensures { result ≡ disk_ok self.entry.words.now }
    {
        let done = disk::check_disk(
            self.words[at::START],
            self.words[at::SECTORS],
            self.words[at::BACKING_LEN],
        );
        if done.is_err() {
            return false;
        }
        if 1 < self.words[at::RO] {
            return false;
        }
        self.words[at::ID2] < 4294967296
    }

    // The memory that was lent for this queue, the counters, and how many descriptors a chain may have had.
    // Read before the tests, which every step makes: of both counters the compiler then makes one.
    #[tactic(auto, using(model::proofs::Tests::tests), unfolding(crate::specs::Layout::lent_ok))]
    fn lent_ok(self) -> bool
        requires { get_or self.words.now size_word 0 ≤ size_max }
        ensures { let s = self.entry.words.now in result ≡ lent_ok (get_or s size_word 0) (get_or s chain_len_word 0) (get_or s stage_len_word 0) (get_or s taken_word 0) (get_or s answered_word 0) (get_or s descs_word 0) }
    {
        let q = self.words[at::SIZE];
        let stage = self.words[at::STAGE_LEN];
        let taken = self.words[at::TAKEN];
        let answered = self.words[at::ANSWERED];
        let descs = self.words[at::DESCS];
        if self.words[at::CHAIN_LEN] < 2 * q {
            return false;
        }
        if stage < 1048576 {
            return false;
        }
        if 65536 <= taken {
            return false;
        }
        if 65536 <= answered {
            return false;
        }
        descs <= q
    }

    #[tactic(auto, using(model::proofs::Tests::tests, crate::proofs::Laws::sizes), unfolding(crate::specs::Layout::queue_ok, model::specs::Sane::inside))]
    fn queue_ok(self) -> bool
        ensures { result ≡ queue_ok self.entry.words.now }
    {
        let q = self.words[at::SIZE];
        let m = self.words[at::MEM_LEN];
        if !ring::size_ok(q) {
            return false;
        }
        if !sane::inside(m, self.words[at::DESC], 16 * q) {
            return false;
        }
        if !sane::inside(m, self.words[at::AVAIL], 6 + 2 * q) {
            return false;
        }
        sane::inside(m, self.words[at::USED], 6 + 8 * q) && self.lent_ok()
    }

    #[tactic(auto, using(model::proofs::Tests::tests), unfolding(crate::specs::Layout::phase_ok))]
    fn phase_ok(self) -> bool
        ensures { result ≡ phase_ok self.entry.words.now }
    {
        tags_ok(self.words[at::TAG], self.words[at::A])
            && sane::sane(
                self.words[at::SIZE],
                self.words[at::SECTORS],
                Phase::from(self.row()),
            )
    }

    #[tactic(auto, using(model::proofs::Tests::tests), unfolding(crate::specs::Layout::enabled_ok))]
    fn enabled_ok(self) -> bool
        ensures { result ≡ enabled_ok self.entry.words.now }
    {
        self.queue_ok() && self.phase_ok()
    }

    // Is a queue enabled, as far as that doesn't hang on the phase? A step tests the rest by itself, for its own phase alone.
    #[tactic(auto, using(model::proofs::Tests::tests), unfolding(crate::specs::Layout::framed))]
    pub fn framed(self) -> bool
        ensures { result ≡ framed self.entry.words.now }
    {
        if self.words[at::LEVEL] != 3 {
            return false;
        }
        if !self.memory_ok() {
            return false;
        }
        self.disk_ok() && self.queue_ok()
    }

    // How far set-up has come: 0 nothing, 1 memory, 2 disk, 3 enabled.
    #[tactic(auto, using(model::proofs::Tests::tests), unfolding(crate::specs::Layout::level))]
    pub fn level(self) -> usize
        ensures { result ≡ level self.entry.words.now }
    {
        let tag = self.words[at::LEVEL];
        if !self.memory_ok() {
            return 0;
        }
        if tag == 1 {
            return 1;
        }
        if !self.disk_ok() {
            return 0;
        }
        match tag {
            2 => 2,
            3 if self.enabled_ok() => 3,
            _ => 0,
        }
    }
}
