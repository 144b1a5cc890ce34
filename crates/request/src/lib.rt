// The request (03 §2 to §4): the table from r, w, the header and the disk's description to a verdict; status and length.
#![tactic(auto, using(model::proofs::Tests::tests), unfolding(model::specs::Request::fits, model::specs::Request::in_ok, model::specs::Request::out_ok, model::specs::Request::exactly, model::specs::Request::verdict, model::specs::Request::status, model::specs::Request::reported, model::specs::Request::decided))]

ghost use Rattle.std.specs.Prelude.{◌≡◌, ◌≤◌};
ghost use Rattle.model.specs.Request.{fits, in_ok, out_ok, exactly, verdict, status, reported, decided};
ghost use Rattle.request.specs.Kind.{Numbered};

use model::{Disk, Job, Phase, Place, Walk};

// 03 §3: the types of request that a device knows. The header's number is the guest's, and may be any.
#[derive(Clone, Copy)]
enum Kind {
    In,
    Out,
    Flush,
    GetId,
}

#[derive(Clone, Copy)]
struct UnknownKind;

impl TryFrom<usize> for Kind {
    type Error = UnknownKind;

    ghost try_from_gives = { Numbered };

    fn try_from(number: usize) -> Result<Self, UnknownKind> {
        match number {
            0 => Ok(Kind::In),
            1 => Ok(Kind::Out),
            4 => Ok(Kind::Flush),
            8 => Ok(Kind::GetId),
            _ => Err(UnknownKind),
        }
    }
}

// n bytes from this sector on fit a disk of c sectors. No sum is made that could wrap.
pub fn fits(n: usize, sector: usize, c: usize) -> bool
    ensures { result ≡ fits n sector c }
{
    n % 512 == 0 && n <= 1048576 && sector <= c && n / 512 <= c - sector
}

fn in_ok(d: Disk, sector: usize, r: usize, w: usize) -> bool
    requires { 1 ≤ w }
    ensures { result ≡ in_ok d sector r w }
{
    r == 16 && fits(w - 1, sector, d.sectors)
}

fn out_ok(d: Disk, sector: usize, r: usize, w: usize) -> bool
    requires { 16 ≤ r }
    ensures { result ≡ out_ok d sector r w }
{
    w == 1 && fits(r - 16, sector, d.sectors) && d.ro == 0
}

// FLUSH and GET_ID: a request of exactly this form.
fn exactly(r: usize, w: usize, n: usize, job: Job) -> Job
    ensures { result ≡ exactly r w n job }
{
    if r == 16 && w == n { job } else { Job::Failed }
}

// The table of 03 §3. `kind` is the guest's number, and it may be any.
pub fn verdict(d: Disk, kind: usize, sector: usize, r: usize, w: usize) -> Job
    requires { 1 ≤ w }
    ensures { result ≡ verdict d kind sector r w }
{
    if r < 16 {
        return Job::Failed;
    }
    match Kind::try_from(kind) {
        Ok(Kind::In) if in_ok(d, sector, r, w) => Job::Read(sector),
        Ok(Kind::Out) if out_ok(d, sector, r, w) => Job::Write(sector),
        Ok(Kind::In | Kind::Out) => Job::Failed,
        Ok(Kind::Flush) => exactly(r, w, 1, Job::Done),
        Ok(Kind::GetId) => exactly(r, w, 21, Job::Identity),
        Err(UnknownKind) => Job::Unsupported,
    }
}

pub fn status(job: Job) -> u8
    ensures { result ≡ status job }
{
    match job {
        Job::Failed => 1,
        Job::Unsupported => 2,
        Job::Done | Job::Read(_) | Job::Write(_) | Job::Identity => 0,
    }
}

// 03 §4: bytes written from the first writable byte on without a gap.
pub fn reported(status: usize, w: usize) -> usize
    ensures { result ≡ reported status w }
{
    if status == 0 {
        w
    } else if w == 1 {
        1
    } else {
        0
    }
}

// S4, the header complete: an accepted OUT with data goes on to its payload, everything else to the answer.
pub fn decided(k: Walk, p: Place, job: Job) -> Phase
    ensures { result ≡ decided k p job }
{
    match job {
        Job::Write(s) if 16 < k.r => Phase::Payload(k, p, s, 0),
        Job::Write(_) => Phase::Answer(k, Job::Done, 16),
        Job::Failed | Job::Unsupported | Job::Done | Job::Read(_) | Job::Identity => {
            Phase::Answer(k, job, 16)
        }
    }
}
