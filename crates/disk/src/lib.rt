// A disk (03 §1): a range of the backing slice in sectors. It knows nothing of requests.
#![tactic(auto)]

ghost use Rattle.std.specs.Prelude.{◌≡◌, ◌++◌, ◌+◌, ◌≤◌, length};
ghost use Rattle.model.specs.Bytes.{put, part};
ghost use Rattle.model.specs.Request.{disk_code};
ghost use Rattle.model.specs.SetUp.{answer_of};

use model::Refusal;

// 29, 30, or none.
#[tactic(auto, using(model::proofs::Tests::tests), unfolding(model::specs::Request::disk_code))]
pub fn check_disk(start: usize, sectors: usize, backing: usize) -> Result<(), Refusal>
    ensures { answer_of result ≡ disk_code start sectors backing }
{
    if sectors < 1 {
        return Err(Refusal::Capacity);
    }
    if 4294967296 < sectors {
        return Err(Refusal::Capacity);
    }
    if backing < 512 * sectors {
        return Err(Refusal::LeavesBacking);
    }
    if backing - 512 * sectors < start {
        return Err(Refusal::LeavesBacking);
    }
    Ok(())
}

// The one write to a disk: the staged bytes first, and the last buffer's bytes straight behind them.
pub fn store(
    backing: &mut [u8],
    at: usize,
    stage: &[u8],
    got: usize,
    mem: &[u8],
    from: usize,
    n: usize,
)
    requires n_in_bounds { at + (got + n) ≤ length backing.old }
    requires got_in_bounds { got ≤ length stage.now }
    requires n_in_bounds_2 { from + n ≤ length mem.now }
    ensures { backing.new ≡ put backing.old at (part 0 got stage.now ++ part from n mem.now) }
{
    moves::copy(stage, 0, backing, at, got);
    moves::copy(mem, from, backing, at + got, n);
}
