// Calls hd_step again and again, as long as it answers 1: a request from the available ring to the used ring.
ghost use Rattle.hostiledisk.specs.Calls.{untouched, StepIs};
ghost use Rattle.trip.specs.Until.{until};

// At most n calls. Answers what the last call answered, 1 if none was made: the numbers are hd_step's, which C calls.
#[tactic(auto, using(crate::proofs::Turns::goes_on, crate::proofs::Turns::all_made))]
pub fn serve(
    state: &mut [usize],
    mem: &mut [u8],
    backing: &mut [u8],
    chain: &mut [usize],
    stage: &mut [u8],
    n: usize,
) -> usize
    ensures { StepIs (until n (untouched 1 state.old mem.old backing.old chain.old stage.old)) result state.new mem.new backing.new chain.new stage.new }
{
    for _ in 0..n {
        let code = hostiledisk::hd_step(state, mem, backing, chain, stage);
        if code != 1 {
            return code;
        }
    }
    1
}
