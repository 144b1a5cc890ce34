// Has the request a form of 03 §3, and are its buffers apart? Spots are flat words, two for each buffer, as sane::all_inside and answer::spread take them.
ghost use Rattle.std.specs.Prelude.{◌≡◌, ◌+◌, ◌-◌, ◌*◌, ◌≤◌, ◌<◌, length};
ghost use Rattle.model.specs.Step.{spans};
ghost use Rattle.driver.specs.Lay.{span, formed, measured, form_ok, clear_of, separate};

use model::Disk;

// Bytes of the buffers from first up to end; 2,097,153 if they are more than 2,097,152: a length too, as the definition `measured` has it.
#[tactic(auto, using(crate::proofs::Laws::totals), unfolding(crate::specs::Lay::measured))]
pub fn measure(spots: &[usize], first: usize, end: usize) -> usize
    requires { 2 * end ≤ length spots.now }
    ensures { result ≡ measured (spans (end - first) first spots.now) }
{
    let mut left = 2097152;
    for i in first..end {
        let len = spots[2 * i + 1];
        if left < len {
            return 2097153;
        }
        left -= len;
    }
    2097152 - left
}

// Would the largest disk accept it, at sector 0?
#[tactic(auto, using(model::proofs::Tests::tests), unfolding(crate::specs::Lay::formed))]
pub fn formed(kind: usize, r: usize, w: usize) -> bool
    ensures { result ≡ formed kind r w }
{
    if w < 1 {
        return false;
    }
    let largest = Disk {
        start: 0,
        sectors: 4294967296,
        ro: 0,
    };
    request::status(request::verdict(largest, kind, 0, r, w)) == 0
}

#[tactic(auto, using(model::proofs::Tests::tests), unfolding(crate::specs::Lay::form_ok))]
pub fn form_ok(kind: usize, r: usize, spots: &[usize], reads: usize, e: usize) -> bool
    requires reads_le_e { reads ≤ e }
    requires e_in_bounds { 2 * e ≤ length spots.now }
    ensures { result ≡ form_ok kind r spots.now reads e }
{
    let readable = measure(spots, 0, reads);
    if readable != r {
        return false;
    }
    formed(kind, readable, measure(spots, reads, e))
}

// Has the range no byte in common with the spots from first up to end?
#[tactic(auto, using(crate::proofs::Laws::clears))]
fn clear_of(spots: &[usize], first: usize, end: usize, at: usize, len: usize) -> bool
    requires { 2 * end ≤ length spots.now }
    ensures { result ≡ clear_of (span at len) (spans (end - first) first spots.now) }
{
    for i in first..end {
        if regions::overlaps(at, len, spots[2 * i], spots[2 * i + 1]) {
            return false;
        }
    }
    true
}

// Have no two of the spots up to end a byte in common?
#[tactic(auto, using(crate::proofs::Laws::apart))]
pub fn separate(spots: &[usize], end: usize) -> bool
    requires { 2 * end ≤ length spots.now }
    ensures { result ≡ separate (spans end 0 spots.now) }
{
    for i in 0..end {
        if !clear_of(spots, i + 1, end, spots[2 * i], spots[2 * i + 1]) {
            return false;
        }
    }
    true
}
