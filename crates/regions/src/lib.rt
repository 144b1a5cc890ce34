// The memory map (01 §1): set-up's refusals 20 to 24, and where a range of guest bytes lies in the slice.
// Up to 32 regions (DEV-13), three words each: guest address, length, offset in the slice. They stay flat words, as C gives and lends them.
#![tactic(auto)]

ghost use Rattle.std.specs.Prelude.{◌≡◌, ◌+◌, ◌≤◌, eqb, length, true};
ghost use Rattle.model.specs.Bytes.{put};
ghost use Rattle.model.specs.SetUp.{answer_of};
ghost use Rattle.model.specs.Memory.{region, regions, region_code, overlap, clash, memory_code, sound, contains, locate};

use model::Refusal;

pub const REGIONS_MAX: usize = 32;

// 21, 22, 23, or none. No sum is made: each test subtracts what an earlier one allowed.
#[tactic(auto, using(model::proofs::Tests::tests), unfolding(model::specs::Memory::region_code))]
pub fn check_region(m: usize, g: usize, l: usize, o: usize) -> Result<(), Refusal>
    ensures { answer_of result ≡ region_code m (region g l o) }
{
    if l == 0 {
        return Err(Refusal::EmptyRegion);
    }
    if m < l {
        return Err(Refusal::LeavesSlice); // longer than the slice
    }
    if m - l < o {
        return Err(Refusal::LeavesSlice); // ends after it
    }
    if 0xffff_ffff_ffff_ffff - l < g {
        return Err(Refusal::LeavesAddresses);
    }
    Ok(())
}

#[tactic(auto, using(model::proofs::Tests::tests), unfolding(model::specs::Memory::overlap))]
pub fn overlaps(g: usize, l: usize, h: usize, k: usize) -> bool
    ensures { result ≡ overlap g l h k }
{
    if g < h {
        if h - g < l {
            return true;
        }
        return false;
    }
    if g - h < k {
        return true;
    }
    false
}

// Does a region of `seen` overlap the guest addresses from g up to g + l?
fn clashes(seen: &[usize], g: usize, l: usize) -> bool
    ensures { result ≡ clash (regions seen.now) g l }
{
    for i in 0..seen.len() / 3 {
        if overlaps(g, l, seen[3 * i], seen[3 * i + 1]) {
            return true;
        }
    }
    false
}

// What set-up refuses of these regions over a slice of m bytes: 20 to 24.
#[tactic(auto, using(model::proofs::Tests::tests), unfolding(model::specs::Memory::memory_code))]
pub fn check_map(m: usize, map: &[usize]) -> Result<(), Refusal>
    ensures { answer_of result ≡ memory_code m map.now }
{
    if map.len() % 3 != 0 {
        return Err(Refusal::RegionCount);
    }
    if map.len() / 3 < 1 {
        return Err(Refusal::RegionCount);
    }
    if REGIONS_MAX < map.len() / 3 {
        return Err(Refusal::RegionCount);
    }
    for i in 0..map.len() / 3 {
        let g = map[3 * i];
        let l = map[3 * i + 1];
        check_region(m, g, l, map[3 * i + 2])?;
        if clashes(&map[..3 * i], g, l) {
            return Err(Refusal::RegionsOverlap);
        }
    }
    Ok(())
}

fn sound_one(m: usize, g: usize, l: usize, o: usize) -> bool
    ensures { result ≡ eqb (region_code m (region g l o)) 0 }
{
    check_region(m, g, l, o).is_ok()
}

// Is each region by itself one that set-up allows? What later calls test again of words that anybody may have spoilt.
// This loop runs in every step, and that of `locate` in each S3. They count regions: one number, where the words' places would be three.
pub fn all_sound(m: usize, map: &[usize]) -> bool
    ensures { result ≡ sound m (regions map.now) }
{
    let n = map.len() / 3;
    for i in 0..n {
        if !sound_one(m, map[3 * i], map[3 * i + 1], map[3 * i + 2]) {
            return false;
        }
    }
    true
}

#[tactic(auto, using(model::proofs::Tests::tests), unfolding(model::specs::Memory::contains))]
fn holds(g: usize, l: usize, a: usize, n: usize) -> bool
    requires { 1 ≤ n }
    ensures { result ≡ contains g l a n }
{
    if a < g {
        return false;
    }
    if l < n {
        return false;
    }
    if l - n < a - g {
        return false;
    }
    true
}

// A map that set-up allows, over a slice of `len` bytes: a reader of its words needs no test of its own.
#[derive(Clone, Copy)]
pub struct Map<'a> {
    pub words: &'a [usize],
    pub len: usize,
    pub ghost sound: { sound len (regions words.now) ≡ true },
}

impl Map<'_> {
    // In the first region that contains all n bytes from address a, if there is one.
    // An offset is always in the slice, since the sum is one that `all_sound` bounds.
    pub fn locate(self, a: usize, n: usize) -> Option<usize>
        ensures { result ≡ locate (regions self.entry.words.now) a n }
    {
        if n < 1 {
            return None;
        }
        let map = self.words;
        for i in 0..map.len() / 3 {
            let g = map[3 * i];
            if holds(g, map[3 * i + 1], a, n) {
                return Some(map[3 * i + 2] + (a - g));
            }
        }
        None
    }
}

// The registered words, held in lent memory from `at` on. Not by the library's copy, which becomes the C library's memmove: a host may be linked
// without one.
#[tactic(auto, using(crate::proofs::Turns::keeps))]
pub fn keep(held: &mut [usize], at: usize, words: &[usize])
    requires { at + length words.now ≤ length held.old }
    ensures { held.new ≡ put held.old at words.now }
{
    for j in 0..words.len() {
        held[at + j] = words[j];
    }
}
