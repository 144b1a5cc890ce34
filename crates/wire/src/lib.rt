// Numbers in bytes, lowest byte first (01, head): get and put of N bytes, used at 2, 4 and 8.
// Since N is fixed when it compiles, each copy is one load or one store (docs/TRUST.md), and is so before a caller's loop is laid out.
#![tactic(auto)]

ghost use Rattle.std.specs.Prelude.{◌≡◌, ◌+◌, ◌^◌, ◌<◌, ◌≤◌, length};
ghost use Rattle.model.specs.Bytes.{put, word, bytes};

#[tactic(auto, using(crate::proofs::Number::gets))]
pub fn get<const N: usize>(m: &[u8], k: usize) -> usize
    requires in_bounds { k + N ≤ length m.now }
    requires eight_at_most { N ≤ 8 }
    ensures value { result ≡ word N k m.now }
    ensures upper_bound { result < 256 ^ N }
{
    let mut number = [0; 8];
    number[..N].copy_from_slice(&m[k..k + N]);
    usize::from_le_bytes(number)
}

pub fn put<const N: usize>(m: &mut [u8], k: usize, v: usize)
    requires in_bounds { k + N ≤ length m.old }
    requires eight_at_most { N ≤ 8 }
    ensures { m.new ≡ put m.old k (bytes N v) }
{
    m[k..k + N].copy_from_slice(&v.to_le_bytes()[..N]);
}
