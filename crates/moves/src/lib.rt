// The one routine that copies bytes: n bytes from a part of one slice to a part of another, eight at a time with a tail.
// Not the library's copy, which may become the C library's memcpy: that may load a guest's byte twice (docs/TRUST.md).
#![tactic(auto)]

ghost use Rattle.std.specs.Prelude.{◌≡◌, ◌+◌, ◌*◌, ◌≤◌, length};
ghost use Rattle.model.specs.Bytes.{put, part};

// m times eight bytes. Each eight is one number, loaded once and stored once; a loop of such is one that the compiler widens.
fn eights(src: &[u8], from: usize, dst: &mut [u8], to: usize, m: usize)
    requires src_in_bounds { from + 8 * m ≤ length src.now }
    requires dst_in_bounds { to + 8 * m ≤ length dst.old }
    ensures { dst.new ≡ put dst.old to (part from (8 * m) src.now) }
{
    for k in 0..m {
        let v = wire::get::<8>(src, from + 8 * k);
        wire::put::<8>(dst, to + 8 * k, v);
    }
}

// The bytes that are left, one at a time: no byte of an eight is loaded again.
fn tail(src: &[u8], from: usize, dst: &mut [u8], to: usize, n: usize)
    requires src_in_bounds { from + n ≤ length src.now }
    requires dst_in_bounds { to + n ≤ length dst.old }
    ensures { dst.new ≡ put dst.old to (part from n src.now) }
{
    for i in 0..n {
        dst[to + i] = src[from + i];
    }
}

// The destination's part becomes the source's part; every other byte of it, and its length, are as before.
pub fn copy(src: &[u8], from: usize, dst: &mut [u8], to: usize, n: usize)
    requires src_in_bounds { from + n ≤ length src.now }
    requires dst_in_bounds { to + n ≤ length dst.old }
    ensures { dst.new ≡ put dst.old to (part from n src.now) }
{
    let m = n / 8;
    eights(src, from, dst, to, m);
    tail(src, from + 8 * m, dst, to + 8 * m, n % 8);
}
