// The grown picture before the first pass: the pixels, and black around them.
ghost use Rattle.std.specs.Prelude.{◌≡◌, ◌*◌, ◌≤◌, ◌<◌, length};
ghost use Rattle.spec.specs.Picture.{largest_gray, picture, Within};
ghost use Rattle.laws.proofs.Kernels.{at, Holds};
ghost use Rattle.laws.proofs.Flat.{flat};

// One row: its pixels, and black to their right.
fn copy_row(pixels: &[u8], row: &mut [u64])
    requires { length pixels.now ≤ length row.old }
    ensures { Holds (at pixels.now) row.new }
{
    for (i, &pixel) in pixels.iter().enumerate() {
        row[i] = u64::from(pixel);
    }
    row[pixels.len()..].fill(0);
}

// All rows of the picture, in rows of full_width places, and black to their right and below them.
pub(crate) fn grow(width: usize, height: usize, full_width: usize, pixels: &[u8], dst: &mut [u64])
    requires size { length pixels.now ≡ width * height }
    requires wide { 0 < width }
    requires row { width ≤ full_width }
    requires room { height * full_width ≤ length dst.old }
    ensures places { Holds (flat (picture width height pixels.now) full_width) dst.new }
    ensures bytes { Within largest_gray (picture width height pixels.now) }
{
    for (j, line) in pixels.chunks_exact(width).enumerate() {
        let to = j * full_width;
        copy_row(line, &mut dst[to..to + full_width]);
    }
    dst[height * full_width..].fill(0);
}
