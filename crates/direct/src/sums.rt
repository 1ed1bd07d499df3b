// The exact sums, formed as they are defined, with the window cut to the picture.
ghost use Rattle.std.specs.Prelude.{◌≡◌, ℕ, ◌+◌, ◌-◌, ◌*◌, ◌<◌, ◌≤◌, ◌^◌, length};
ghost use Rattle.spec.specs.Words.{tab};
ghost use Rattle.spec.specs.Picture.{pictured};
ghost use Rattle.laws.proofs.Convolution.{ones};
ghost use Rattle.laws.proofs.Exact.{line};
ghost use Rattle.laws.proofs.Kernels.{at};
ghost use Rattle.direct.specs.Windows.{through, window, windows, mass, Ready};

use spec::Image;

// The coefficients of both lists, filled in.
#[derive(Clone, Copy)]
pub(crate) struct Kernels<'a> {
    pub(crate) rows: &'a [u64],
    pub(crate) columns: &'a [u64],
}

// The sum along a line at i.
fn across(line: &[u8], kernel: &[u64], i: usize) -> u64
    requires some { 0 < length line.now }
    requires reach { i + 1 < length line.now + length kernel.now }
    requires light { mass kernel.now ≤ 2 ^ 44 }
    ensures value { result ≡ through kernel.now (at line.now) i }
    ensures bound { result ≤ 65535 * mass kernel.now }
{
    let start = (i + 1).saturating_sub(line.len());
    let end = kernel.len().min(i + 1);
    let back = line[i + 1 - end..i + 1 - start].iter().rev();
    let mut total: u64 = 0;
    for (coefficient, pixel) in kernel[start..end].iter().zip(back) {
        total += *coefficient * u64::from(*pixel);
    }
    total
}

// The coefficients of the window at i that fall inside a line of n places, added up.
pub(crate) fn inside(kernel: &[u64], i: usize, n: usize) -> u64
    requires some { 0 < n }
    requires few { n ≤ 1024 }
    requires reach { i + 1 < n + length kernel.now }
    requires light { mass kernel.now ≤ 2 ^ 44 }
    ensures value { result ≡ through kernel.now (ones n) i }
    ensures bound { result ≤ mass kernel.now }
{
    let start = (i + 1).saturating_sub(n);
    let end = kernel.len().min(i + 1);
    kernel[start..end].iter().sum()
}

// Row v of a picture.
fn row_of<'a>(image: Image<'a>, v: usize) -> &'a [u8]
    requires size { length image.pixels.now ≡ image.width * image.height }
    requires inside { v < image.height }
    ensures long { length result.now ≡ image.entry.width }
    ensures pixels { (k : ℕ) → at result.now k ≡ line (pictured image.entry) v k }
{
    let from = v * image.width;
    &image.pixels[from..from + image.width]
}

// The sum over the rows of the window at column i, row j.
pub(crate) fn down(image: Image, kernels: Kernels, i: usize, j: usize) -> u64
    requires ready { Ready kernels.rows.now kernels.columns.now (pictured image) }
    requires across { i + 1 < image.width + length kernels.rows.now }
    requires below { j + 1 < image.height + length kernels.columns.now }
    ensures { result ≡ window kernels.entry.rows.now kernels.entry.columns.now (pictured image.entry) i j }
{
    let start = (j + 1).saturating_sub(image.height);
    let end = kernels.columns.len().min(j + 1);
    let mut total: u64 = 0;
    // by number: the coefficient and the picture row run against each other
    for b in start..end {
        total += kernels.columns[b] * across(row_of(image, j - b), kernels.rows, i);
    }
    total
}

// Grown row j.
fn row(image: Image, kernels: Kernels, j: usize, out: &mut [u64])
    requires ready { Ready kernels.rows.now kernels.columns.now (pictured image) }
    requires out_len { length out.old + 1 ≡ image.width + length kernels.rows.now }
    requires below { j + 1 < image.height + length kernels.columns.now }
    ensures { out.new ≡ tab (length out.old) (λ i. window kernels.entry.rows.now kernels.entry.columns.now (pictured image.entry) i j) }
{
    for (i, sum) in out.iter_mut().enumerate() {
        *sum = down(image, kernels, i, j);
    }
}

// All grown rows, one after the other.
pub(crate) fn form(image: Image, kernels: Kernels, out: &mut [u64])
    requires ready { Ready kernels.rows.now kernels.columns.now (pictured image) }
    requires out_len { length out.old ≡ (image.height + length kernels.columns.now - 1) * (image.width + length kernels.rows.now - 1) }
    ensures { out.new ≡ windows kernels.entry.rows.now kernels.entry.columns.now (pictured image.entry) }
{
    let grown_width = image.width + kernels.rows.len() - 1;
    // by number: of an iterator over parts that are written nothing is known afterwards
    for j in 0..image.height + kernels.columns.len() - 1 {
        let from = j * grown_width;
        row(image, kernels, j, &mut out[from..from + grown_width]);
    }
}
