// A pass along the rows: one running sum through the whole picture.
ghost use Rattle.std.specs.Prelude.{◌≡◌, min, length};
ghost use Rattle.laws.proofs.Sequences.{behind};
ghost use Rattle.laws.proofs.Kernels.{at, Holds};
ghost use Rattle.laws.proofs.Cascades.{spread};
ghost use Rattle.passes.specs.Steps.{Below, Ready};

// The first n places, from which nothing is to be taken away yet. Returns the last sum.
fn rise(n: usize, src: &[u64], dst: &mut [u64]) -> u64
    requires { Ready 1 n src.now dst.old }
    ensures { let f = spread 1 n (at src.now) in let m = min n (length src.now) in
        (result ≡ behind f 1 m) × Below m f dst.new }
{
    let stop = n.min(src.len());
    let mut total: u64 = 0;
    for (k, &x) in src[..stop].iter().enumerate() {
        total += x;
        dst[k] = total;
    }
    total
}

// The other places: at each, a place comes in, and the one n places back goes out.
fn slide(n: usize, first: u64, src: &[u64], dst: &mut [u64])
    requires ready { Ready 1 n src.now dst.old }
    requires before { first ≡ behind (spread 1 n (at src.now)) 1 (min n (length src.now)) }
    requires sums { Below (min n (length src.now)) (spread 1 n (at src.now)) dst.old }
    ensures { Holds (spread 1 n (at src.now)) dst.new }
{
    let start = n.min(src.len());
    let mut total = first;
    for (k, &x) in src[start..].iter().enumerate() {
        total = total + x - src[k];
        dst[start + k] = total;
    }
}

// One width along the rows.
pub(crate) fn row_pass(n: usize, src: &[u64], dst: &mut [u64])
    requires { Ready 1 n src.now dst.old }
    ensures { Holds (spread 1 n (at src.now)) dst.new }
{
    let first = rise(n, src, dst);
    slide(n, first, src, dst);
}
