// The calls on job files for C and Rust. A recipe is a block of 98 bytes (crate `blocks`); a job that was
// read is such a block and one of three words: width, height and the offset of the pixels. Each call
// returns document 01's number, 0 where it is accepted.
#![tactic(auto)]

ghost use Rattle.std.specs.Prelude.{◌≡◌};
ghost use Rattle.spec.specs.Recipe.{recipe};
ghost use Rattle.spec.specs.Picture.{picture};
ghost use Rattle.spec.specs.Job.{job_length};
ghost use Rattle.spec.specs.Refusals.{first, lent, size_checks};
ghost use Rattle.job.specs.Writing.{JobWritten};
ghost use Rattle.blocks.specs.Given.{given};
ghost use Rattle.job_c.specs.Jobs.{given_job, job_read};

use blocks::{filter_of, put_filter};
use filter::no_filter;
use spec::{Image, outcome};

// Reads a job: 14, 1, 14, 2 to 5, 14. The two blocks are the answer: on a refusal all of them is zero.
#[unsafe(no_mangle)]
pub extern "C" fn bore_read_job(bytes: &[u8], block: &mut [u8; 98], words: &mut [usize; 3]) -> u8
    ensures { given_job result block.new words.new ≡ job_read bytes.now }
{
    match job::read(bytes) {
        Ok(read) => {
            put_filter(read.filter, block);
            *words = [read.width, read.height, read.offset];
            0
        }
        Err(refusal) => {
            put_filter(no_filter(), block);
            *words = [0, 0, 0];
            refusal.number()
        }
    }
}

// The length that a job will have: 1 to 5. On a refusal nothing is written.
#[unsafe(no_mangle)]
pub extern "C" fn bore_job_size(
    block: &[u8; 98],
    width: usize,
    height: usize,
    size: &mut usize,
) -> u8
    ensures { let g = recipe (given block.now) in let cs = size_checks g width height in
        (result ≡ first cs) × (size.new ≡ lent cs (job_length g width height) size.old) }
{
    match job::size(filter_of(block), width, height) {
        Ok(n) => {
            *size = n;
            0
        }
        Err(refusal) => refusal.number(),
    }
}

// Writes a job: 1 to 7. On a refusal nothing is written.
#[unsafe(no_mangle)]
pub extern "C" fn bore_write_job(
    block: &[u8; 98],
    width: usize,
    height: usize,
    pixels: &[u8],
    out: &mut [u8],
) -> u8
    ensures { JobWritten (recipe (given block.now)) (picture width height pixels.now) out.old result out.new }
{
    let image = Image {
        width,
        height,
        pixels,
    };
    outcome(job::write(filter_of(block), image, out))
}
