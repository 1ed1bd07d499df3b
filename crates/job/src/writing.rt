// Writing a job, and the length that it will have.
ghost use Rattle.std.specs.Prelude.{◌≡◌, ◌+◌, ◌≤◌, length};
ghost use Rattle.spec.specs.Recipe.{recipe};
ghost use Rattle.spec.specs.Picture.{pictured};
ghost use Rattle.spec.specs.Job.{job_bytes, job_length};
ghost use Rattle.spec.specs.Refusals.{first, answer, outcome, size_checks, picture_checks};
ghost use Rattle.job.specs.Answers.{length_told};
ghost use Rattle.job.specs.Writing.{JobWritten};
ghost use Rattle.job.specs.Private.{Appended};

use filter::full_size;
use spec::{Filter, Image, Refusal};

// The length in bytes that the job of a recipe and of a picture with these sides has: refused by 1 to 5.
pub fn size(filter: Filter, width: usize, height: usize) -> Result<usize, Refusal>
    ensures { length_told result ≡ answer (size_checks (recipe filter) width height) (job_length (recipe filter) width height) }
{
    full_size(filter, width, height)?;
    let widths = usize::from(filter.rows.count) + usize::from(filter.columns.count);
    Ok(11 + widths + width * height)
}

// Writes bytes at a place, and tells the place after them.
fn append(from: &[u8], out: &mut [u8], at: usize) -> usize
    requires { at + length from.now ≤ length out.old }
    ensures { Appended from.now at out.old result out.new }
{
    let end = at + from.len();
    out[at..end].copy_from_slice(from);
    end
}

// The bytes of an accepted job: mark, version and counts, the lists, the sides, low byte first, and the
// pixels.
fn fill(filter: Filter, image: Image, out: &mut [u8])
    requires { (first (picture_checks (recipe filter) (pictured image)) ≡ 0)
        × (length out.old ≡ job_length (recipe filter) image.width image.height) }
    ensures { out.new ≡ job_bytes (recipe filter) (pictured image.entry) }
{
    let Filter { rows, columns } = filter;
    let head = [b'B', b'O', b'R', 1, 0, rows.count, columns.count];
    let rows_at = append(&head, out, 0);
    let columns_at = append(rows.boxes(), out, rows_at);
    let width_at = append(columns.boxes(), out, columns_at);
    let height_at = append(&(image.width as u16).to_le_bytes(), out, width_at);
    let offset = append(&(image.height as u16).to_le_bytes(), out, height_at);
    append(image.pixels, out, offset);
}

// Writes the job of a recipe and a picture: refused by 1 to 7.
pub fn write(filter: Filter, image: Image, out: &mut [u8]) -> Result<(), Refusal>
    ensures { JobWritten (recipe filter) (pictured image.entry) out.old (outcome result) out.new }
{
    let n = size(filter, image.width, image.height)?;
    if image.pixels.len() != image.width * image.height {
        return Err(Refusal::OtherPixels);
    }
    if out.len() != n {
        return Err(Refusal::OtherOutput);
    }
    fill(filter, image, out);
    Ok(())
}
