// What goes over the two buffers: the picture, the widths of a list in turn, and those of a filter's two
// lists.
ghost use Rattle.std.specs.Prelude.{◌≡◌, ◌*◌, ◌^◌, ◌≤◌, ◌<◌, length};
ghost use Rattle.spec.specs.Recipe.{weight, recipe};
ghost use Rattle.spec.specs.Picture.{largest_gray, Within, pictured};
ghost use Rattle.laws.proofs.Kernels.{at, Holds};
ghost use Rattle.laws.proofs.Cascades.{spread, cascaded};
ghost use Rattle.laws.proofs.Refusals.{Accepted};
ghost use Rattle.laws.proofs.Flat.{flat, filtered};
ghost use Rattle.passes.specs.Steps.{Below, Small, Ready};
ghost use Rattle.passes.specs.Turned.{other, turned, turned_by, turned_all, held, SameBuffers};

use crate::buffers::{Buffer, Buffers};
use crate::columns::column_pass;
use crate::grown::grow;
use crate::rows::row_pass;
use spec::{Filter, Image};

impl Buffer {
    fn other(self) -> Buffer
        ensures { result ≡ other self }
    {
        match self {
            Buffer::Out => Buffer::Work,
            Buffer::Work => Buffer::Out,
        }
    }

    // The buffer on the other side of one width.
    fn across(self, width: u8) -> Buffer
        ensures { result ≡ turned width self }
    {
        if width != 1 { self.other() } else { self }
    }
}

// Where the picture has to be before the widths of a list to be in a given buffer after them. Only the
// number of widths above 1 decides, so forwards and backwards are the same.
fn turns(boxes: &[u8], after: Buffer) -> Buffer
    ensures { result ≡ turned_by boxes.now after }
{
    boxes
        .iter()
        .fold(after, |holder, &width| holder.across(width))
}

// Where the picture has to begin for a filter's passes to end in `out`.
pub(crate) fn begins_in(filter: Filter) -> Buffer
    requires { Accepted (recipe filter) }
    ensures { turned_all (recipe filter) result ≡ Buffer.Out }
{
    let before_columns = turns(filter.columns.boxes(), Buffer::Out);
    turns(filter.rows.boxes(), before_columns)
}

// One width, with a spread of so many places: 1 along the rows, a row down the columns.
fn pass(step: usize, n: usize, src: &[u64], dst: &mut [u64])
    requires { Ready step n src.now dst.old }
    ensures { Holds (spread step n (at src.now)) dst.new }
{
    if step == 1 {
        row_pass(n, src, dst);
    } else {
        column_pass(step, n, src, dst);
    }
}

impl<'a> Buffers<'a> {
    // The grown picture in the buffer that is to hold it.
    pub(crate) fn place(&mut self, image: Image, full_width: usize)
        requires size { length image.pixels.now ≡ image.width * image.height }
        requires wide { 0 < image.width }
        requires row { image.width ≤ full_width }
        requires room { image.height * full_width ≤ length self.old.out.now }
        ensures same { SameBuffers self.old self.new }
        ensures holder { self.new.holder ≡ self.old.holder }
        ensures places { Below (length self.old.out.now) (flat (pictured image.entry) full_width) (held self.new) }
        ensures bytes { Within largest_gray (pictured image.entry) }
    {
        let Image {
            width,
            height,
            pixels,
        } = image;
        match self.holder {
            Buffer::Out => grow(width, height, full_width, pixels, self.out),
            Buffer::Work => grow(width, height, full_width, pixels, self.work),
        }
    }

    // One width, from the buffer that holds the picture into the other. A width of 1 is no pass.
    fn turn(&mut self, step: usize, n: usize)
        requires { Ready step n (held self.old) self.old.out.now }
        ensures same { SameBuffers self.old self.new }
        ensures holder { self.new.holder ≡ turned n self.old.holder }
        ensures sums { Below (length self.old.out.now) (spread step n (at (held self.old))) (held self.new) }
    {
        if n == 1 {
            return;
        }
        let out = &mut *self.out;
        let work = &mut *self.work;
        let holder = self.holder;
        match holder {
            Buffer::Out => pass(step, n, out, work),
            Buffer::Work => pass(step, n, work, out),
        }
        self.holder = holder.other();
    }

    // The widths of a list in turn.
    fn cascade(&mut self, boxes: &[u8], step: usize)
        requires not_zero { 0 < weight boxes.now }
        requires apart { 0 < step }
        requires offsets { 255 * step ≤ 2 ^ 32 }
        requires small { Small (length self.old.out.now) (cascaded step boxes.now (at (held self.old))) }
        ensures same { SameBuffers self.old self.new }
        ensures holder { self.new.holder ≡ turned_by boxes.now self.old.holder }
        ensures sums { Below (length self.old.out.now) (cascaded step boxes.now (at (held self.old))) (held self.new) }
    {
        for &n in boxes {
            self.turn(step, usize::from(n));
        }
    }

    // A filter's row widths and then its column widths, in rows of full_width places.
    pub(crate) fn carry(&mut self, filter: Filter, full_width: usize)
        requires accepted { Accepted (recipe filter) }
        requires wide { 0 < full_width }
        requires offsets { 255 * full_width ≤ 2 ^ 32 }
        requires small { Small (length self.old.out.now) (filtered (recipe filter) full_width (at (held self.old))) }
        ensures same { SameBuffers self.old self.new }
        ensures holder { self.new.holder ≡ turned_all (recipe filter) self.old.holder }
        ensures sums { Below (length self.old.out.now) (filtered (recipe filter) full_width (at (held self.old))) (held self.new) }
    {
        self.cascade(filter.rows.boxes(), 1);
        self.cascade(filter.columns.boxes(), full_width);
    }
}
