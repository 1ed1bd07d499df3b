// The widths of a cascade, one by one.
ghost use Rattle.std.specs.Prelude.{◌≡◌, get_or};
ghost use Rattle.spec.specs.Recipe.{widths};

// The width at a place, from 0 on, of the cascade with this count and this array, which may have any length:
// 0 past the count, and past the array. (Over a `Cascade` a loop goes by `boxes`.)
pub fn width_at(count: u8, array: &[u8], i: usize) -> u8
    ensures { result ≡ get_or (widths (record { count = count; widths = array.now })) i 0 }
{
    if usize::from(count) <= i {
        0
    } else if array.len() <= i {
        0
    } else {
        array[i]
    }
}
