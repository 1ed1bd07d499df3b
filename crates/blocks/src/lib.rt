// The blocks by which recipes cross to C and Rust, taken apart and put together. A list is a block of 49
// bytes: its count and its 48 widths. A recipe is a block of 98: the row list and then the column list.
// Every block stands for a list or a recipe; the calls refuse what document 01 refuses.
#![tactic(auto)]

ghost use Rattle.std.specs.Prelude.{◌≡◌, ◌∷◌, length};
ghost use Rattle.blocks.specs.Given.{list_at, given, block_of};

use spec::{Cascade, Filter};

// The list that 49 bytes stand for. It is inlined, so that the length of the copy is known.
#[inline(always)]
fn list_at(bytes: &[u8]) -> Cascade
    requires { length bytes.now ≡ 49 }
    ensures { result ≡ list_at 0 bytes.now }
{
    let mut widths = [0u8; 48];
    widths.copy_from_slice(&bytes[1..]);
    Cascade {
        count: bytes[0],
        widths,
    }
}

// The list that a block stands for.
pub fn cascade_of(block: &[u8; 49]) -> Cascade
    ensures { result ≡ list_at 0 block.now }
{
    list_at(block)
}

// The recipe that a block stands for.
pub fn filter_of(block: &[u8; 98]) -> Filter
    ensures { result ≡ given block.now }
{
    Filter {
        rows: list_at(&block[..49]),
        columns: list_at(&block[49..]),
    }
}

// Makes 49 bytes stand for a list.
fn put_list(list: Cascade, bytes: &mut [u8])
    requires { length bytes.old ≡ 49 }
    ensures { bytes.new ≡ list.count ∷ list.widths }
{
    bytes[0] = list.count;
    bytes[1..].copy_from_slice(&list.widths);
}

// Makes a block stand for a recipe.
pub fn put_filter(filter: Filter, block: &mut [u8; 98])
    ensures { (block.new ≡ block_of filter) × (given block.new ≡ filter) }
{
    put_list(filter.rows, &mut block[..49]);
    put_list(filter.columns, &mut block[49..]);
}
