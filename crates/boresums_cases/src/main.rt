// Prints jobs as boresums does, each under its name: document 01's example, each refusal that a job can
// meet, damaged files, a text of more than one filling, and the largest job, of whose text the lines, the
// bytes and the sum of all bytes are told.
#![tactic(auto)]

use report::{Opened, fill, open};
use spec::{Cascade, Filter, Image};
use std::fmt::InlineText;
use std::io::{Error, Result, Stdin, Stdout, Write};

// A job file under a name.
#[derive(Clone, Copy)]
struct Case {
    name: &'static [u8],
    job: &'static [u8],
}

// What document 01 accepts, and files that are damaged.
const FILES: [Case; 13] = [
    Case {
        name: b"-- example\n",
        job: b"BOR\x01\x00\x02\x00\x02\x02\x01\x00\x01\x00\x04",
    },
    Case {
        name: b"-- no widths, 2 by 2\n",
        job: b"BOR\x01\x00\x00\x00\x02\x00\x02\x00\x00\x01\x02\xFF",
    },
    Case {
        name: b"-- rows 2, two picture rows of one pixel\n",
        job: b"BOR\x01\x00\x01\x00\x02\x01\x00\x02\x00\x01\x01",
    },
    Case {
        name: b"-- columns 1,3 and rows 2\n",
        job: b"BOR\x01\x00\x01\x02\x02\x01\x03\x02\x00\x01\x00\x01\xFF",
    },
    Case {
        name: b"-- columns 2,2: higher than wide\n",
        job: b"BOR\x01\x00\x00\x02\x02\x02\x01\x00\x01\x00\x04",
    },
    Case {
        name: b"-- empty\n",
        job: b"",
    },
    Case {
        name: b"-- one byte short\n",
        job: b"BOR\x01\x00\x02\x00\x02\x02\x01\x00\x01\x00",
    },
    Case {
        name: b"-- one byte long\n",
        job: b"BOR\x01\x00\x02\x00\x02\x02\x01\x00\x01\x00\x04\x04",
    },
    Case {
        name: b"-- 6 bytes\n",
        job: b"BOR\x01\x00\x31",
    },
    Case {
        name: b"-- another mark\n",
        job: b"BOS\x01\x00\x02\x00\x02\x02\x01\x00\x01\x00\x04",
    },
    Case {
        name: b"-- version 2\n",
        job: b"BOR\x02\x00\x02\x00\x02\x02\x01\x00\x01\x00\x04",
    },
    Case {
        name: b"-- version 1, high byte first\n",
        job: b"BOR\x00\x01\x02\x00\x02\x02\x01\x00\x01\x00\x04",
    },
    Case {
        name: b"-- cut short within the sides\n",
        job: b"BOR\x01\x00\x02\x00\x00\x02\x01\x00\x01",
    },
];

// The refusals 1 to 5, each where a later one applies too, and 8.
const REFUSALS: [Case; 9] = [
    Case {
        name: b"-- 49 row widths, cut short\n",
        job: b"BOR\x01\x00\x31\x00",
    },
    Case {
        name: b"-- 49 column widths, cut short\n",
        job: b"BOR\x01\x00\x00\x31",
    },
    Case {
        name: b"-- a width of 0, another length\n",
        job: b"BOR\x01\x00\x02\x00\x02\x00\x01\x00\x01\x00",
    },
    Case {
        name: b"-- rows 255,3\n",
        job: b"BOR\x01\x00\x02\x00\xFF\x03\x00\x00\x01\x00",
    },
    Case {
        name: b"-- 23 and 22 twos\n",
        job: b"BOR\x01\x00\x17\x16\x02\x02\x02\x02\x02\x02\x02\x02\x02\x02\x02\x02\x02\x02\x02\x02\x02\x02\x02\x02\x02\x02\x02\x02\x02\x02\x02\x02\x02\x02\x02\x02\x02\x02\x02\x02\x02\x02\x02\x02\x02\x02\x02\x02\x02\x00\x00\x01\x00",
    },
    Case {
        name: b"-- width 0\n",
        job: b"BOR\x01\x00\x02\x00\x02\x02\x00\x00\x01\x00\x04",
    },
    Case {
        name: b"-- height 1,025\n",
        job: b"BOR\x01\x00\x02\x00\x02\x02\x01\x00\x01\x04\x04",
    },
    Case {
        name: b"-- rows 255,2 and columns 33: 8,704 cells\n",
        job: b"BOR\x01\x00\x02\x01\xFF\x02\x21\x01\x00\x01\x00\x09",
    },
    Case {
        name: b"-- the same and a byte more\n",
        job: b"BOR\x01\x00\x02\x01\xFF\x02\x21\x01\x00\x01\x00\x09\x09",
    },
];

fn show(out: &mut Stdout, name: &[u8], job: &[u8]) -> Result<()> {
    Write::write_all(out, name)?;
    match console::print_report(out, job).error {
        Some(error) => Err(error),
        None => Ok(()),
    }
}

fn show_all(out: &mut Stdout, cases: &[Case]) -> Result<()> {
    for case in cases {
        show(out, case.name, case.job)?;
    }
    Ok(())
}

// A cascade of so many widths, all of them 2.
fn twos(count: u8) -> Cascade {
    Cascade {
        count,
        widths: [2u8; 48],
    }
}

// Pixel k is 7 times k modulo 251.
fn paint(pixels: &mut [u8]) {
    for (k, pixel) in pixels.iter_mut().enumerate() {
        *pixel = (k % 251 * 7 % 251) as u8;
    }
}

// Writes the job of so many row and column widths, all of them 2, and of a painted picture.
fn make(rows: u8, columns: u8, image: Image, file: &mut [u8]) -> Result<()> {
    let filter = Filter {
        rows: twos(rows),
        columns: twos(columns),
    };
    job::write(filter, image, file).map_err(|refusal| Error::other(InlineText::<100>::of(
        refusal,
    ).as_str()))
}

// Rows 2, columns 2 on a picture of 60 by 300: over 65,536 bytes of text.
fn many_lines(out: &mut Stdout) -> Result<()> {
    let mut pixels = [0u8; 18000];
    paint(&mut pixels);
    let image = Image {
        width: 60,
        height: 300,
        pixels: &pixels,
    };
    let mut file = [0u8; 18013];
    make(1, 1, image, &mut file)?;
    show(out, b"-- rows 2, columns 2, 60 by 300\n", &file)
}

// How many lines and bytes a text has so far, and the sum of these.
#[derive(Drop)]
struct Digest {
    lines: u64,
    bytes: u64,
    sum: u64,
}

impl Digest {
    // A piece of the text more.
    fn add(&mut self, piece: &[u8]) {
        for &byte in piece {
            self.lines = self.lines.wrapping_add(u64::from(byte == b'\n'));
            self.bytes = self.bytes.wrapping_add(1);
            self.sum = self.sum.wrapping_add(u64::from(byte));
        }
    }
}

// All fillings of an opened job.
fn digest_of(opened: Opened, job: &[u8], cells: &mut [u64], text: &mut [u8; 65536]) -> Digest {
    let mut at = opened;
    let mut digest = Digest {
        lines: 0,
        bytes: 0,
        sum: 0,
    };
    for _ in 0..1280 {
        let filled = fill(at, job, cells, text);
        digest.add(&text[..filled.count]);
        at = filled.opened;
    }
    digest
}

// Prints how many lines and bytes a job's text has, and the sum of these.
fn print_digest(
    out: &mut Stdout,
    job: &[u8],
    cells: &mut [u64; 8192],
    text: &mut [u8; 65536],
) -> Result<()> {
    let opened = open(job, cells);
    let digest = digest_of(opened, job, cells, text);
    writeln!(out, " {} {} {}", digest.lines, digest.bytes, digest.sum)
}

// The largest job: rows 2,2, columns 2,2,2 on a picture of 260 by 252, 65,536 bytes in all.
fn largest(out: &mut Stdout) -> Result<()> {
    Write::write_all(out, b"-- 65,536 bytes: lines, bytes, sum of the bytes\n")?;
    let mut pixels = [0u8; 65520];
    paint(&mut pixels);
    let image = Image {
        width: 260,
        height: 252,
        pixels: &pixels,
    };
    let mut file = [0u8; 65536];
    make(2, 3, image, &mut file)?;
    let mut cells = [0u64; 8192];
    let mut text = [0u8; 65536];
    print_digest(out, &file, &mut cells, &mut text)
}

// A byte more than the program takes: rows 2,2,2, columns 2,2,2 on a picture of 260 by 252, a job that is
// in order but for its length.
fn too_large(out: &mut Stdout) -> Result<()> {
    let mut pixels = [0u8; 65520];
    paint(&mut pixels);
    let image = Image {
        width: 260,
        height: 252,
        pixels: &pixels,
    };
    let mut file = [0u8; 65537];
    make(3, 3, image, &mut file)?;
    show(out, b"-- 65,537 bytes\n", &file)
}

// Standard input, read as boresums reads it: the largest job, and a byte more.
fn input(from: &mut Stdin, out: &mut Stdout) -> Result<()> {
    let mut bytes = [0u8; 65537];
    let input = stdio::read_all(from, &mut bytes);
    if let Some(error) = input.error {
        return Err(error);
    }
    show(
        out,
        b"-- standard input: a job of 65,536 bytes, and a byte more\n",
        &bytes[..input.count],
    )
}

fn main(rt: HostRuntime) -> Result<()> {
    let mut out = rt.stdout();
    show_all(&mut out, &FILES)?;
    show_all(&mut out, &REFUSALS)?;
    many_lines(&mut out)?;
    largest(&mut out)?;
    too_large(&mut out)?;
    input(&mut rt.stdin(), &mut out)
}
