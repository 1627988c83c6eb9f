//! Places and sections worked by hand, in tables of texts.

ghost use Rattle.std.specs.Prelude.{◌+◌, ◌^◌, ◌<◌, IfOk};
ghost use Rattle.f3_desc.specs.Descriptor.{HasPlaces};

use Triplet::{At, Range};
use arrayvec::ArrayVec;
use f3_desc::descriptor::{Bounds, Descriptor, Dim, SectionFault, Triplet};
use f3_heap::BlockId;
use std::alloc::Global;
use std::process::Abort;

/// An array of one dimension whose elements have one word each.
fn line(rt: &impl Abort, offset: usize, lower: i64, extent: usize) -> Descriptor
    requires { offset + extent < 2 ^ 63 }
    ensures { HasPlaces result }
{
    let mut dims = ArrayVec::new();
    dims.push(Dim {
        lower,
        extent,
        stride: 1,
    });
    let block = BlockId::of(1).expect(rt, "a block");
    Descriptor {
        block,
        offset,
        dims,
    }
}

/// An array of two rows by three columns, whose elements have one word each.
fn table(rt: &impl Abort, offset: usize) -> Descriptor
    requires { offset < 1000 }
    ensures { HasPlaces result }
{
    let mut dims = ArrayVec::new();
    dims.push(Dim {
        lower: 0,
        extent: 2,
        stride: 1,
    });
    dims.push(Dim {
        lower: 1,
        extent: 3,
        stride: 2,
    });
    let block = BlockId::of(1).expect(rt, "a block");
    Descriptor {
        block,
        offset,
        dims,
    }
}

/// An array of one dimension whose elements all have the same place.
fn spot(rt: &impl Abort, lower: i64, extent: usize) -> Descriptor
    ensures { HasPlaces result }
{
    let mut dims = ArrayVec::new();
    dims.push(Dim {
        lower,
        extent,
        stride: 0,
    });
    let block = BlockId::of(1).expect(rt, "a block");
    Descriptor {
        block,
        offset: 5,
        dims,
    }
}

/// An array without elements, of a dimension with ten subscripts and one with none.
fn nothing(rt: &impl Abort, stride: i64) -> Descriptor
    ensures { HasPlaces result }
{
    let mut dims = ArrayVec::new();
    dims.push(Dim {
        lower: 1,
        extent: 10,
        stride,
    });
    dims.push(Dim {
        lower: i64::MAX,
        extent: 0,
        stride,
    });
    let block = BlockId::of(1).expect(rt, "a block");
    Descriptor {
        block,
        offset: usize::MAX,
        dims,
    }
}

/// The number that a word tells.
fn number(rt: &impl Abort, word: &str) -> i64 {
    word.parse::<i64>().ok().expect(rt, "a number")
}

/// The numbers between blanks.
fn numbers(rt: &impl Abort, alloc: Global, text: &str) -> Vec<i64> {
    let mut found = Vec::new(alloc);
    for word in text.split_whitespace() {
        found.push(number(rt, word)).expect(rt, "memory");
    }
    found
}

/// A triplet of three numbers, or a single subscript.
fn triplet(rt: &impl Abort, numbers: &[i64]) -> Triplet {
    match numbers {
        [from, to, step] => Range(*from, *to, *step),
        [subscript] => At(*subscript),
        _ => panic!(rt; "no triplet"),
    }
}

/// The triplets between commas.
fn triplets(rt: &impl Abort, alloc: Global, text: &str) -> Vec<Triplet> {
    let mut found = Vec::new(alloc);
    for part in text.split(", ") {
        let numbers = numbers(rt, alloc, part);
        let triplet = triplet(rt, &numbers);
        drop(numbers);
        found.push(triplet).expect(rt, "memory");
    }
    found
}

/// What a line asks, and behind the arrow what is wanted.
fn parts<'a>(rt: &impl Abort, line: &'a str) -> (&'a str, &'a str) {
    line.split_once(" -> ").expect(rt, "an arrow")
}

/// The place of an element, if its subscripts are within bounds.
fn place(rt: &impl Abort, array: &Descriptor, subscripts: &[i64]) -> Option<usize>
    requires { HasPlaces array.now }
{
    assert!(rt; subscripts.len() == array.dims.len());
    match array.element(subscripts) {
        Ok((block, at)) => {
            assert!(rt; block == array.block);
            Some(at)
        }
        Err(Bounds) => None,
    }
}

/// Each line of a table is the subscripts of an element and its place, or `bounds`.
fn check_places(rt: &impl Abort, alloc: Global, array: &Descriptor, table: &str)
    requires { HasPlaces array.now }
{
    for line in table.lines() {
        let (asked, wanted) = parts(rt, line);
        let subscripts = numbers(rt, alloc, asked);
        let came = place(rt, array, &subscripts);
        drop(subscripts);
        assert!(rt; came == wanted.parse::<usize>().ok(), "{line}");
    }
}

/// The section, or why there is none.
fn cut(
    rt: &impl Abort,
    alloc: Global,
    array: &Descriptor,
    text: &str,
) -> Result<Descriptor, SectionFault>
    requires { HasPlaces array.now }
    ensures { IfOk result (λ s. HasPlaces s) }
{
    let triplets = triplets(rt, alloc, text);
    assert!(rt; triplets.len() == array.dims.len());
    let found = array.section(&triplets);
    drop(triplets);
    found
}

/// Whether a dimension begins with 1 and has this extent and this stride, with a star between them.
fn is_dim(rt: &impl Abort, dim: &Dim, word: &str) -> bool {
    let (extent, stride) = word.split_once("*").expect(rt, "a star");
    let extent = extent.parse::<usize>().ok();
    dim.lower == 1 && extent == Some(dim.extent) && number(rt, stride) == dim.stride
}

/// Whether these are the dimensions, with blanks between them.
fn has_dims(rt: &impl Abort, dims: &[Dim], wanted: &str) -> bool {
    let mut at = 0;
    for word in wanted.split_whitespace() {
        if at >= dims.len() || !is_dim(rt, &dims[at], word) {
            return false;
        }
        at += 1;
    }
    at == dims.len()
}

/// Whether the section has these dimensions, or there is none for this reason.
fn is_section(rt: &impl Abort, found: &Result<Descriptor, SectionFault>, wanted: &str) -> bool {
    match found {
        Ok(section) => has_dims(rt, section.dims.as_slice(), wanted),
        Err(SectionFault::Bounds) => wanted == "bounds",
        Err(SectionFault::StepZero) => wanted == "step zero",
    }
}

/// Each line of a table is the triplets of a section and its dimensions, or why there is none.
fn check_sections(rt: &impl Abort, alloc: Global, array: &Descriptor, table: &str)
    requires { HasPlaces array.now }
{
    for line in table.lines() {
        let (asked, wanted) = parts(rt, line);
        let found = cut(rt, alloc, array, asked);
        let is_wanted = is_section(rt, &found, wanted);
        drop(found);
        assert!(rt; is_wanted, "{line}");
    }
}

/// The places in a section.
fn check_within(rt: &impl Abort, alloc: Global, array: &Descriptor, text: &str, table: &str)
    requires { HasPlaces array.now }
{
    let section = cut(rt, alloc, array, text).expect(rt, "a section");
    check_places(rt, alloc, &section, table);
    drop(section);
}

const LINE: &str = "\
3 -> 10
7 -> 14
2 -> bounds
8 -> bounds
-9223372036854775808 -> bounds";

const PARTS_OF_A_LINE: &str = "\
7 3 -2 -> 3*-2
3 8 2 -> 3*2
3 9 2 -> bounds
2 7 5 -> bounds
7 3 -5 -> 1*-5
100 99 1 -> 0*1
-5 0 -1 -> 0*-1
5 5 -9223372036854775808 -> 1*-9223372036854775808
100 99 0 -> step zero
8 -> bounds";

const DOWN: &str = "\
1 -> 14
3 -> 10
4 -> bounds
0 -> bounds";

#[test]
fn a_line(rt: HostRuntime) {
    let array = line(&rt, 10, 3, 5);
    check_places(&rt, rt.alloc(), &array, LINE);
    check_sections(&rt, rt.alloc(), &array, PARTS_OF_A_LINE);
    check_within(&rt, rt.alloc(), &array, "7 3 -2", DOWN);
    check_within(&rt, rt.alloc(), &array, "5", " -> 12");
    let down = cut(&rt, rt.alloc(), &array, "7 3 -2").expect(&rt, "a section");
    drop(array);
    check_sections(&rt, rt.alloc(), &down, "3 1 -1 -> 3*2");
    check_within(&rt, rt.alloc(), &down, "3 1 -1", "2 -> 12");
    drop(down);
}

const TABLE: &str = "\
0 1 -> 100
1 3 -> 105
2 1 -> bounds
0 4 -> bounds";

// A step of zero is found before a subscript out of bounds, and this beside a triplet that selects nothing.
const PARTS_OF_A_TABLE: &str = "\
1, 1 3 1 -> 3*2
1 0 -1, 3 1 -2 -> 2*-1 2*-4
5 5 1, 1 1 0 -> step zero
9, 1 0 1 -> bounds
5 4 1, 1 3 1 -> 0*1 3*2";

#[test]
fn a_table(rt: HostRuntime) {
    let array = table(&rt, 100);
    check_places(&rt, rt.alloc(), &array, TABLE);
    check_sections(&rt, rt.alloc(), &array, PARTS_OF_A_TABLE);
    check_within(&rt, rt.alloc(), &array, "1, 1 3 1", "3 -> 105");
    check_within(&rt, rt.alloc(), &array, "1 0 -1, 3 1 -2", "2 2 -> 100");
    check_within(&rt, rt.alloc(), &array, "5 4 1, 1 3 1", "1 1 -> bounds");
    drop(array);
}

const SPOT: &str = "\
9223372036854775806 -> 5
9223372036854775807 -> bounds";

const PARTS_OF_A_SPOT: &str = "\
-9223372036854775808 9223372036854775807 1 -> bounds
-9223372036854775808 9223372036854775806 1 -> 18446744073709551615*0
9223372036854775806 -9223372036854775808 -9223372036854775808 -> 2*0
-9223372036854775808 9223372036854775807 9223372036854775807 -> 3*0";

#[test]
fn least_and_greatest_numbers(rt: HostRuntime) {
    let array = spot(&rt, i64::MIN, usize::MAX);
    check_places(&rt, rt.alloc(), &array, SPOT);
    check_sections(&rt, rt.alloc(), &array, PARTS_OF_A_SPOT);
    drop(array);
}

// Three times the least number is the least number, up to 2 ^ 64.
const PARTS_OF_NOTHING: &str = "\
1 10 3, 1 0 1 -> 4*-9223372036854775808 0*-9223372036854775808
3, 7 7 1 -> bounds";

#[test]
fn strides_without_elements(rt: HostRuntime) {
    let array = nothing(&rt, i64::MIN);
    check_places(&rt, rt.alloc(), &array, "1 9223372036854775807 -> bounds");
    check_sections(&rt, rt.alloc(), &array, PARTS_OF_NOTHING);
    drop(array);
}
