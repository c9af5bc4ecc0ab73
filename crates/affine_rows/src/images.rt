// Image texts.
use affine_ast::{Arg, ArgKind, Element, MemrefType, Module, Name, Stmt, Text, Verified, What};
use affine_expr::Interval;
use affine_verify::verify;
use mem_image::{ImageFault, image_texts_are_exact, parse_image, print_image};
use sqlite_items::Items;
use std::alloc::{AllocError, Global};
use std::test::Fail;

fn argument(alloc: Global, text: &str, kind: ArgKind) -> Result<Arg, AllocError> {
    let text = Text::from_string(String::from_str(alloc, text)?);
    Ok(Arg {
        name: Name { text, made: false },
        kind,
        line: 1,
    })
}

fn memref(alloc: Global, sizes: &[u32], element: Element) -> Result<ArgKind, AllocError> {
    Ok(ArgKind::Memref(MemrefType {
        sizes: Items::from_slice(alloc, sizes)?,
        element,
        space: 0,
    }))
}

/// `@f(%A: memref<2x2xi8>, %n: index, %r: index {copy.range = [-3, 5]}, %S: memref<i16>)`, with no statement but its `return`.
fn four_arguments(alloc: Global) -> Result<Verified, Fail> {
    let mut args = Items::new(alloc);
    let kind = memref(alloc, &[2, 2], Element::I8)?;
    args.push(argument(alloc, "A", kind)?)?;
    args.push(argument(alloc, "n", ArgKind::Index(None))?)?;
    let range = Interval {
        least: -3,
        greatest: 5,
    };
    args.push(argument(alloc, "r", ArgKind::Index(Some(range)))?)?;
    let kind = memref(alloc, &[], Element::I16)?;
    args.push(argument(alloc, "S", kind)?)?;
    let mut body = Items::new(alloc);
    body.push(Stmt {
        line: 2,
        what: What::Return,
    })?;
    let name = Text::from_string(String::from_str(alloc, "f")?);
    Ok(verify(alloc, Module { name, args, body })?)
}

#[test]
fn texts_that_spell_an_image(rt: HostRuntime) -> Result<(), Fail> {
    let alloc = rt.alloc();
    let module = four_arguments(alloc)?;
    image_texts_are_exact();
    for (text, printed) in [
        (
            b"A = 1 2 3 4\nn = 0\nr = -3\nS = 32767\n".as_slice(),
            b"A = 1 2 3 4\nn = 0\nr = -3\nS = 32767\n".as_slice(),
        ),
        // tabs, carriage returns, white lines, zeros, no last line feed, and the other end of each range
        (
            b"\tA\t=  -128 127 -0 007\r\n\n  \r\n n = 1048576 \r\nr = 5\nS = -32768",
            b"A = -128 127 0 7\nn = 1048576\nr = 5\nS = -32768\n",
        ),
    ] {
        assert!(rt; text.len() < 100);
        let image = parse_image(alloc, text, &module)?;
        assert_eq!(rt; print_image(alloc, &image, &module)?.as_slice(), printed);
    }
    Ok(())
}

#[test]
fn texts_that_break_a_rule(rt: HostRuntime) -> Result<(), Fail> {
    let alloc = rt.alloc();
    let module = four_arguments(alloc)?;
    for (text, place, broken) in [
        // no image at all, and white lines alone
        (b"".as_slice(), 1, 2),
        (b"\n \t\n", 3, 2),
        (b"A = 1 2 3 4\n", 2, 2),
        (b"A=1 2 3 4", 1, 1),
        (b"%A = 1 2 3 4", 1, 1),
        (b"A =\n", 1, 1),
        (b"A = 1 2 x 4\n", 1, 1),
        (b"A = 1 2 3 4\r", 1, 1),
        (b"B = 1 +2\n", 1, 1),
        (b"n = 1\nA = 1 2 3 4\n", 1, 2),
        (b"A = 1 2 3\n", 1, 3),
        (b"A = 1 2 3 4 5\n", 1, 3),
        (b"A = 1 2 400\n", 1, 3),
        (b"A = 1 2 3 128\n", 1, 4),
        (b"A = -129 2 3 4\n", 1, 4),
        (
            b"A = 1 2 3 -999999999999999999999999999999999999999999\n",
            1,
            4,
        ),
        (b"\r\nA = 1 2 3 4\r\n\t\r\nn = 1048577\n", 4, 4),
        (b"A = 1 2 3 4\nn = -1\n", 2, 4),
        (b"A = 1 2 3 4\nn = 1\nr = 6\n", 3, 4),
        (b"A = 1 2 3 4\nn = 1\nr = 1\nS = 0 0\n", 4, 3),
        (b"A = 1 2 3 4\nn = 1\nr = 1\nS = 0\n\nB = 1\n", 6, 2),
        (b"A = 1 2 3 4\nn = 1\nr = 1\nS = 0\nB\n", 5, 1),
    ] {
        assert!(rt; text.len() < 100);
        match parse_image(alloc, text, &module) {
            Err(ImageFault::Image { line, rule }) => {
                assert_eq!(rt; line, place);
                assert_eq!(rt; rule, broken);
            }
            Err(ImageFault::Memory) => return Err(Fail::from(ImageFault::Memory)),
            Ok(_) => assert!(rt; false),
        }
    }
    Ok(())
}
