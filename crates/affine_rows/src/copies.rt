// Copies of values, and the texts of the small error types.

use affine_ast::{Cells, Image, Path};
use affine_expr::{Constraint, Expr, LinearFault, Rel, Set};
use affine_io::{Failed, ReadStop, WriteFault};
use affine_text::ParseFault;
use affine_verify::VerifyFault;
use constraint_set::Row;
use int_ops::Divide;
use mem_image::ImageFault;
use projection::ReachFault;
use sqlite_items::Items;
use std::alloc::Global;
use std::fmt::Display;
use std::test::Fail;

#[test]
fn copies_are_given_where_there_is_memory(rt: HostRuntime) -> Result<(), Fail> {
    let alloc = rt.alloc();
    let row = Row {
        coefs: vec![in alloc; 1, -2]?,
        constant: 3,
    };
    assert_eq!(rt; row.copy(alloc)?.coefs.as_slice(), [1i128, -2].as_slice());
    let path = Path {
        steps: Items::from_slice(alloc, &[(2, true)])?,
    };
    assert_eq!(rt;
        path.copy(alloc)?.steps.as_slice(),
        [(2u32, true)].as_slice()
    );
    let mut memrefs = Items::new(alloc);
    memrefs.push(Cells {
        values: Items::from_slice(alloc, &[4, 5])?,
    })?;
    let image = Image {
        memrefs,
        symbols: Items::from_slice(alloc, &[6])?,
    };
    let copy = image.copy(alloc)?;
    assert_eq!(rt;
        copy.memrefs.as_slice()[0].values.as_slice(),
        [4i64, 5].as_slice()
    );
    assert_eq!(rt; copy.symbols.as_slice(), [6i64].as_slice());
    let mut rows = Items::new(alloc);
    rows.push(Constraint {
        left: Expr::Dim(0),
        rel: Rel::Ge,
        right: Expr::Const(1),
    })?;
    let set = Set {
        dims: 1,
        syms: 0,
        rows,
    };
    let copy = set.copy(alloc)?;
    assert_eq!(rt;
        (copy.dims, copy.syms, copy.rows.as_slice().len()),
        (1, 0, 1)
    );
    assert!(rt; matches!(copy.rows.as_slice()[0].right, Expr::Const(1)));
    Ok(())
}

fn says<T: Display + Drop>(alloc: Global, error: T, text: &str) -> Result<bool, Fail> {
    Ok(format!(in alloc; "{error}")?.as_str() == text)
}

#[test]
fn errors_say_what_they_are(rt: HostRuntime) -> Result<(), Fail> {
    let alloc = rt.alloc();
    assert!(rt; says(alloc, Failed, "a read or a write failed")?);
    assert!(rt; says(alloc, ReadStop::TooLong, "the source is too long")?);
    assert!(rt;
        says(
            alloc,
            WriteFault { written: 7 },
            "the sink failed after 7 bytes"
        )?
    );
    assert!(rt; says(alloc, Divide, "divide")?);
    assert!(rt; says(alloc, LinearFault::Wide, "a coefficient leaves 128 bits")?);
    assert!(rt;
        says(
            alloc,
            ReachFault::Rows,
            "an elimination has too many variables or rows"
        )?
    );
    assert!(rt; says(alloc, ParseFault::Text { line: 2, column: 3 }, "text 2:3")?);
    assert!(rt;
        says(
            alloc,
            VerifyFault::Invalid { line: 2, rule: 8 },
            "invalid line 2 rule V8"
        )?
    );
    assert!(rt;
        says(
            alloc,
            ImageFault::Image { line: 1, rule: 4 },
            "image line 1 rule I4"
        )?
    );
    Ok(())
}
