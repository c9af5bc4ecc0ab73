// Words behind a command's name that are taken, at the edges of the rules.
ghost use Rattle.std.specs.Prelude.{◌≡◌, true};
ghost use Rattle.command_words.specs.Options.{rules_of, is_table};

use command_words::{CommandOption, Standing, Takes, Value, read_words};
use std::alloc::Global;
use std::test::Fail;

static OPTIONS: [CommandOption<'static>; 4] = [
    CommandOption {
        name: "depth",
        takes: Takes::Number {
            least: 0,
            most: 7,
            default: 0,
        },
        needs: None,
        standing: Standing::Built,
    },
    CommandOption {
        name: "dma",
        takes: Takes::Flag,
        needs: None,
        standing: Standing::Built,
    },
    CommandOption {
        name: "capacity",
        takes: Takes::Number {
            least: 1,
            most: 67_108_864,
            default: 1_048_576,
        },
        needs: Some("dma"),
        standing: Standing::Built,
    },
    CommandOption {
        name: "filler",
        takes: Takes::Number {
            least: i64::MIN,
            most: i64::MAX,
            default: 0,
        },
        needs: None,
        standing: Standing::Built,
    },
];

fn options() -> &'static [CommandOption<'static>]
    ensures { is_table (rules_of result.now) ≡ true }
{
    &OPTIONS
}

/// Whether the words are taken and give these values: depth, dma, capacity, filler.
fn gives(alloc: Global, words: &[&str], expected: (i64, bool, i64, i64)) -> Result<bool, Fail> {
    let Some(values) = read_words(alloc, "stage", options(), words)? else {
        return Ok(false);
    };
    let (depth, dma, capacity, filler) = expected;
    match values.as_slice() {
        [
            Value::Number(a),
            Value::Flag(b),
            Value::Number(c),
            Value::Number(d),
        ] => { Ok(*a == depth && *b == dma && *c == capacity && *d == filler) }
        _ => Ok(false),
    }
}

#[test]
fn words_that_keep_the_rules_are_taken(rt: HostRuntime) -> Result<(), Fail> {
    let alloc = rt.alloc();
    let capacity = 1_048_576;
    assert!(rt; gives(alloc, &[], (0, false, capacity, 0))?);
    assert!(rt; gives(alloc, &["--depth=7"], (7, false, capacity, 0))?);
    assert!(rt; gives(alloc, &["--depth", "7"], (7, false, capacity, 0))?);
    assert!(rt; gives(alloc, &["--dma", "--depth", "0"], (0, true, capacity, 0))?);
    assert!(rt;
        gives(
            alloc,
            &["--depth=00000000000000000003"],
            (3, false, capacity, 0)
        )?
    );
    assert!(rt; gives(alloc, &["--depth=-0"], (0, false, capacity, 0))?);
    assert!(rt;
        gives(
            alloc,
            &["--capacity=67108864", "--dma"],
            (0, true, 67_108_864, 0)
        )?
    );
    assert!(rt; gives(alloc, &["--dma", "--capacity=1"], (0, true, 1, 0))?);
    assert!(rt;
        gives(
            alloc,
            &["--filler=-9223372036854775808"],
            (0, false, capacity, i64::MIN)
        )?
    );
    assert!(rt;
        gives(
            alloc,
            &["--filler=9223372036854775807", "--dma"],
            (0, true, capacity, i64::MAX)
        )?
    );
    Ok(())
}

#[test]
fn words_that_break_a_rule_are_refused(rt: HostRuntime) -> Result<(), Fail> {
    let alloc = rt.alloc();
    for word in [
        "--depth=8",
        "--depth=-1",
        "--depth=",
        "--depth==1",
        "--depth=+1",
        "--depth",
        "--dep=1",
        "-d",
        "--dma=1",
        "--capacity=1",
        "--depth=000000000000000000003",
        "--filler=-9223372036854775809",
        "--pick=1",
        "x",
        "",
        "--",
    ] {
        assert!(rt; read_words(alloc, "stage", options(), &[word])?.is_none());
    }
    assert!(rt; read_words(alloc, "stage", options(), &["--dma", "--dma"])?.is_none());
    assert!(rt; read_words(alloc, "stage", options(), &["--filler", "-1"])?.is_none());
    assert!(rt;
        read_words(alloc, "stage", options(), &["--dma", "--capacity=67108865"])?.is_none()
    );
    Ok(())
}
