// The prefix of the numbers.
ghost use Rattle.std.specs.Prelude.{◌≡◌, ◌≤◌, length, nat_lt, if◌then◌else◌};
ghost use Rattle.number_names.specs.Underscores.{run, needed, most};

use affine_ast::Name;

/// How many underscores a text begins with.
fn run(text: &[u8]) -> usize
    ensures value { result ≡ run text.now }
    ensures within { result ≤ length text.now }
{
    let mut count = 0;
    for byte in text {
        if *byte != b'_' {
            break;
        }
        count += 1;
    }
    count
}

/// How many underscores a prefix needs not to be a beginning of this name.
fn needed(name: &Name) -> usize
    ensures { result ≡ needed name.now }
{
    if name.made {
        return 0;
    }
    let text = name.text.as_str().as_bytes();
    if text.starts_with(b"copy") {
        run(&text[4..]) + 1
    } else {
        0
    }
}

fn greater(one: usize, other: usize) -> usize
    ensures { result ≡ if nat_lt one other then other else one }
{
    if one < other { other } else { one }
}

/// How many underscores the prefix has.
pub(crate) fn underscores(names: &[Name]) -> usize
    ensures { result ≡ most names.now }
{
    let mut most = 0;
    for name in names {
        most = greater(most, needed(name));
    }
    most
}
