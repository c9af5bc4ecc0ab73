// The sizes of a memref by its name.
ghost use Rattle.std.specs.Prelude.{◌≡◌};
ghost use Rattle.access_region.specs.Finding.{kind_sizes};
ghost use Rattle.module_regions.specs.Lines.{sizes_of};

use affine_ast::{Arg, ArgKind, Name};
use text_places::same;

fn kind_sizes(kind: &ArgKind) -> &[u32]
    ensures { result.now ≡ kind_sizes kind.now }
{
    match kind {
        ArgKind::Memref(ty) => ty.sizes.as_slice(),
        ArgKind::Index(_) => &[],
    }
}

/// The sizes of the argument with a name; none where it is no memref.
#[tactic(auto, using(crate::proofs::Sized::sizes_found, crate::proofs::Sized::sizes_go_on, crate::proofs::Sized::sizes_end))]
pub(crate) fn sizes_of<'a>(args: &'a [Arg], memref: &Name) -> &'a [u32]
    ensures { result.now ≡ sizes_of args.now memref.now }
{
    for arg in args {
        if same(&arg.name, memref) {
            return kind_sizes(&arg.kind);
        }
    }
    &[]
}
