// How a box is copied: whether one transfer carries it, with which stride and chunk.
ghost use Rattle.std.specs.Prelude.{◌≡◌, ◌<◌, ◌*◌, ◌^◌, ◌∷◌, List};
ghost use Rattle.boxes.specs.Boxes as boxes;
ghost use Rattle.placement_texts.specs.Template as template;
ghost use Rattle.staging_laws.specs.Law.{flat_spans};
ghost use Rattle.staged_plans.specs.Plans.{chunks_of, how_over};
ghost use Rattle.placement_code.specs.Placed.{how_of};
ghost use Rattle.planned_placements.specs.Carried.{shape_of, IsCarried};
ghost use Rattle.planned_placements.specs.Writable.{IsNarrow};

use placement_code::{Dimension, How};

/// How the elements of a box lie in the memref.
#[derive(Clone, Copy)]
enum Shape {
    Whole,
    OneRun,
    Even { chunk: u32, stride: u32 },
    Runs { chunk: u32, stride: u32 },
    Mixed,
}

/// The shape of a box, its elements and those of the memref.
#[derive(Clone, Copy)]
struct Carried {
    shape: Shape,
    count: u32,
    volume: u32,
}

/// The shape with one dimension more before the others.
#[tactic(auto, using(crate::proofs::Shapes::behind_whole, crate::proofs::Shapes::behind_run, crate::proofs::Shapes::behind_even, crate::proofs::Shapes::behind_runs, crate::proofs::Shapes::behind_mixed))]
fn shape_over(dim: &Dimension, inner: Carried) -> Shape
    ensures { (ds : List template.Dimension) → IsCarried ds inner → shape_of result ≡ boxes.shape (flat_spans (dim.now ∷ ds)) }
{
    let whole = dim.extent == dim.size;
    let one = dim.extent == 1;
    let (chunk, stride) = (inner.count, inner.volume);
    match inner.shape {
        Shape::Whole if whole => Shape::Whole,
        Shape::Whole => Shape::OneRun,
        Shape::OneRun if one => Shape::OneRun,
        Shape::OneRun if whole => Shape::Even { chunk, stride },
        Shape::OneRun => Shape::Runs { chunk, stride },
        Shape::Even { .. } if whole => inner.shape,
        Shape::Even { chunk, stride } => Shape::Runs { chunk, stride },
        Shape::Runs { .. } if one => inner.shape,
        _ => Shape::Mixed,
    }
}

fn with_dim(dim: &Dimension, inner: Carried) -> Carried
    requires count { dim.now.extent * inner.count < 2 ^ 32 }
    requires volume { dim.now.size * inner.volume < 2 ^ 32 }
    ensures { (ds : List template.Dimension) → IsCarried ds inner → IsCarried (dim.now ∷ ds) result }
{
    Carried {
        shape: shape_over(dim, inner),
        count: dim.extent * inner.count,
        volume: dim.size * inner.volume,
    }
}

/// The whole box, from its last dimension on.
#[tactic(auto, using(crate::proofs::Shapes::carried_more, crate::proofs::Shapes::room_count, crate::proofs::Shapes::room_volume))]
fn carried_box(dims: &[Dimension]) -> Carried
    requires { IsNarrow dims.now }
    ensures { IsCarried dims.now result }
{
    let mut inner = Carried {
        shape: Shape::Whole,
        count: 1,
        volume: 1,
    };
    let mut left = dims.len();
    while left > 0 {
        left -= 1;
        inner = with_dim(&dims[left], inner);
    }
    inner
}

/// The stride and the chunk, where there are several chunks.
fn chunks_of(shape: Shape) -> Option<(u32, u32)>
    ensures { result ≡ chunks_of (shape_of shape) }
{
    match shape {
        Shape::Even { chunk, stride } => Some((stride, chunk)),
        Shape::Runs { chunk, stride } => Some((stride, chunk)),
        _ => None,
    }
}

/// By one transfer where `dma` says so, else by copy loops.
pub fn how_over(dma: bool, dims: &[Dimension]) -> How
    requires { IsNarrow dims.now }
    ensures { how_of result ≡ how_over dma dims.now }
{
    if dma {
        How::Transfers(chunks_of(carried_box(dims).shape))
    } else {
        How::Copies
    }
}
