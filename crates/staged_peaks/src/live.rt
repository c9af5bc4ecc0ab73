// The bytes of placements, along the way to the block whose turn it is.
ghost use Rattle.std.specs.Prelude.{◌≡◌, ◌<◌, ◌≤◌, ◌^◌, [], length, IfOk, OnErr, OnOk, OnSome, SomeIff};
ghost use Rattle.affine_ast.specs.Nest.{Nest};
ghost use Rattle.staged_peaks.specs.Living.{shared, kept_of, next_way, reach, raised, peak_more, Lives, PeakIs, Added, Went};

use affine_ast::Path;
use loop_paths::LoopPath;
use sqlite_items::Items;
use std::alloc::{AllocError, Global};

/// A loop on the way: how many steps name it, the bytes of the placements at it, and the most bytes that others have at once in it.
#[derive(Clone, Copy, Drop)]
struct LiveLoop {
    steps: usize,
    own: u64,
    below: u64,
}

/// The bytes that placements have live: of each loop on the way to a block, from the outside in, the block's own last, and at most in the
/// whole text.
///
/// Blocks come in text order, so a loop that is left isn't entered again.
#[derive(Drop)]
pub struct Live {
    way: Items<LiveLoop>,
    at: Path,
    most: u64,
}

/// How many steps two paths have in common at their beginning.
fn common_steps(left: &[(u32, bool)], right: &[(u32, bool)]) -> usize
    ensures { result ≡ shared left.now right.now }
{
    let mut count = 0;
    while count < left.len() && count < right.len() {
        if left[count].0 != right[count].0 || left[count].1 != right[count].1 {
            return count;
        }
        count += 1;
    }
    count
}

/// How many loops on the way are on the next one, too: those whose steps both paths have.
fn kept(way: &[LiveLoop], common: usize, lengths: &[usize]) -> usize
    ensures value { result ≡ kept_of common way.now lengths.now }
    ensures of_way { result ≤ length way.now }
    ensures of_next { result ≤ length lengths.now }
{
    let mut count = 0;
    while count < way.len() && count < lengths.len() {
        if common < way[count].steps {
            return count;
        }
        count += 1;
    }
    count
}

/// The way to a loop whose path, and those of the loops round it, have these lengths.
fn way_on(
    alloc: Global,
    way: &[LiveLoop],
    common: usize,
    lengths: &[usize],
) -> Result<Items<LiveLoop>, AllocError>
    ensures { IfOk result (λ new. new ≡ next_way common way.now lengths.now) }
{
    let kept = kept(way, common, lengths);
    let mut new = Items::from_slice(alloc, &way[..kept])?;
    for steps in &lengths[kept..] {
        new.push(LiveLoop {
            steps: *steps,
            own: 0,
            below: 0,
        })?;
    }
    Ok(new)
}

/// The bytes of the loops down to one, with so many more there, and the most in it.
fn reached(way: &[LiveLoop], place: usize, bytes: u64) -> Option<u64>
    ensures { SomeIff result (reach place bytes way.now < 2 ^ 64) (reach place bytes way.now) }
{
    let Some((outer, more)) = way.split_first() else {
        return Some(bytes);
    };
    if place == 0 {
        return outer.own.checked_add(bytes)?.checked_add(outer.below);
    }
    let inner = reached(more, place - 1, bytes)?;
    outer.own.checked_add(inner)
}

/// Makes what is live in a loop count for those round it, from the inside out. Returns the bytes of the loops down to it, and the most in it.
fn raise_round(way: &mut Items<LiveLoop>, place: usize) -> u64
    requires within { place < length way.old }
    requires fits { reach place 0 way.old < 2 ^ 64 }
    ensures way { way.new ≡ raised place 0 way.old }
    ensures reach { result ≡ reach place 0 way.old }
{
    let here = way.as_slice()[place];
    let mut inner = here.own + here.below;
    let mut left = place;
    while left > 0 {
        left -= 1;
        let outer = way.as_slice()[left];
        way.set(
            left,
            LiveLoop {
                steps: outer.steps,
                own: outer.own,
                below: outer.below.max(inner),
            },
        );
        inner += outer.own;
    }
    inner
}

/// Adds bytes at a loop. Returns what [`reached`] says.
fn raise(way: &mut Items<LiveLoop>, place: usize, bytes: u64) -> u64
    requires within { place < length way.old }
    requires fits { reach place bytes way.old < 2 ^ 64 }
    ensures way { way.new ≡ raised place bytes way.old }
    ensures reach { result ≡ reach place bytes way.old }
{
    let here = way.as_slice()[place];
    way.set(
        place,
        LiveLoop {
            steps: here.steps,
            own: here.own + bytes,
            below: here.below,
        },
    );
    raise_round(way, place)
}

impl Live {
    /// Those of a text without placements, before its first block.
    pub fn new(alloc: Global) -> Live
        ensures { (n : Nest) → Lives n [] [] result }
    {
        Live {
            way: Items::new(alloc),
            at: Path {
                steps: Items::new(alloc),
            },
            most: 0,
        }
    }

    /// Goes to the next block.
    ///
    /// # Errors
    ///
    /// `AllocError`, for want of memory: then nothing has changed.
    pub fn go_to(&mut self, alloc: Global, next: &LoopPath) -> Result<(), AllocError>
        ensures went { OnOk result (Went self.old next.now self.new) }
        ensures refused { OnErr result (self.new ≡ self.old) }
    {
        let common = common_steps(self.at.steps.as_slice(), next.at.steps.as_slice());
        let mut lengths = Items::from_slice(alloc, next.round.as_slice())?;
        lengths.push(next.at.steps.len())?;
        let way = way_on(alloc, self.way.as_slice(), common, lengths.as_slice())?;
        self.at = next.at.copy(alloc)?;
        self.way = way;
        Ok(())
    }

    /// The peak with a placement of so many bytes more, at the loop that has so many loops round it, of those on the way to the block;
    /// nothing where it is no number of 64 bits.
    pub fn peak_with(&self, place: usize, bytes: u64) -> Option<u64>
        ensures peak { PeakIs self.now place bytes result }
        ensures fits { OnSome result (peak_more self.now place bytes < 2 ^ 64) }
    {
        let Some(reached) = reached(self.way.as_slice(), place, bytes) else {
            return None;
        };
        Some(self.most.max(reached))
    }

    /// Adds that placement.
    pub fn add(&mut self, place: usize, bytes: u64)
        requires { peak_more self.old place bytes < 2 ^ 64 }
        ensures { Added self.old place bytes self.new }
    {
        if place < self.way.len() {
            let reached = raise(&mut self.way, place, bytes);
            self.most = self.most.max(reached);
        }
    }
}
