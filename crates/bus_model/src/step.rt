// Steps and verdicts.

/// One event of a run: an action of the compute thread, or a step of a transfer engine.
#[derive(Clone, Copy)]
pub enum Step {
    /// The next action of the compute thread.
    Compute,
    /// An idle engine takes the started transfer of a tag.
    Take { engine: u32, tag: u32 },
    /// An engine copies the next element of its transfer.
    Move { engine: u32 },
    /// An engine lets go of a transfer whose elements are all moved.
    Finish { engine: u32 },
}

/// Why a run stops before its end.
#[derive(Clone, Copy)]
pub enum FaultKind {
    /// A subscript or a slow place is outside its memref.
    Bounds,
    /// A division has no result.
    Divide,
    /// A half of fast memory is used while its transfer is outstanding.
    Touched,
    /// A slow place is used that an outstanding transfer reads or writes.
    Race,
    /// A tag is started twice, waited for while idle, or released while started.
    Tag,
    /// Live fast memory would pass the capacity.
    Capacity,
    /// A transfer leaves its half, isn't whole chunks, or isn't waited for by its count.
    Shape,
}

/// How a run ends.
#[derive(Clone, Copy)]
pub enum Verdict {
    End,
    Fault(FaultKind),
}
