// What the parts of a source are, as a law.
ghost use Rattle.source_parts.specs.Laws.{FullLines, AreParts, NoOtherParts};

/// The lines of a source are, one after the other, the source, and each but the last ends with its only line feed. The parts
/// of a source stand before and behind its first line `---`, where it has one, and it has no other parts.
pub fn parts_are_exact()
    ensures lines { FullLines }
    ensures are { AreParts }
    ensures others { NoOtherParts }
{}
