//! Lemmas about several calls of one reader or writer.

ghost use Rattle.iim_dataset.specs.Laws.{ReadsJoin, WritesJoin};

/// Proves that several reads give the same octets as one read of their concatenation, and that an
/// error comes after all of these octets.
pub fn reads_join()
    ensures { ReadsJoin }
{}

/// Proves that writing texts one after another is the same as writing their concatenation at once.
/// If the second text stopped, so does the concatenation; if the writer failed after the second
/// text, it failed after both.
pub fn writes_join()
    ensures { WritesJoin }
{}
