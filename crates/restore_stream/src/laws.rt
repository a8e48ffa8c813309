//! What holds of streams, whoever writes and reads them.

ghost use Rattle.std.specs.Prelude.{◌≡◌, ◌<◌, ◌++◌, length, List, ℕ};
ghost use Rattle.attr_records.specs.Items.{Tree};
ghost use Rattle.wire_bytes.specs.Kind.{IsReadOneWay};
ghost use Rattle.restore_stream.specs.Layouts.{stream_bytes};
ghost use Rattle.restore_stream.specs.Trees.{IsMadeTree};
ghost use Rattle.restore_stream.specs.Streams.{stream_layout};

/// Each tree has a stream. The print that `read_stream` speaks of is the stream that `write_stream` writes: the magic, and the frames of the tree. No
/// stream is a proper prefix of another, nor of itself: a stream that was cut off is none.
pub fn no_stream_begins_another()
    ensures print { (tree : Tree) → stream_layout.print tree ≡ stream_bytes tree }
    ensures fits { (tree : Tree) → IsMadeTree tree → stream_layout.Fits tree }
    ensures one_way { IsReadOneWay stream_layout.Fits stream_bytes }
    ensures cut { (tree other : Tree) (front back rest : List ℕ) → stream_layout.Fits tree → stream_layout.Fits other → 0 < length back → stream_bytes tree ≡ front ++ back → front ≡ stream_bytes other ++ rest → ⊥ }
{}
