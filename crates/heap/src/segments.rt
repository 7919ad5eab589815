// List segments, as code meets them: a walk from a cell along the links.
ghost use Rattle.std.specs.Prelude.{◌≡◌, true, false, ◌==◌};
ghost use Rattle.heap.specs.Heaps.{Heap, Empty, IsLseg};
ghost use Rattle.heap.specs.Segments.{EndIsNoCell, NilIsNoCell, Starts, Unfolds};

// Whether a walk along a segment has come to its end: nothing of the segment is left exactly there.
pub fn at_end(at: u32, end: u32) -> bool
    ensures value { result ≡ (at == end) }
    ensures over { result ≡ true → (h : Heap) → IsLseg h at end → Empty h }
    ensures further { result ≡ false → (h : Heap) → IsLseg h at end → Starts h at end }
    ensures unfolds { Unfolds }
    ensures closed { EndIsNoCell }
    ensures nil { NilIsNoCell }
{
    at == end
}
