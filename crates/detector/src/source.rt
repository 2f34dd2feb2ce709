// The source address of an inner frame: bytes 6 to 11 (document 02, §1).
ghost use Rattle.std.specs.Prelude.{◌≡◌};
ghost use Rattle.detector.specs.Source.{source_of};

// The address as a number, its first byte the highest; 0 of a frame that ends before it does.
// As it is: 0 and no Option: C calls it, and what could not fail still can't.
pub fn source(frame: &[u8]) -> u64
    ensures { result ≡ source_of frame.now }
{
    let [_, _, _, _, _, _, a, b, c, d, e, f, ..] = frame else {
        return 0;
    };
    u64::from_be_bytes([0, 0, *a, *b, *c, *d, *e, *f])
}
