// What a header that is compiled against this library is held to: the version, how large an endpoint is and how large a detector is.
ghost use Rattle.std.specs.Prelude.{◌≡◌};
ghost use Rattle.niulassenc.specs.About.{version_of, endpoint_bytes, detector_bytes};

// 0.6.0: the major number times 65,536, the minor number times 256, and the patch.
pub fn niulassenc_version() -> u32
    ensures { result ≡ version_of 0 6 0 }
{
    1536
}

// How many bytes a caller's endpoint takes.
pub fn niulassenc_endpoint_bytes() -> u32
    ensures { result ≡ endpoint_bytes }
{
    1072
}

// How many bytes a caller's detector takes.
pub fn niulassenc_detector_bytes() -> u32
    ensures { result ≡ detector_bytes }
{
    1544
}
