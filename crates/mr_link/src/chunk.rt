//! What passes a lane of a link.
ghost use Rattle.std.specs.Prelude.{◌≡◌, ◌<◌, length};

/// Bytes, at least one.
#[derive(Drop)]
pub struct Chunk {
    pub bytes: Vec<u8>,
    ghost some: { 0 < length bytes.items },
}

/// These bytes, of which there is one at least.
pub(crate) fn chunk_of(bytes: Vec<u8>) -> Chunk
    requires { 0 < length bytes.items }
    ensures { result.bytes ≡ bytes }
{
    Chunk { bytes }
}
