//! What the program says of how it was built. A build without a proof, by `tools/native-program`, has another text in this place.

/// What `--version` prints behind the program's name.
pub const VERSION: &str = "0.1.0";
