//! What the program says of how it was built. A build without a proof, by `tools/native-program`, has other texts in these places.

/// What `--version` prints behind the program's name.
pub const VERSION: &str = "0.1.0";

/// The line of `status` about the build: none where what runs is proved.
pub const BUILD_LINE: &str = "";
