//! Where the store has a mail's file.
use mr_compare::Digest;
use std::fmt::{self, Display, Formatter, Write};

/// A mail's file in the store. The mail's files in the Maildir are links of it, or copies where the file system has no links.
#[derive(Clone, Copy, Debug, Drop)]
pub struct StoredMail {
    /// SHA-256 of its bytes.
    pub digest: Digest,
}

/// It prints as its path below the Maildir: `.mailfold/files/` and 64 hexadecimal digits.
impl Display for StoredMail {
    fn fmt<W: Write>(&self, f: &mut Formatter<W>) -> fmt::Result {
        f.write_str(".mailfold/files/")?;
        for byte in self.digest.iter() {
            write!(f, "{byte:02x}")?;
        }
        Ok(())
    }
}
