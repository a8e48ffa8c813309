//! Verdicts.

/// What is to be said of bytes.
#[derive(Clone, Copy, Debug, PartialEq, Eq)]
pub enum Verdict {
    /// They are a certificate, and all that it says goes together.
    Sound,
    /// They are a certificate with so many fields that don't hold, the first of them at the offset.
    Wrong { offset: usize, number: u64 },
    /// They are no certificate: they break its layout first at the offset.
    Foreign { offset: usize },
}
