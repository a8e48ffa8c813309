//! Why a frame wasn't laid.

use office_model::Refusal;

/// Why a frame wasn't laid.
#[derive(Debug, Drop)]
pub enum LayFault {
    /// The home office refused a call so, and that was the last one.
    Refused(Refusal),
    /// The frame doesn't fit what is pending; nothing was called.
    Foreign,
}
