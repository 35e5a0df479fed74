//! A launch that waits for its file.

use dap_msg::LaunchArguments;

/// A `launch` whose arguments fit, and which waits for its file.
#[derive(Drop)]
pub struct Launch {
    /// The request's seq.
    pub seq: u64,
    /// The request's arguments.
    pub arguments: LaunchArguments,
}
