//! What directives may ask for.

use vd_bytes::Text;

/// The text that the identifier `TOOL_TYPE` has in the condition of a directive.
#[derive(Debug, Drop)]
pub struct Settings {
    pub tool_type: Text,
}
