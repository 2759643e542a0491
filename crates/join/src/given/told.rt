//! What a line of a report says.

use report::lines::LineMark;

/// What a line of a report says: of which image and which program it is, and what the program ended in.
#[derive(Clone, Copy, Drop)]
pub struct GivenLine<'t> {
    pub mark: LineMark,
    /// The words between the program and the choice, as `answer 3 codes -`.
    pub outcome: &'t str,
}
