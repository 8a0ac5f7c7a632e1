use thiserror::Error;

/// Why a text is no dump. Of the lines at fault it's the first, by its number from 1.
#[derive(Clone, Copy, Debug, PartialEq, Eq, Error)]
pub enum DumpNo {
    /// The line isn't as the form has it, is missing where it belongs, or isn't ended by a newline.
    #[error("{0}: DU1")]
    DU1(u32),
    /// The line has the form, but its range begins below the end of the range before it, or touches that.
    #[error("{0}: DU2")]
    DU2(u32),
}
