use rw_vt::Refusal;

/// The lines of a configuration, or why there are none.
pub(crate) type Lines = Result<Vec<u8>, Refusal>;

/// What became of one configuration.
#[derive(Drop)]
pub(crate) struct Entry {
    /// Its number in the grid, from 0.
    pub(crate) index: usize,
    /// Its lines.
    pub(crate) lines: Result<Vec<u8>, Refusal>,
}
