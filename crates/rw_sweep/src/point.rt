use crate::choice::Choice;
use crate::facts::Facts;
use rw_photo::Config;
use rw_report::Outlook;

/// A choice and its configuration.
#[derive(Clone, Copy)]
pub(crate) struct Point {
    /// Its place in the grid, if each of its lines begins with it.
    pub(crate) place: Option<u64>,
    pub(crate) choice: Choice,
    pub(crate) config: Config,
    /// What is reported of it, where that is not its three lines of the whole run.
    pub(crate) outlook: Option<Outlook>,
    /// How many ticks a second has, where that is known.
    pub(crate) ticks_a_second: Option<u64>,
    /// The facts of the trace that it runs, once all its rows are known.
    pub(crate) facts: Facts,
}
