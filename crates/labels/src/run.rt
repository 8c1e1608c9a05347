// What the Names of a run are read off, lent to all that judges them.

#[derive(Clone, Copy)]
pub struct Run<'a> {
    pub bytes: &'a [u8],
    pub tokens: &'a [u32],
    pub events: &'a [u32],
    // How many expectations the run wrote: the first pool place of each report.
    pub first: u32,
}
