//! The names of the files that a command over eras is given.

/// The file of the initial state of era 0, the name of the logs of era 0, and that of the areas.
#[derive(Clone, Copy, Debug)]
pub struct EraFiles<'a> {
    pub init: &'a str,
    pub logs: &'a str,
    pub ckpt: &'a str,
}
