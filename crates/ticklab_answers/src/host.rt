use crate::colours::Colours;

/// What the program has of its host: its version, its files, standard output and standard error, and which of these show
/// colours.
#[derive(Drop)]
pub struct Host<F, O, T> {
    /// What `--version` tells behind the program's name.
    pub version: &'static str,
    pub files: F,
    pub out: O,
    pub err: T,
    pub colours: Colours,
}
