//! All that the program works with.

/// What the program works with, each part under its trait: files that hold offices
/// (`OfficeFiles`), files that are handed in (`Files`), clocks (`ZoneClocks`), standard
/// input (`byte_io::Source`), standard output and standard error (`Console`).
#[derive(Drop)]
pub struct Host<O, F, K, I, W, E, P> {
    pub offices: O,
    pub files: F,
    pub clocks: K,
    pub input: I,
    pub output: W,
    pub errors: E,
    pub ports: P,
}
