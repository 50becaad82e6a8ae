// What a program says of itself.

/// The texts of a program about itself. Each ends with LF.
#[derive(Clone, Copy)]
pub struct About {
    /// Its name.
    pub name: &'static str,
    /// Its usage, in one line.
    pub usage: &'static str,
    /// What `--help` writes after that line.
    pub help: &'static str,
    /// Whether it knows `--page`, and what goes with it.
    pub has_page: bool,
}
