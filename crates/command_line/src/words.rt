//! What a command line asks for.

/// A command of `elmc`, with the texts of its words.
#[derive(Clone, Copy, Debug)]
pub enum Command<'a> {
    /// `elmc make ENTRY --output=FILE [--jobs=N]`: compiles a module.
    Make {
        /// The path of the module.
        entry: &'a str,
        /// The path of the JavaScript to write.
        output: &'a str,
        /// The number of workers that compile modules side by side: 1 to 64, and 1 if it is not given. It does
        /// nothing yet.
        jobs: u32,
    },
    /// `elmc run JSFILE INPUTS [--fuel=N]`: runs an output on inputs.
    Run {
        /// The path of the JavaScript.
        program: &'a str,
        /// The path of the inputs.
        inputs: &'a str,
        /// The calls and turns of loops that the start may take, and each input again: 1 to 4294967295, and 1000000
        /// if it is not given.
        fuel: u32,
    },
}
