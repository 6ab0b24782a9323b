//! What a worker calls round each compile.

/// A gate that a worker passes before and after it compiles a module.
///
/// A build does the same whatever its gate does: a gate only holds a worker back, so that a test can let two compiles
/// overlap. It can be shared between threads.
///
/// Today a build has one worker. It passes the gate once, around all modules, with the numbers 0 and 0.
pub trait Gate {
    /// Called right before a module is compiled: `worker` is the worker's number, from 0, and `module` the module's
    /// number in the order of the build, from 0.
    fn before(&self, worker: u32, module: u32);

    /// Called right after that module is compiled, with the same numbers.
    fn after(&self, worker: u32, module: u32);
}

/// The gate that is always open: it does nothing.
#[derive(Clone, Copy, Debug, Default, PartialEq, Eq)]
pub struct OpenGate;

impl Gate for OpenGate {
    fn before(&self, _worker: u32, _module: u32) {}

    fn after(&self, _worker: u32, _module: u32) {}
}
