//! The meaning of an output: what its JavaScript does, and its run under a host.
#![tactic(auto)]

ghost use Rattle.js_meaning.specs.Examples.{Examples};

/// What functions of the fixed text give, as an engine gives it too.
pub fn examples()
    ensures { Examples }
{}
