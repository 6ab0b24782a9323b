//! Paths of a project.

use crate::print::show;
use project_file::paths::{below, inside, is_absolute, module_path, normal};
use std::alloc::{AllocError, Global};

/// Adds what is said of paths.
pub fn rows(alloc: Global, out: &mut String) -> Result<(), AllocError> {
    for path in ["./src//Main.elm", ".././a/.b/"] {
        show(out, path, &normal(alloc, path))?;
    }
    for path in ["/src", "src/"] {
        show(out, path, &is_absolute(path))?;
    }
    for (folder, path) in [("src", "src/A/B.elm"), ("src", "srcs/A.elm"), ("", "A.elm")] {
        show(out, path, &below(folder, path))?;
    }
    show(out, "A.B", &module_path(alloc, "A.B"))?;
    for (folder, path) in [("src", "A/B.elm"), ("", "A.elm")] {
        show(out, path, &inside(alloc, folder, path))?;
    }
    Ok(())
}
