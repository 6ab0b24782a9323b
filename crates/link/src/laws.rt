//! What a link tells of the modules whose fragments it joins; and small links, worked out.

ghost use Rattle.std.specs.Prelude.{◌≡◌, ℕ, List, Some, map, slice_get};
ghost use Rattle.link.specs.Link.{Output, Links, link};
ghost use Rattle.link.specs.Programs.{Source, part_of, program_of, Tells};
ghost use Rattle.link.specs.Examples.{Reached, Clash, One_port, No_main};

/// What the link of the fragments of modules writes is the program that `main` reaches in these modules.
pub fn link_law()
    ensures { (sources : List Source) (entry : ℕ) (s : Source) (o : Output) → slice_get sources entry ≡ Some s
        → link (map part_of sources) entry ≡ Links o → Tells o (program_of sources s) }
{}

/// Small links.
pub fn examples()
    ensures reached { Reached }
    ensures clash { Clash }
    ensures one_port { One_port }
    ensures no_main { No_main }
{}
